//! A store and a trail that are sound together.

ghost use Rattle.std.specs.Prelude.{◌≡◌, ℕ, ◌+◌, ◌<◌, ◌^◌, IsTrue, IfOk};
ghost use Rattle.clause_store.specs.Held.{is_clause};
ghost use Rattle.clause_learn.specs.FirstUip.{set_of, has_more};

use clause_learn::{Scratch, learn};
use clause_store::{ClauseId, ClauseKind, Store};
use lit_trail::Trail;
use std::alloc::Global;
use std::marker::Model;
use tel_base::{Lit, Memory};
use watch_propagate::{Propagated, propagate};

/// Clauses, a trail, and what is known of it.
///
/// Contracts see the number of variables.
#[derive(Drop)]
pub struct Session {
    store: Store,
    trail: Trail,
    scratch: Scratch,
    quiet: bool,
    conflict: Option<ClauseId>,
}

impl Model for Session {
    ghost use Rattle.std.specs.Prelude.{ℕ};
    ghost use Rattle.search_tests.specs.Sessions.{IsSession};

    ghost Value = { ℕ };

    ghost view = { λ session. session.store.vars };

    ghost invariant = { λ session. IsSession session.store session.trail session.scratch.vars session.quiet session.conflict };
}

impl Session {
    /// No clause and no literal, for so many variables.
    pub fn new(alloc: Global, vars: u32) -> Result<Session, Memory>
        requires { vars + 1 < 2 ^ 32 }
        ensures { IfOk result (λ session. session ≡ vars) }
    {
        let mut store = Store::new(alloc);
        store.reserve_vars(vars)?;
        let mut trail = Trail::new(alloc);
        trail.grow(vars)?;
        let mut scratch = Scratch::new(alloc);
        scratch.grow(vars)?;
        Ok(Session {
            store,
            trail,
            scratch,
            quiet: false,
            conflict: None,
        })
    }

    /// Holds a further clause, where the trail is empty.
    pub fn hold(&mut self, lits: &[Lit]) -> Result<bool, Memory>
        requires { IsTrue (is_clause self.old lits.now) }
        ensures { self.new ≡ self.old }
    {
        if self.trail.len() > 0 || self.trail.level() > 0 {
            return Ok(false);
        }
        self.quiet = false;
        self.conflict = None;
        let _ = self.store.add(ClauseKind::Module, lits)?;
        Ok(true)
    }

    /// The value of a literal.
    pub fn value(&self, lit: Lit) -> Option<bool> {
        self.trail.value(lit)
    }

    /// The level of a variable.
    pub fn level_of(&self, var: u32) -> Option<u32> {
        self.trail.level_of(var)
    }

    /// The clause that gave a variable its value.
    pub fn reason(&self, var: u32) -> Option<ClauseId> {
        self.trail.reason(var)
    }

    /// Propagates, and answers the clause that is false.
    pub fn propagate(&mut self) -> Option<ClauseId>
        ensures { self.new ≡ self.old }
    {
        let _count = self.trail.len();
        match propagate(&mut self.store, &mut self.trail) {
            Propagated::Quiet => {
                self.quiet = true;
                self.conflict = None;
                None
            }
            Propagated::Conflict(id) => {
                self.quiet = false;
                self.conflict = Some(id);
                Some(id)
            }
        }
    }

    /// Decides a literal, where the trail is closed and the variable has no value.
    pub fn decide(&mut self, lit: Lit) -> bool
        requires { lit.var < self.old }
        ensures { self.new ≡ self.old }
    {
        if !self.quiet {
            return false;
        }
        match self.trail.value(lit) {
            Some(_) => false,
            None => {
                self.quiet = false;
                self.conflict = None;
                self.trail.decide(lit);
                true
            }
        }
    }

    /// The literals and the level that are learnt from the conflict.
    pub fn learn(&mut self, alloc: Global) -> Result<Option<(Vec<Lit>, u32)>, Memory>
        ensures { self.new ≡ self.old }
    {
        let id = match self.conflict {
            Some(id) => id,
            None => return Ok(None),
        };
        let level = self.trail.level();
        if level == 0 || !has_top(self.store.clause(id), &self.trail, level) {
            return Ok(None);
        }
        let learnt = learn(&mut self.scratch, &self.store, &self.trail, id);
        let lits = Vec::from_slice(alloc, learnt.lits)?;
        Ok(Some((lits, learnt.level)))
    }
}

/// Whether a literal of the clause is false at this level.
fn has_top(clause: &[Lit], trail: &Trail, level: u32) -> bool
    ensures { IsTrue result → IsTrue (has_more level trail.now.entries (set_of clause.now)) }
{
    let _count = trail.len();
    for lit in clause {
        if trail.value(*lit) == Some(false) && trail.level_of(lit.var) == Some(level) {
            return true;
        }
    }
    false
}
