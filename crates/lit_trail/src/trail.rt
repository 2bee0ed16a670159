//! The trail of a search.

ghost use Rattle.std.specs.Prelude.{◌≡◌, ℕ, ◌+◌, ◌<◌, ◌≤◌, ◌^◌, [], ◌∷◌, List, map, max, reverse, slice_index_or, Some, None, length, OnOk, OnErr};
ghost use Rattle.clause_store.specs.Closure.{Clause};
ghost use Rattle.lit_trail.specs.Unassigned.{first_open};
ghost use Rattle.lit_trail.specs.Levels.{AreLevels, AreOrdered};
ghost use Rattle.lit_trail.specs.Sound.{IsSound, Keeps, KeepsClosed, KeepsByReason};
ghost use Rattle.lit_trail.specs.Entries.{value_in, level_in, reason_in, spot_in, decision_in, back};

use crate::assignment::{Assignment, Entry};
use crate::unassigned::{first_from, states_below};
use atom_space::AtomSpace;
use clause_store::ClauseId;
use std::alloc::Global;
use std::marker::Model;
use tel_base::{Lit, Memory};

/// The literals that hold, in the order of their assignment. Level 0 has what holds without a decision; each further level
/// begins with a decision, but level 1 may be opened without one.
///
/// Under the clauses of a search a trail is sound where each implied literal has its reason, and the literals up to each level below
/// the trail's are the closure of the decisions up to it. Each call says what it keeps of that.
///
/// Contracts see the level, the entries, the last one first, and the number of variables that the trail has grown to.
#[derive(Drop)]
pub struct Trail {
    assignment: Assignment,
    // of each level above 0
    decisions: Vec<Option<Lit>>,
}

impl Model for Trail {
    ghost use Rattle.std.specs.Prelude.{length, reverse, vec_capacity};
    ghost use Rattle.lit_trail.specs.Entries.{View, view_of};
    ghost use Rattle.lit_trail.specs.Levels.{IsTrail};

    ghost Value = { View };

    ghost view = { λ trail. view_of trail.assignment (length trail.decisions.items) };

    ghost invariant = { λ trail. IsTrail trail.assignment (reverse trail.decisions.items) (vec_capacity trail.decisions) };
}

impl Trail {
    /// The empty trail, at level 0. It takes no memory yet.
    pub fn new(alloc: Global) -> Trail
        ensures entries { result.entries ≡ [] }
        ensures vars { result.vars ≡ 0 }
        ensures level { result.level ≡ 0 }
        ensures sound { (clauses : List Clause) → IsSound clauses result }
    {
        Trail {
            assignment: Assignment::new(alloc),
            decisions: Vec::new(alloc),
        }
    }

    /// Makes room for the variables below this number, so that no later call but this one takes memory.
    /// On want of memory the trail is unchanged.
    pub fn grow(&mut self, vars: u32) -> Result<(), Memory>
        requires { vars + 1 < 2 ^ 32 }
        ensures entries { self.new.entries ≡ self.old.entries }
        ensures level { self.new.level ≡ self.old.level }
        ensures vars { OnOk result (self.new.vars ≡ max self.old.vars vars) }
        ensures err { OnErr result (self.new.vars ≡ self.old.vars) }
        ensures keeps { Keeps self.old self.new }
    {
        if vars > 0 {
            self.decisions.reserve(vars as usize + 1)?;
        }
        self.assignment.grow(vars)?;
        Ok(())
    }

    /// The level that is open; 0 where none was opened.
    pub fn level(&self) -> u32
        ensures { result ≡ self.now.level }
    {
        self.decisions.len() as u32
    }

    /// How many literals hold.
    pub fn len(&self) -> usize
        ensures count { result ≡ length self.now.entries }
        ensures few { length self.now.entries ≤ self.now.vars }
        ensures small { self.now.vars + 1 < 2 ^ 32 }
        ensures ordered { AreOrdered self.now.vars self.now.entries }
        ensures levels { AreLevels self.now.level self.now.entries }
    {
        self.assignment.len()
    }

    /// The literal at a place, counted from the last one, with its level and reason.
    pub fn entry(&self, place: usize) -> Entry
        requires { place < length self.now.entries }
        ensures { result ≡ slice_index_or self.now.entries place result }
    {
        self.assignment.entry(place)
    }

    /// The value of a literal; `None` where its variable has none.
    pub fn value(&self, lit: Lit) -> Option<bool>
        ensures { result ≡ value_in self.now.entries lit }
    {
        match self.assignment.spot(lit.var) {
            Some(spot) => Some(spot.positive == lit.positive),
            None => None,
        }
    }

    /// The level at which a variable got its value.
    pub fn level_of(&self, var: u32) -> Option<u32>
        ensures { result ≡ level_in self.now.entries var }
    {
        match self.assignment.spot(var) {
            Some(spot) => Some(spot.level),
            None => None,
        }
    }

    /// The clause that gave a variable its value; `None` where it has none, or was decided.
    pub fn reason(&self, var: u32) -> Option<ClauseId>
        ensures { result ≡ reason_in self.now.entries var }
    {
        match self.assignment.spot(var) {
            Some(spot) => spot.reason,
            None => None,
        }
    }

    /// The decision of a level; `None` exactly where the level is 0, isn't open, or was opened without one.
    pub fn decision(&self, level: u32) -> Option<Lit>
        ensures { result ≡ decision_in self.now.entries level }
    {
        let decisions = self.decisions.as_slice();
        if level == 0 {
            return None;
        }
        match decisions.get(level as usize - 1) {
            Some(decision) => *decision,
            None => None,
        }
    }

    /// The literals in order.
    pub fn lits(&self) -> &[Lit]
        ensures { result.now ≡ reverse (map (λ entry. entry.lit) self.now.entries) }
    {
        self.assignment.lits()
    }

    /// Puts a literal with its reason at the end, at the level that is open.
    pub fn imply(&mut self, lit: Lit, reason: ClauseId)
        requires free { spot_in self.old.entries lit.var ≡ None }
        requires within { lit.var < self.old.vars }
        ensures entries { self.new.entries ≡ record { lit = lit; level = self.old.level; reason = Some reason } ∷ self.old.entries }
        ensures vars { self.new.vars ≡ self.old.vars }
        ensures level { self.new.level ≡ self.old.level }
        ensures room { length self.new.entries ≤ self.new.vars }
        ensures keeps { KeepsByReason lit reason self.old self.new }
    {
        let level = self.level();
        self.assignment.put(lit, level, Some(reason));
    }

    /// Opens a level with this decision.
    pub fn decide(&mut self, lit: Lit)
        requires free { spot_in self.old.entries lit.var ≡ None }
        requires within { lit.var < self.old.vars }
        ensures entries { self.new.entries ≡ record { lit = lit; level = self.old.level + 1; reason = None } ∷ self.old.entries }
        ensures vars { self.new.vars ≡ self.old.vars }
        ensures level { self.new.level ≡ self.old.level + 1 }
        ensures keeps { KeepsClosed self.old self.new }
    {
        self.assignment.leaves_room(lit.var);
        let level = self.level() + 1;
        match self.decisions.push(Some(lit)) {
            Ok(()) => {}
            Err(_) => unreachable!(),
        }
        self.assignment.put(lit, level, None);
    }

    /// Opens level 1 without a decision.
    pub fn open_level(&mut self)
        requires level { self.old.level ≡ 0 }
        requires vars { 0 < self.old.vars }
        ensures entries { self.new.entries ≡ self.old.entries }
        ensures vars { self.new.vars ≡ self.old.vars }
        ensures level { self.new.level ≡ 1 }
        ensures keeps { KeepsClosed self.old self.new }
    {
        match self.decisions.push(None) {
            Ok(()) => {}
            Err(_) => unreachable!(),
        }
    }

    /// Gives up the levels above this one.
    pub fn back_to(&mut self, level: u32)
        requires { level ≤ self.old.level }
        ensures entries { self.new.entries ≡ back level self.old.entries }
        ensures vars { self.new.vars ≡ self.old.vars }
        ensures level { self.new.level ≡ level }
        ensures keeps { Keeps self.old self.new }
    {
        'popping: while self.assignment.top() > level {
            self.assignment.pop();
        }
        self.decisions.truncate(level as usize);
    }

    /// The first visible variable without a value, by state and atom, of the states below `n` that the
    /// space has. It begins where a variable without a value may be, not at state 0.
    pub fn first_unassigned(&self, space: &AtomSpace, n: u32) -> Option<u32>
        ensures { result ≡ first_open self.now.entries space.now n }
    {
        first_from(&self.assignment, space, states_below(space, n))
    }
}
