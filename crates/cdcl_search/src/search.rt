//! The search.

ghost use Rattle.std.specs.Prelude.{◌≡◌, ℕ, ◌+◌, ◌-◌, ◌^◌, ◌<◌, ◌≤◌, [], ◌∷◌, ◌++◌, max, length, map, Option, Some, None, is_some, IsTrue, IfOk, OnOk, OnErr};
ghost use Rattle.std.specs.List.{list_all};
ghost use Rattle.std.specs.Option.{option_copied};
ghost use Rattle.tel_base.specs.Members.{In};
ghost use Rattle.tel_base.specs.Literals.{lit_of};
ghost use Rattle.atom_space.specs.Numbers.{end_at};
ghost use Rattle.clause_store.specs.Held.{is_clause};
ghost use Rattle.normal_program.specs.Grounds.{layers_of, all_rules, parts_of};
ghost use Rattle.lit_trail.specs.Unassigned.{visible_below};
ghost use Rattle.lit_trail.specs.Sound.{IsClosedTrail};
ghost use Rattle.watch_propagate.specs.Propagation.{IsFalseClause};
ghost use Rattle.unfounded_sets.specs.LoopClauses.{IsFalseLoop};
ghost use Rattle.search_laws.specs.Origins.{Kept};
ghost use Rattle.cdcl_search.specs.Searches.{clauses_of, begun_at, vars_for, kept_of_module, IsAsBefore};
ghost use Rattle.cdcl_search.specs.Steps.{Steps, AtLength, IsFalseOne, IsBlocked, loop_set};

use crate::adding::{add_clauses, make_room, vars_for};
use crate::advancing::{Advanced, advance};
use crate::begun::{Begun, is_used_up};
use crate::loops::{LoopSet, last_with, push_length, push_loop};
use crate::steps::Step;
use atom_space::AtomSpace;
use back_jump::{hold_false, hold_learnt};
use clause_learn::Scratch;
use clause_store::{ClauseId, ClauseKind, Store};
use horizon_external::end_var;
use lit_trail::Trail;
use model_block::block;
use normal_program::{Ground, StepModule};
use std::alloc::Global;
use std::marker::Model;
use tel_base::{Clause, Lit, Memory};
use unfounded_sets::{Founded, LoopNogood};

/// A conflict-driven search over the modules of a program.
///
/// Contracts see the rules and the other parts of the modules, the clauses with the lengths at which they came, the number of
/// variables, the trail, the sets of loop clauses, and the length that the search is at.
#[derive(Drop)]
pub struct Search<F: Drop> {
    alloc: Global,
    founded: F,
    ground: Ground,
    store: Store,
    lengths: Vec<u32>,
    trail: Trail,
    scratch: Scratch,
    loops: Vec<LoopSet>,
    begun: Option<Begun>,
}

impl<F: Drop> Model for Search<F> {
    ghost use Rattle.cdcl_search.specs.Searches.{View, view_of, IsSearch};

    ghost Value = { View };

    ghost view = { λ search. view_of search.ground search.store search.lengths.items search.trail search.loops.items search.begun };

    ghost invariant = { λ search. IsSearch search.store search.trail search.scratch.vars search.lengths.items search.begun };
}

impl<F: Founded + Drop> Search<F> {
    /// A search without modules. It takes no memory yet.
    pub fn new(alloc: Global, founded: F) -> Search<F>
        ensures ground { result.ground ≡ layers_of [] [] }
        ensures kept { result.kept ≡ [] }
        ensures vars { result.vars ≡ 0 }
        ensures entries { result.trail.entries ≡ [] }
        ensures loops { result.loops ≡ [] }
        ensures begun { result.begun ≡ None }
    {
        Search {
            alloc,
            founded,
            ground: Ground::new(alloc),
            store: Store::new(alloc),
            lengths: Vec::new(alloc),
            trail: Trail::new(alloc),
            scratch: Scratch::new(alloc),
            loops: Vec::new(alloc),
            begun: None,
        }
    }

    /// The trail.
    pub fn trail(&self) -> &Trail
        ensures { result.now ≡ self.now.trail }
    {
        &self.trail
    }

    /// The clauses that it holds.
    #[tactic(auto, using(crate::proofs::StoredClauses::stored_clauses))]
    pub fn store(&self) -> &Store
        ensures { result.now.clauses ≡ map (λ (one : Kept). record { kind = one.kind; lits = one.lits }) self.now.kept }
    {
        &self.store
    }

    /// Adds the next module of a program with its clauses, and goes back to level 0. On want of memory the search holds
    /// what it held.
    pub fn extend(&mut self, step: &StepModule, clauses: &[Clause]) -> Result<(), Memory>
        requires state { step.now.t + 1 < 2 ^ 32 }
        requires vars { vars_for step.now clauses.now < 2 ^ 31 }
        requires clauses { IsTrue (list_all (is_clause (vars_for step.now clauses.now)) clauses.now) }
        ensures ground { OnOk result ((self.new.ground.rules ≡ self.old.ground.rules ++ all_rules step.now) × (self.new.ground.modules ≡ self.old.ground.modules ++ parts_of step.now ∷ [])) }
        ensures kept { OnOk result (self.new.kept ≡ self.old.kept ++ kept_of_module (step.now.t + 1) clauses.now) }
        ensures vars { OnOk result (self.new.vars ≡ max self.old.vars (vars_for step.now clauses.now)) }
        ensures level { OnOk result (self.new.trail.level ≡ 0) }
        ensures loops { self.new.loops ≡ self.old.loops }
        ensures begun { self.new.begun ≡ self.old.begun }
        ensures err { OnErr result (IsAsBefore self.old self.new) }
    {
        let vars = vars_for(step, clauses) as u32;
        self.lengths.reserve(clauses.len())?;
        make_room(
            &mut self.store,
            &mut self.trail,
            &mut self.scratch,
            vars,
            clauses,
        )?;
        self.ground.add(step)?;
        self.trail.back_to(0);
        add_clauses(
            &mut self.store,
            &mut self.trail,
            &mut self.lengths,
            clauses,
            step.t + 1,
        );
        Ok(())
    }

    /// Begins a length: goes back to level 0, with no clause counted.
    pub fn begin(&mut self, space: AtomSpace, n: u32)
        requires some { 0 < n }
        requires within { n ≤ space.greatest }
        requires visible { (var : ℕ) → In var (visible_below space.counts n) → var < self.old.vars }
        requires ending { end_at space.counts (n - 1) < self.old.vars }
        ensures ground { self.new.ground ≡ self.old.ground }
        ensures kept { self.new.kept ≡ self.old.kept }
        ensures vars { self.new.vars ≡ self.old.vars }
        ensures level { self.new.trail.level ≡ 0 }
        ensures loops { self.new.loops ≡ self.old.loops }
        ensures begun { self.new.begun ≡ Some (begun_at space n) }
    {
        self.trail.back_to(0);
        self.begun = Some(Begun {
            space,
            n,
            counted: 0,
        });
    }

    /// Goes on to the next answer: along the walk of the length over the clauses that are held, from its end on. Where a further
    /// clause is needed one is added, if the budget of the length allows it: a learnt clause where the walk is stuck, a loop clause
    /// where its set isn't stable. A search that answers want of memory isn't used again.
    pub fn next(&mut self, budget: Option<u64>) -> Result<Step, Memory>
        requires begun { IsTrue (is_some self.old.begun) }
        ensures ground { self.new.ground ≡ self.old.ground }
        ensures vars { self.new.vars ≡ self.old.vars }
        ensures step { IfOk result (λ step. AtLength self.old.begun (λ begun. Steps self.old self.new begun budget step)) }
    {
        let begun = match self.begun {
            Some(begun) => begun,
            None => unreachable!(),
        };
        let advanced = advance(&mut self.store, &mut self.trail, begun);
        let _count = self.trail.len();
        match advanced {
            Advanced::Closed => Ok(Step::Closed),
            Advanced::Stuck(conflict) => {
                if is_used_up(budget, begun.counted) {
                    return Ok(Step::Spent);
                }
                let id = self.learn(begun, conflict)?;
                Ok(Step::Added(id))
            }
            Advanced::Total => match self.founded.find(&self.ground, &self.trail)? {
                None => Ok(Step::Found),
                Some(nogood) => {
                    if is_used_up(budget, begun.counted) {
                        return Ok(Step::Spent);
                    }
                    let id = self.add_loop(begun, nogood)?;
                    Ok(Step::Added(id))
                }
            },
        }
    }

    /// Learns from a false clause.
    fn learn(&mut self, begun: Begun, conflict: ClauseId) -> Result<ClauseId, Memory>
        requires begun { self.old.begun ≡ Some begun }
        requires conflict { IsFalseClause (clauses_of self.old) self.old.trail.entries conflict }
        requires level { 1 < self.old.trail.level }
        ensures ground { self.new.ground ≡ self.old.ground }
        ensures vars { self.new.vars ≡ self.old.vars }
        ensures added { IfOk result (λ id. IsFalseOne self.old self.new begun id) }
    {
        self.lengths.reserve(1)?;
        let id = hold_learnt(
            &mut self.store,
            &mut self.trail,
            &mut self.scratch,
            conflict,
        )?;
        push_length(&mut self.lengths, begun.n);
        self.begun = Some(begun.counted_one());
        Ok(id)
    }

    /// Adds the loop clause of an unfounded set.
    fn add_loop(&mut self, begun: Begun, nogood: LoopNogood) -> Result<ClauseId, Memory>
        requires begun { self.old.begun ≡ Some begun }
        requires level { 0 < self.old.trail.level }
        requires closed { IsClosedTrail (clauses_of self.old) self.old.trail.entries }
        requires nogood { IsFalseLoop self.old.ground self.old.trail.entries nogood }
        ensures ground { self.new.ground ≡ self.old.ground }
        ensures vars { self.new.vars ≡ self.old.vars }
        ensures added { IfOk result (λ id. IsFalseOne self.old self.new begun id) }
    {
        let _count = self.trail.len();
        self.lengths.reserve(1)?;
        self.loops.reserve(1)?;
        let id = hold_false(
            &mut self.store,
            &mut self.trail,
            ClauseKind::Loop,
            nogood.clause.as_slice(),
        )?;
        push_length(&mut self.lengths, begun.n);
        push_loop(&mut self.loops, id, nogood);
        self.begun = Some(begun.counted_one());
        Ok(id)
    }

    /// Blocks the walk that was found: adds the negations of its decisions and of the end, and goes back to the last decision
    /// but one. On want of memory the search is as before.
    pub fn block(&mut self) -> Result<ClauseId, Memory>
        requires begun { IsTrue (is_some self.old.begun) }
        requires level { 0 < self.old.trail.level }
        ensures ground { self.new.ground ≡ self.old.ground }
        ensures vars { self.new.vars ≡ self.old.vars }
        ensures loops { self.new.loops ≡ self.old.loops }
        ensures begun { self.new.begun ≡ self.old.begun }
        ensures blocked { IfOk result (λ id. AtLength self.old.begun (λ begun. IsBlocked self.old self.new begun id)) }
        ensures err { OnErr result (self.new ≡ self.old) }
    {
        let begun = match self.begun {
            Some(begun) => begun,
            None => unreachable!(),
        };
        let _count = self.trail.len();
        let end = Lit::of(end_var(&begun.space, begun.n - 1));
        let clause = block(self.alloc, &self.trail, end)?;
        self.lengths.reserve(1)?;
        let id = hold_false(
            &mut self.store,
            &mut self.trail,
            ClauseKind::Block,
            clause.as_slice(),
        )?;
        push_length(&mut self.lengths, begun.n);
        Ok(id)
    }

    /// The unfounded set of a loop clause, and the atom of it that the clause is for.
    ///
    /// It takes time linear in the loop clauses that came after it.
    pub fn loop_set(&self, id: ClauseId) -> Option<&LoopSet>
        ensures { option_copied result ≡ loop_set self.now.loops id.place }
    {
        last_with(self.loops.as_slice(), id.place)
    }
}
