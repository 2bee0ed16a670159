//! Learning from a conflict.

ghost use Rattle.std.specs.Prelude.{◌≡◌, ℕ, ◌+◌, ◌<◌, ◌≤◌, ◌++◌, IsTrue, OnOk, OnErr, false, length, max, replicate, vec_capacity};
ghost use Rattle.std.specs.Borrow.{sem};
ghost use Rattle.clause_store.specs.Held.{clauses_in, clause_at};
ghost use Rattle.clause_store.specs.Closure.{refutes};
ghost use Rattle.lit_trail.specs.Entries.{level_in, back};
ghost use Rattle.lit_trail.specs.Sound.{holds, ReasonsHold};
ghost use Rattle.clause_learn.specs.FirstUip.{set_of, has_more};
ghost use Rattle.clause_learn.specs.LearntClause.{level_or, highest, others_of, IsLearnt, IsAsserting};
ghost use Rattle.clause_learn.specs.Room.{IsScratch};
ghost use Rattle.clause_learn.specs.Lending.{StaysGrown};

use crate::notes::{Notes, unmark};
use clause_store::{ClauseId, Store};
use lit_trail::Trail;
use smallvec::SmallVec;
use std::alloc::Global;
use std::marker::Model;
use tel_base::{Lit, Memory};

/// Room for learning.
///
/// Contracts see how many variables it has grown to.
#[derive(Drop)]
pub struct Scratch {
    notes: Notes,
}

impl Model for Scratch {
    ghost use Rattle.clause_learn.specs.Room.{Room, IsScratch};
    ghost use Rattle.std.specs.Prelude.{length};

    ghost Value = { Room };

    ghost view = { λ scratch. record { vars = length scratch.notes.marks.items } };

    ghost invariant = { λ scratch. IsScratch scratch.notes.marks.items scratch.notes.lits.capacity };
}

impl Scratch {
    /// Room for no variable. It takes no memory yet.
    pub fn new(alloc: Global) -> Scratch
        ensures { result.vars ≡ 0 }
    {
        Scratch {
            notes: Notes {
                marks: Vec::new(alloc),
                lits: SmallVec::new(alloc),
                left: 0,
            },
        }
    }

    /// Makes room for the variables below this number. On want of memory the room is as before.
    pub fn grow(&mut self, vars: u32) -> Result<(), Memory>
        ensures vars { OnOk result (self.new.vars ≡ max self.old.vars vars) }
        ensures err { OnErr result (self.new.vars ≡ self.old.vars) }
    {
        let vars = vars as usize;
        let old = self.notes.marks.len();
        if vars <= old {
            return Ok(());
        }
        self.notes.lits.clear();
        self.notes.lits.reserve(vars)?;
        self.notes.marks.reserve(vars - old)?;
        put_clear(&mut self.notes.marks, vars - old);
        Ok(())
    }
}

/// Puts so many marks that are not set at the end, where there is room.
fn put_clear(marks: &mut Vec<bool>, count: usize)
    requires { length marks.old.items + count ≤ vec_capacity marks.old }
    ensures { marks.new.items ≡ marks.old.items ++ replicate count false }
{
    for _ in 0..count {
        match marks.push(false) {
            Ok(()) => {}
            Err(_) => unreachable!(),
        }
    }
}

/// A learnt clause.
#[derive(Clone, Copy)]
pub struct Learnt<'a> {
    /// Its literals, the one of the trail's level first.
    pub lits: &'a [Lit],
    /// The highest level of the others; 0 where there are none.
    pub level: u32,
}

/// The level of a variable; 0 where it has no value.
fn level_of(trail: &Trail, var: u32) -> u32
    ensures { result ≡ level_or (level_in trail.now.entries var) }
{
    match trail.level_of(var) {
        Some(level) => level,
        None => 0,
    }
}

/// The highest level of literals; 0 where there are none.
fn highest_level(trail: &Trail, lits: &[Lit]) -> u32
    ensures { result ≡ highest trail.now.entries lits.now }
{
    let mut highest = 0;
    for lit in lits {
        highest = level_of(trail, lit.var).max(highest);
    }
    highest
}

/// Notes the first-UIP clause of a false clause, its literal of the trail's level first, and answers the highest level of the
/// others.
fn resolve_conflict(notes: &mut Notes, store: &Store, trail: &Trail, id: ClauseId) -> u32
    requires id { id.place < length store.now.clauses }
    requires reasons { ReasonsHold (clauses_in store.now.clauses) trail.now.entries }
    requires refuted { IsTrue (refutes (holds trail.now.entries) (clause_at (clauses_in store.now.clauses) id.place)) }
    requires level { 0 < trail.now.level }
    requires left { IsTrue (has_more trail.now.level trail.now.entries (set_of (clause_at (clauses_in store.now.clauses) id.place))) }
    requires grown { trail.now.vars ≤ length notes.old.marks.items }
    requires scratch { IsScratch notes.old.marks.items notes.old.lits.capacity }
    ensures size { length notes.new.marks.items ≡ length notes.old.marks.items }
    ensures scratch { IsScratch notes.new.marks.items notes.new.lits.capacity }
    ensures learnt { IsLearnt (clauses_in store.now.clauses) trail.now (clause_at (clauses_in store.now.clauses) id.place) notes.new.lits.items }
    ensures level { result ≡ highest trail.now.entries (others_of notes.new.lits.items) }
    ensures lower { result < trail.now.level }
    ensures asserting { IsAsserting (back result trail.now.entries) notes.new.lits.items }
{
    notes.lits.clear();
    notes.left = 0;
    let places = trail.len();
    notes.add(store.clause(id), trail);
    let first = notes.resolve(store, trail, places);
    let level = highest_level(trail, &notes.lits);
    match notes.lits.insert(0, first) {
        Ok(()) => {}
        Err(_) => unreachable!(),
    }
    unmark(&mut notes.marks, &notes.lits);
    level
}

/// The first-UIP clause of a false clause that has a literal of the trail's level, and the level to go back to.
///
/// The clause is resolved with the reason of its literal of the trail's level that was assigned last, until one literal of that
/// level is left. It takes time linear in the literals of the clauses that are resolved and in the literals of the trail's level.
pub fn learn<'a>(scratch: &'a mut Scratch, store: &Store, trail: &Trail, id: ClauseId) -> Learnt<'a>
    requires id { id.place < length store.now.clauses }
    requires reasons { ReasonsHold (clauses_in store.now.clauses) trail.now.entries }
    requires refuted { IsTrue (refutes (holds trail.now.entries) (clause_at (clauses_in store.now.clauses) id.place)) }
    requires level { 0 < trail.now.level }
    requires left { IsTrue (has_more trail.now.level trail.now.entries (set_of (clause_at (clauses_in store.now.clauses) id.place))) }
    requires grown { trail.now.vars ≤ scratch.old.vars }
    ensures* stays { sem 𝓛 (StaysGrown scratch.entry) }
    ensures learnt { IsLearnt (clauses_in store.now.clauses) trail.now (clause_at (clauses_in store.now.clauses) id.place) result.lits.now }
    ensures level { result.level ≡ highest trail.now.entries (others_of result.lits.now) }
    ensures lower { result.level < trail.now.level }
    ensures asserting { IsAsserting (back result.level trail.now.entries) result.lits.now }
{
    let level = resolve_conflict(&mut scratch.notes, store, trail, id);
    let lits = scratch.notes.clause();
    Learnt { lits, level }
}
