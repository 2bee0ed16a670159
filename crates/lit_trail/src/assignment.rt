//! Which literals hold, in order, and what is known of each variable.

ghost use Rattle.std.specs.Prelude.{◌≡◌, ℕ, ◌+◌, ◌<◌, ◌≤◌, [], ◌∷◌, ◌++◌, map, max, replicate, reverse, Some, None, length, vec_capacity, slice_index_or, is_some, IsTrue, OnOk, OnErr};
ghost use Rattle.lit_trail.specs.Entries.{spot_in, top_level, tail};

use clause_store::ClauseId;
use std::alloc::{AllocError, Global};
use std::marker::Model;
use tel_base::Lit;

/// A literal of a trail, as contracts see it: the level at which it was assigned, and the clause that gave it.
/// A literal without a reason is the decision of its level.
#[derive(Clone, Copy, Debug)]
pub struct Entry {
    pub lit: Lit,
    pub level: u32,
    pub reason: Option<ClauseId>,
}

/// What is known of a variable that has a value.
#[derive(Clone, Copy, Debug)]
pub struct Spot {
    pub positive: bool,
    pub level: u32,
    pub reason: Option<ClauseId>,
}

/// The literals that hold, in order, with a table by variable beside them. Contracts see the entries, the last one first, and
/// the number of variables.
#[derive(Drop)]
pub struct Assignment {
    order: Vec<Lit>,
    table: Vec<Option<Spot>>,
    // each variable below this number has a value
    settled: usize,
}

impl Model for Assignment {
    ghost use Rattle.std.specs.Prelude.{length, vec_capacity, ◌≤◌};
    ghost use Rattle.lit_trail.specs.Entries.{Assigned};
    ghost use Rattle.lit_trail.specs.Table.{assigned_of, InStep, IsSettled};

    ghost Value = { Assigned };

    ghost view = { λ assignment. assigned_of assignment.table.items assignment.order.items };

    ghost invariant = { λ assignment. InStep assignment.table.items assignment.order.items × (length assignment.table.items ≤ vec_capacity assignment.order) × IsSettled assignment.table.items assignment.settled };
}

impl Assignment {
    /// No literal and no variable.
    pub fn new(alloc: Global) -> Assignment
        ensures entries { result.entries ≡ [] }
        ensures vars { result.vars ≡ 0 }
    {
        Assignment {
            order: Vec::new(alloc),
            table: Vec::new(alloc),
            settled: 0,
        }
    }

    /// Makes room for the variables below this number.
    pub fn grow(&mut self, vars: u32) -> Result<(), AllocError>
        ensures entries { self.new.entries ≡ self.old.entries }
        ensures vars { OnOk result (self.new.vars ≡ max self.old.vars vars) }
        ensures err { OnErr result (self.new.vars ≡ self.old.vars) }
    {
        let vars = vars as usize;
        let old = self.table.len();
        if vars <= old {
            return Ok(());
        }
        self.order.reserve(vars - self.order.len())?;
        self.table.reserve(vars - old)?;
        put_none(&mut self.table, vars - old);
        Ok(())
    }

    /// How many literals there are.
    pub fn len(&self) -> usize
        ensures { result ≡ length self.now.entries }
    {
        self.order.len()
    }

    /// The literal at a place, counted from the last one, with its level and reason.
    pub fn entry(&self, place: usize) -> Entry
        requires { place < length self.now.entries }
        ensures { result ≡ slice_index_or self.now.entries place result }
    {
        let lit = self.order[self.order.len() - 1 - place];
        match self.table[lit.var as usize] {
            Some(spot) => Entry {
                lit,
                level: spot.level,
                reason: spot.reason,
            },
            None => Entry {
                lit,
                level: 0,
                reason: None,
            },
        }
    }

    /// What is known of a variable; `None` where it has no value.
    pub fn spot(&self, var: u32) -> Option<Spot>
        ensures { result ≡ spot_in self.now.entries var }
    {
        match self.table.get(var as usize) {
            Some(spot) => *spot,
            None => None,
        }
    }

    /// The literals in order.
    pub fn lits(&self) -> &[Lit]
        ensures { result.now ≡ reverse (map (λ entry. entry.lit) self.now.entries) }
    {
        &self.order
    }

    /// Says that a variable without a value leaves room for its literal. It does nothing.
    pub fn leaves_room(&self, var: u32)
        requires free { spot_in self.now.entries var ≡ None }
        requires within { var < self.now.vars }
        ensures { length self.now.entries < self.now.vars }
    {
        let _count = self.order.len();
    }

    /// A number below which each variable has a value.
    pub fn settled(&self) -> usize
        ensures { (var : ℕ) → var < result → IsTrue (is_some (spot_in self.now.entries var)) }
    {
        self.settled
    }

    /// Looks for the first variable from `settled` on that has no value.
    fn settle(&mut self)
        ensures { self.new ≡ self.old }
    {
        let settled = first_none(&self.table, self.settled);
        self.settled = settled;
    }

    /// Puts a literal with its level and reason at the end.
    pub fn put(&mut self, lit: Lit, level: u32, reason: Option<ClauseId>)
        requires free { spot_in self.old.entries lit.var ≡ None }
        requires within { lit.var < self.old.vars }
        ensures entries { self.new.entries ≡ record { lit = lit; level = level; reason = reason } ∷ self.old.entries }
        ensures vars { self.new.vars ≡ self.old.vars }
        ensures room { length self.new.entries ≤ self.new.vars }
    {
        self.append(lit, level, reason);
        self.settle();
    }

    /// The same, with `settled` as it was.
    fn append(&mut self, lit: Lit, level: u32, reason: Option<ClauseId>)
        requires free { spot_in self.old.entries lit.var ≡ None }
        requires within { lit.var < self.old.vars }
        ensures entries { self.new.entries ≡ record { lit = lit; level = level; reason = reason } ∷ self.old.entries }
        ensures vars { self.new.vars ≡ self.old.vars }
        ensures room { length self.new.entries ≤ self.new.vars }
    {
        self.table[lit.var as usize] = Some(Spot {
            positive: lit.positive,
            level,
            reason,
        });
        match self.order.push(lit) {
            Ok(()) => {}
            Err(_) => unreachable!(),
        }
    }

    /// The level of the last literal; 0 where there is none.
    pub fn top(&self) -> u32
        ensures { result ≡ top_level self.now.entries }
    {
        let count = self.order.len();
        if count == 0 {
            return 0;
        }
        let lit = self.order[count - 1];
        match self.table[lit.var as usize] {
            Some(spot) => spot.level,
            None => 0,
        }
    }

    /// Takes the last literal away.
    pub fn pop(&mut self)
        ensures entries { self.new.entries ≡ tail self.old.entries }
        ensures vars { self.new.vars ≡ self.old.vars }
    {
        if let Some(lit) = self.order.pop() {
            self.table[lit.var as usize] = None;
            let settled = self.settled.min(lit.var as usize);
            self.settled = settled;
        }
    }
}

/// Puts so many variables without a value at the end, where there is room.
fn put_none(table: &mut Vec<Option<Spot>>, count: usize)
    requires { length table.old.items + count ≤ vec_capacity table.old }
    ensures { table.new.items ≡ table.old.items ++ replicate count None }
{
    for _ in 0..count {
        match table.push(None) {
            Ok(()) => {}
            Err(_) => unreachable!(),
        }
    }
}

/// The first place from this one on at which there is nothing, or the length.
fn first_none(table: &[Option<Spot>], from: usize) -> usize
    ensures { (var : ℕ) → var < result → from ≤ var → IsTrue (is_some (slice_index_or table.now var None)) }
{
    for at in from..table.len() {
        if table[at].is_none() {
            return at;
        }
    }
    table.len()
}
