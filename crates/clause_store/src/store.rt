//! Clauses in one flat vector of literals.

ghost use Rattle.std.specs.Prelude.{◌≡◌, ℕ, ◌+◌, ◌<◌, ◌≤◌, [], ◌∷◌, ◌++◌, length, max, slice_index_or, take, drop, vec_capacity, IfOk, OnOk, OnErr, IsTrue};
ghost use Rattle.tel_base.specs.declared.literals.Lit.{Lit};
ghost use Rattle.clause_store.specs.Held.{held_at, is_clause};

use std::alloc::Global;
use std::marker::Model;
use tel_base::{Lit, Memory};

/// The number of a held clause, from 0, in the order of adding.
#[derive(Clone, Copy, Debug, PartialEq, Eq)]
pub struct ClauseId {
    pub place: usize,
}

/// Where a clause comes from.
#[derive(Clone, Copy, Debug, PartialEq, Eq)]
pub enum ClauseKind {
    /// The clauses of a module.
    Module,
    /// A loop clause of an unfounded set.
    Loop,
    /// A clause that was learnt from a conflict.
    Learnt,
    /// A clause that blocks a trace that was found.
    Block,
}

/// Where the literals of a clause stand.
#[derive(Clone, Copy, Debug)]
struct Head {
    kind: ClauseKind,
    start: usize,
    count: usize,
}

/// Clauses in the order of adding, each with its kind. Its literals have different variables, which are
/// below a number that is reserved beforehand.
///
/// Contracts see the list of the clauses with their kinds, the reserved number of variables, and for how
/// many further clauses, and literals in all, there is room.
#[derive(Drop)]
pub struct Store {
    lits: Vec<Lit>,
    heads: Vec<Head>,
    vars: u32,
}

impl Model for Store {
    ghost use Rattle.clause_store.specs.Flat.{view_of, IsFlat};
    ghost use Rattle.clause_store.specs.Held.{View};
    ghost use Rattle.std.specs.Prelude.{vec_capacity};

    ghost Value = { View };

    ghost view = { λ store. view_of store.lits.items store.heads.items store.vars (vec_capacity store.lits) (vec_capacity store.heads) };

    ghost invariant = { λ store. IsFlat store.vars store.lits.items store.heads.items };
}

impl Store {
    /// A store without clauses and variables. It takes no memory yet.
    pub fn new(alloc: Global) -> Store
        ensures clauses { result.clauses ≡ [] }
        ensures vars { result.vars ≡ 0 }
    {
        Store {
            lits: Vec::new(alloc),
            heads: Vec::new(alloc),
            vars: 0,
        }
    }

    /// How many clauses it holds.
    pub fn len(&self) -> usize
        ensures { result ≡ length self.now.clauses }
    {
        self.heads.len()
    }

    /// The literals of a clause.
    pub fn clause(&self, id: ClauseId) -> &[Lit]
        requires { id.place < length self.now.clauses }
        ensures lits { result.now ≡ (held_at self.now.clauses id.place).lits }
        ensures clause { IsTrue (is_clause self.now.vars result.now) }
    {
        let head = self.heads[id.place];
        part(&self.lits, head.start, head.count)
    }

    /// Where a clause comes from.
    pub fn kind(&self, id: ClauseId) -> ClauseKind
        requires { id.place < length self.now.clauses }
        ensures { result ≡ (held_at self.now.clauses id.place).kind }
    {
        self.heads[id.place].kind
    }

    /// Allows the variables below this number.
    pub fn reserve_vars(&mut self, vars: u32) -> Result<(), Memory>
        ensures vars { OnOk result (self.new.vars ≡ max self.old.vars vars) }
        ensures clauses { self.new.clauses ≡ self.old.clauses }
        ensures room { (self.old.clause_room ≤ self.new.clause_room) × (self.old.lit_room ≤ self.new.lit_room) }
        ensures err { OnErr result (self.new.vars ≡ self.old.vars) }
    {
        self.vars = self.vars.max(vars);
        Ok(())
    }

    /// Makes room for so many further clauses with so many literals in all.
    pub fn reserve(&mut self, clauses: usize, lits: usize) -> Result<(), Memory>
        ensures room { OnOk result ((clauses ≤ self.new.clause_room) × (lits ≤ self.new.lit_room)) }
        ensures clauses { self.new.clauses ≡ self.old.clauses }
        ensures vars { self.new.vars ≡ self.old.vars }
    {
        self.heads.reserve(clauses)?;
        self.lits.reserve(lits)?;
        Ok(())
    }

    /// Adds a clause at the end, out of the room that was made.
    pub fn add_reserved(&mut self, kind: ClauseKind, lits: &[Lit]) -> ClauseId
        requires clause { IsTrue (is_clause self.old.vars lits.now) }
        requires clause_room { 1 ≤ self.old.clause_room }
        requires lit_room { length lits.now ≤ self.old.lit_room }
        ensures id { result.place ≡ length self.old.clauses }
        ensures added { self.new.clauses ≡ self.old.clauses ++ record { kind = kind; lits = lits.now } ∷ [] }
        ensures vars { self.new.vars ≡ self.old.vars }
        ensures clause_room { self.old.clause_room ≤ self.new.clause_room + 1 }
        ensures lit_room { self.old.lit_room ≤ self.new.lit_room + length lits.now }
    {
        let place = self.heads.len();
        let start = self.lits.len();
        put_all(&mut self.lits, lits);
        put(
            &mut self.heads,
            Head {
                kind,
                start,
                count: lits.len(),
            },
        );
        ClauseId { place }
    }

    /// Adds a clause at the end. On want of memory the clauses and the number of variables are as before.
    pub fn add(&mut self, kind: ClauseKind, lits: &[Lit]) -> Result<ClauseId, Memory>
        requires { IsTrue (is_clause self.old.vars lits.now) }
        ensures id { IfOk result (λ id. id.place ≡ length self.old.clauses) }
        ensures added { OnOk result (self.new.clauses ≡ self.old.clauses ++ record { kind = kind; lits = lits.now } ∷ []) }
        ensures vars { self.new.vars ≡ self.old.vars }
        ensures err { OnErr result (self.new.clauses ≡ self.old.clauses) }
    {
        self.reserve(1, lits.len())?;
        Ok(self.add_reserved(kind, lits))
    }
}

/// A part of a list of literals.
fn part(lits: &[Lit], start: usize, count: usize) -> &[Lit]
    requires { start + count ≤ length lits.now }
    ensures { result.now ≡ take count (drop start lits.now) }
{
    &lits[start..start + count]
}

/// Puts an item at the end, where there is room.
fn put<T: Drop>(items: &mut Vec<T>, item: T)
    requires { length items.old.items < vec_capacity items.old }
    ensures items { items.new.items ≡ items.old.items ++ item ∷ [] }
    ensures room { vec_capacity items.old ≤ vec_capacity items.new }
{
    match items.push(item) {
        Ok(()) => {}
        Err(_) => unreachable!(),
    }
}

/// Puts all literals at the end, where there is room.
fn put_all(items: &mut Vec<Lit>, lits: &[Lit])
    requires { length items.old.items + length lits.now ≤ vec_capacity items.old }
    ensures items { items.new.items ≡ items.old.items ++ lits.now }
    ensures room { vec_capacity items.old ≤ vec_capacity items.new }
{
    for lit in lits {
        put(items, *lit);
    }
}
