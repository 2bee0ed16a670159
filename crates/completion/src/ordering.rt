//! Clauses in order: each literal once, by rising variable.
ghost use Rattle.std.specs.Prelude.{◌≡◌, ◌++◌, ◌∷◌, ◌+◌, ◌<◌, true, false, OnOk, IfOk, drop, length, slice_index_or};
ghost use Rattle.tel_base.specs.declared.literals.Lit.{Lit};
ghost use Rattle.std.specs.List.{flat_map};
ghost use Rattle.std.specs.List.Sorted.{IsNonDecreasingBy};
ghost use Rattle.normal_program.specs.ModuleClauses.{rank, in_order, has_both, listed};

use std::alloc::Global;
use tel_base::{Clause, Lit, Memory};

/// The place of a literal among all.
fn rank(lit: &Lit) -> u64
    ensures { result ≡ rank lit.now }
{
    let twice = lit.var as u64 + lit.var as u64;
    if lit.positive { twice + 1 } else { twice }
}

/// Whether another literal than this one stands behind it, of literals whose places don't fall.
fn is_last(sorted: &[Lit], place: usize) -> bool
    requires order { IsNonDecreasingBy rank sorted.now }
    requires within { place < length sorted.now }
    ensures last { result ≡ true → (d : Lit) → in_order (drop place sorted.now) ≡ slice_index_or sorted.now place d ∷ in_order (drop (place + 1) sorted.now) }
    ensures again { result ≡ false → in_order (drop place sorted.now) ≡ in_order (drop (place + 1) sorted.now) }
{
    if place + 1 == sorted.len() {
        return true;
    }
    rank(&sorted[place]) != rank(&sorted[place + 1])
}

/// Whether no literal stands twice, of literals whose places don't fall.
fn are_apart(sorted: &[Lit]) -> bool
    requires { IsNonDecreasingBy rank sorted.now }
    ensures { result ≡ true → in_order sorted.now ≡ sorted.now }
{
    let mut place: usize = 0;
    'reading: while place < sorted.len() {
        if !is_last(sorted, place) {
            return false;
        }
        place += 1;
    }
    true
}

/// Each literal once, of literals whose places don't fall.
fn once(alloc: Global, sorted: &[Lit]) -> Result<Vec<Lit>, Memory>
    requires { IsNonDecreasingBy rank sorted.now }
    ensures { IfOk result (λ lits. lits.items ≡ in_order sorted.now) }
{
    let mut lits = Vec::new(alloc);
    let mut place: usize = 0;
    'reading: while place < sorted.len() {
        if is_last(sorted, place) {
            lits.push(sorted[place])?;
        }
        place += 1;
    }
    Ok(lits)
}

/// Whether a literal stands right behind its negation.
fn has_both(rising: &[Lit]) -> bool
    ensures { result ≡ has_both rising.now }
{
    let mut place: usize = 0;
    'reading: while place + 1 < rising.len() {
        if rising[place].var == rising[place + 1].var {
            return true;
        }
        place += 1;
    }
    false
}

/// These literals, each once and by rising variable.
fn in_order(alloc: Global, mut lits: Vec<Lit>) -> Result<Vec<Lit>, Memory>
    ensures { IfOk result (λ order. order.items ≡ in_order lits.items) }
{
    lits.sort_unstable_by_key(rank);
    if are_apart(lits.as_slice()) {
        return Ok(lits);
    }
    once(alloc, lits.as_slice())
}

/// Adds the clause of these literals. One that holds a literal and its negation is left out.
fn list(alloc: Global, clauses: &mut Vec<Clause>, lits: Vec<Lit>) -> Result<(), Memory>
    ensures { OnOk result (clauses.new.items ≡ clauses.old.items ++ listed lits.items) }
{
    let lits = in_order(alloc, lits)?;
    if !has_both(lits.as_slice()) {
        clauses.push(Clause { lits })?;
    }
    Ok(())
}

/// The clauses as they are listed.
pub fn list_all(alloc: Global, stated: Vec<Clause>) -> Result<Vec<Clause>, Memory>
    ensures { IfOk result (λ clauses. clauses.items ≡ flat_map listed stated.items) }
{
    let mut clauses = Vec::new(alloc);
    for clause in stated {
        list(alloc, &mut clauses, clause.lits)?;
    }
    Ok(clauses)
}
