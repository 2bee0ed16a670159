//! The clauses of a module.

ghost use Rattle.std.specs.Prelude.{◌≡◌, ℕ, ◌+◌, ◌<◌, ◌≤◌, ◌^◌, max, [], ◌∷◌, ◌++◌, map, length, vec_capacity, IsTrue, IfOk, OnOk};
ghost use Rattle.std.specs.List.{list_all};
ghost use Rattle.clause_store.specs.Held.{is_clause};
ghost use Rattle.horizon_external.specs.Occurring.{lit_vars};
ghost use Rattle.trail_walk.specs.Ways.{IsReady};
ghost use Rattle.cdcl_search.specs.Searches.{greatest, greatest_in, vars_for, literal_count, held_of_module, lengths_of_module};

use crate::loops::push_length;
use back_jump::hold;
use clause_learn::Scratch;
use clause_store::{ClauseKind, Store};
use lit_trail::Trail;
use normal_program::StepModule;
use tel_base::{Clause, Lit, Memory};

/// The greatest of the variables.
fn greatest(vars: &[u32]) -> u32
    ensures { result ≡ greatest vars.now }
{
    let mut most = 0;
    for var in vars {
        most = (*var).max(most);
    }
    most
}

/// The greatest variable of the clauses.
fn greatest_in(clauses: &[Clause]) -> u32
    ensures { result ≡ greatest_in clauses.now }
{
    let mut most = 0;
    for clause in clauses {
        most = greatest_of(clause.as_slice()).max(most);
    }
    most
}

/// The greatest variable of the literals.
fn greatest_of(lits: &[Lit]) -> u32
    ensures { result ≡ greatest (lit_vars lits.now) }
{
    let mut most = 0;
    for lit in lits {
        most = lit.var.max(most);
    }
    most
}

/// How many variables a search needs for a module and its clauses: one more than the greatest that is an atom of the module or
/// its end, or stands in a clause. It is at most 2^32.
pub fn vars_for(step: &StepModule, clauses: &[Clause]) -> u64
    ensures { result ≡ vars_for step.now clauses.now }
{
    let most = greatest(step.atoms.as_slice()).max(greatest_in(clauses));
    u64::from(step.end.max(most)) + 1
}

/// The sum of two counts. One that is no number of the machine is want of memory.
fn sum(first: usize, second: usize) -> Result<usize, Memory>
    ensures { IfOk result (λ sum. sum ≡ first + second) }
{
    match first.checked_add(second) {
        Some(sum) => Ok(sum),
        None => Err(Memory),
    }
}

/// How many literals the clauses have.
fn literals(clauses: &[Clause]) -> Result<usize, Memory>
    ensures { IfOk result (λ count. count ≡ literal_count clauses.now) }
{
    let mut count = 0;
    for clause in clauses {
        count = sum(count, clause.len())?;
    }
    Ok(count)
}

/// Makes room for so many variables, and for further clauses. On want of memory only the room may have grown.
pub(crate) fn make_room(
    store: &mut Store,
    trail: &mut Trail,
    scratch: &mut Scratch,
    vars: u32,
    clauses: &[Clause],
) -> Result<(), Memory>
    requires ready { IsReady store.old trail.old }
    requires room { trail.old.vars ≤ scratch.old.vars }
    requires small { vars + 1 < 2 ^ 32 }
    ensures ready { IsReady store.new trail.new }
    ensures held { store.new.clauses ≡ store.old.clauses }
    ensures entries { trail.new.entries ≡ trail.old.entries }
    ensures level { trail.new.level ≡ trail.old.level }
    ensures wider { trail.old.vars ≤ trail.new.vars }
    ensures room { trail.new.vars ≤ scratch.new.vars }
    ensures vars { OnOk result (trail.new.vars ≡ max trail.old.vars vars) }
    ensures clause_room { OnOk result (length clauses.now ≤ store.new.clause_room) }
    ensures lit_room { OnOk result (literal_count clauses.now ≤ store.new.lit_room) }
{
    let count = literals(clauses)?;
    scratch.grow(vars)?;
    store.reserve_vars(vars)?;
    trail.grow(vars)?;
    store.reserve(clauses.len(), count)?;
    Ok(())
}

/// Adds clauses of a module at level 0, with the length at which they came, out of the room that was made.
pub(crate) fn add_clauses(
    store: &mut Store,
    trail: &mut Trail,
    lengths: &mut Vec<u32>,
    clauses: &[Clause],
    n: u32,
)
    requires ready { IsReady store.old trail.old }
    requires level { trail.old.level ≡ 0 }
    requires clauses { IsTrue (list_all (is_clause trail.old.vars) clauses.now) }
    requires clause_room { length clauses.now ≤ store.old.clause_room }
    requires lit_room { literal_count clauses.now ≤ store.old.lit_room }
    requires lengths_room { length lengths.old.items + length clauses.now ≤ vec_capacity lengths.old }
    ensures ready { IsReady store.new trail.new }
    ensures level { trail.new.level ≡ 0 }
    ensures entries { trail.new.entries ≡ trail.old.entries }
    ensures vars { trail.new.vars ≡ trail.old.vars }
    ensures held { store.new.clauses ≡ store.old.clauses ++ held_of_module clauses.now }
    ensures lengths { lengths.new.items ≡ lengths.old.items ++ lengths_of_module n clauses.now }
{
    let _count = trail.len();
    for clause in clauses {
        hold(store, trail, ClauseKind::Module, clause.as_slice(), 0);
        push_length(lengths, n);
    }
}
