//! The clauses of atoms: that a true atom is the head of a rule with a true body.
ghost use Rattle.std.specs.Prelude.{◌≡◌, ◌++◌, ◌∷◌, ◌+◌, ◌-◌, ◌<◌, [], ℕ, OnOk, IfOk, IsTrue, map, nat_lt, nat_le, slice_index_or, vec_len};
ghost use Rattle.std.specs.List.{list_all};
ghost use Rattle.tel_base.specs.Literals.{lit_of};
ghost use Rattle.normal_program.specs.ModuleClauses.{body_with, bodies_with, no_lit, support_clause};

use normal_program::{NRule, StepModule};
use sqlite_items::Items;
use std::alloc::Global;
use tel_base::{Clause, Lit, Memory};

/// The least of these atoms.
fn least(atoms: &[u32]) -> u32
    ensures { IsTrue (list_all (λ atom. nat_le result atom) atoms.now) }
{
    let mut low = u32::MAX;
    for atom in atoms {
        low = low.min(*atom);
    }
    low
}

/// A number above how far these atoms are from the least one.
fn span(atoms: &[u32], low: u32) -> usize
    ensures { IsTrue (list_all (λ atom. nat_lt (atom - low) result) atoms.now) }
{
    let mut width: usize = 0;
    for atom in atoms {
        width = width.max(atom.saturating_sub(low) as usize + 1);
    }
    width
}

/// So many empty rows.
fn empty_rows(alloc: Global, width: usize) -> Result<Vec<Items<u32>>, Memory>
    ensures len { IfOk result (λ rows. vec_len rows ≡ width) }
    ensures rows { IfOk result (λ rows. (k : ℕ) → slice_index_or rows.items k [] ≡ []) }
{
    let mut rows = Vec::new(alloc);
    for _ in 0..width {
        rows.push(Items::new(alloc))?;
    }
    Ok(rows)
}

/// Adds a body to the row of its head, where the rows are of variables from `low` on.
fn add_row(
    rows: &mut Vec<Items<u32>>,
    low: u32,
    head: Option<u32>,
    body: Option<u32>,
) -> Result<(), Memory>
    ensures len { vec_len rows.new ≡ vec_len rows.old }
    ensures rows { OnOk result ((k : ℕ) → k < vec_len rows.old →
        slice_index_or rows.new.items k [] ≡ slice_index_or rows.old.items k [] ++ body_with (low + k) head body) }
{
    if let Some(head) = head {
        if let Some(body) = body {
            if head >= low && ((head - low) as usize) < rows.len() {
                rows[(head - low) as usize].push(body)?;
            }
        }
    }
    Ok(())
}

/// For each of `width` variables from `low` on the bodies of the rules with this head, by one pass over the rules.
fn rows_of(
    alloc: Global,
    low: u32,
    width: usize,
    rules: &[NRule],
) -> Result<Vec<Items<u32>>, Memory>
    ensures len { IfOk result (λ rows. vec_len rows ≡ width) }
    ensures rows { IfOk result (λ rows. (k : ℕ) → k < width → slice_index_or rows.items k [] ≡ bodies_with rules.now (low + k)) }
{
    let mut rows = empty_rows(alloc, width)?;
    for rule in rules {
        add_row(&mut rows, low, rule.head, rule.body)?;
    }
    Ok(rows)
}

/// Adds that an atom has one of these bodies.
fn add_support(
    alloc: Global,
    clauses: &mut Vec<Clause>,
    atom: u32,
    bodies: &[u32],
) -> Result<(), Memory>
    ensures { OnOk result (clauses.new.items ≡ clauses.old.items ++ (no_lit atom ∷ map lit_of bodies.now) ∷ []) }
{
    let mut lits = Vec::new(alloc);
    lits.push(Lit::of(atom).negated())?;
    for body in bodies {
        lits.push(Lit::of(*body))?;
    }
    clauses.push(Clause { lits })?;
    Ok(())
}

/// Adds the clauses of these atoms by their rows.
fn add_by_rows(
    alloc: Global,
    clauses: &mut Vec<Clause>,
    low: u32,
    rows: &[Items<u32>],
    atoms: &[u32],
) -> Result<(), Memory>
    ensures { OnOk result (clauses.new.items ≡ clauses.old.items ++ map (λ (atom : ℕ). no_lit atom ∷ map lit_of (slice_index_or rows.now (atom - low) [])) atoms.now) }
{
    for atom in atoms {
        let row = match rows.get(atom.saturating_sub(low) as usize) {
            Some(row) => row.as_slice(),
            None => &[],
        };
        add_support(alloc, clauses, *atom, row)?;
    }
    Ok(())
}

/// Adds the clauses of the atoms of a module.
pub fn add_supports(
    alloc: Global,
    clauses: &mut Vec<Clause>,
    step: &StepModule,
) -> Result<(), Memory>
    ensures { OnOk result (clauses.new.items ≡ clauses.old.items ++ map (support_clause step.now.rules) step.now.atoms) }
{
    let atoms = step.atoms.as_slice();
    let low = least(atoms);
    let width = span(atoms, low);
    let rows = rows_of(alloc, low, width, step.rules.as_slice())?;
    add_by_rows(alloc, clauses, low, rows.as_slice(), atoms)
}
