//! Lists of clauses: as they are stated, and in order.
ghost use Rattle.std.specs.Prelude.{◌≡◌, ◌++◌, ◌∷◌, [], OnOk, map};
ghost use Rattle.tel_base.specs.declared.literals.Lit.{Lit};
ghost use Rattle.tel_base.specs.Literals.{negate, negations};

use std::alloc::Global;
use tel_base::{Clause, Lit, Memory};

/// Adds the clause of these literals.
pub fn push(alloc: Global, clauses: &mut Vec<Clause>, lits: &[Lit]) -> Result<(), Memory>
    ensures { OnOk result (clauses.new.items ≡ clauses.old.items ++ lits.now ∷ []) }
{
    let lits = Vec::from_slice(alloc, lits)?;
    clauses.push(Clause { lits })?;
    Ok(())
}

/// Adds a clause for each of these literals, with another one in front.
pub fn push_each(
    alloc: Global,
    clauses: &mut Vec<Clause>,
    first: Lit,
    lits: &[Lit],
) -> Result<(), Memory>
    ensures { OnOk result (clauses.new.items ≡ clauses.old.items ++ map (λ (lit : Lit). first ∷ lit ∷ []) lits.now) }
{
    for lit in lits {
        push(alloc, clauses, &[first, *lit])?;
    }
    Ok(())
}

/// Adds a clause for the negation of each of these literals, with another literal in front.
pub fn push_each_not(
    alloc: Global,
    clauses: &mut Vec<Clause>,
    first: Lit,
    lits: &[Lit],
) -> Result<(), Memory>
    ensures { OnOk result (clauses.new.items ≡ clauses.old.items ++ map (λ (lit : Lit). first ∷ negate lit ∷ []) lits.now) }
{
    for lit in lits {
        push(alloc, clauses, &[first, lit.negated()])?;
    }
    Ok(())
}

/// The same with two literals in front.
pub fn push_each_not_behind(
    alloc: Global,
    clauses: &mut Vec<Clause>,
    first: Lit,
    second: Lit,
    lits: &[Lit],
) -> Result<(), Memory>
    ensures { OnOk result (clauses.new.items ≡ clauses.old.items ++ map (λ (lit : Lit). first ∷ second ∷ negate lit ∷ []) lits.now) }
{
    for lit in lits {
        push(alloc, clauses, &[first, second, lit.negated()])?;
    }
    Ok(())
}

/// Adds the clause of all these literals, with another one in front.
pub fn push_all(
    alloc: Global,
    clauses: &mut Vec<Clause>,
    first: Lit,
    lits: &[Lit],
) -> Result<(), Memory>
    ensures { OnOk result (clauses.new.items ≡ clauses.old.items ++ (first ∷ lits.now) ∷ []) }
{
    let mut all = Vec::new(alloc);
    all.push(first)?;
    all.extend_from_slice(lits)?;
    clauses.push(Clause { lits: all })?;
    Ok(())
}

/// Adds the clause of the negations of all these literals, with another literal in front.
pub fn push_all_not(
    alloc: Global,
    clauses: &mut Vec<Clause>,
    first: Lit,
    lits: &[Lit],
) -> Result<(), Memory>
    ensures { OnOk result (clauses.new.items ≡ clauses.old.items ++ (first ∷ negations lits.now) ∷ []) }
{
    let mut all = Vec::new(alloc);
    all.push(first)?;
    for lit in lits {
        all.push(lit.negated())?;
    }
    clauses.push(Clause { lits: all })?;
    Ok(())
}
