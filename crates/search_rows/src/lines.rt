//! What is printed of answers.

ghost use Rattle.std.specs.Prelude.{◌≤◌, ◌<◌};

use atom_space::AtomSpace;
use cdcl_search::Search;
use clause_store::ClauseId;
use lit_trail::Trail;
use std::alloc::{AllocError, Global};
use tel_base::Lit;
use unfounded_sets::LeastScan;

/// Adds literals, each behind a blank.
fn add_lits(alloc: Global, text: &mut String, lits: &[Lit]) -> Result<(), AllocError> {
    for lit in lits {
        let sign = if lit.positive { "" } else { "-" };
        let shown = format!(in alloc; " {sign}{}", lit.var)?;
        text.push_str(shown.as_str())?;
    }
    Ok(())
}

/// Adds numbers, each behind a blank.
fn add_vars(alloc: Global, text: &mut String, vars: &[u32]) -> Result<(), AllocError> {
    for var in vars {
        let shown = format!(in alloc; " {var}")?;
        text.push_str(shown.as_str())?;
    }
    Ok(())
}

/// The number and the literals of a clause, and for a loop clause its set and its atom.
pub fn clause_line(
    alloc: Global,
    search: &Search<LeastScan>,
    id: ClauseId,
) -> Result<String, AllocError> {
    let mut text = format!(in alloc; " {}:", id.place)?;
    if id.place < search.store().len() {
        add_lits(alloc, &mut text, search.store().clause(id))?;
    }
    if let Some(one) = search.loop_set(id) {
        text.push_str(", set")?;
        add_vars(alloc, &mut text, one.set.as_slice())?;
        text.push_str(", atom")?;
        add_vars(alloc, &mut text, &[one.atom])?;
    }
    Ok(text)
}

/// Adds a variable where it is true, behind a blank if it isn't the first, and returns whether the next would be the first.
fn add_true(
    alloc: Global,
    text: &mut String,
    trail: &Trail,
    var: u32,
    first: bool,
) -> Result<bool, AllocError> {
    if trail.value(Lit::of(var)) == Some(true) {
        let before = if first { "" } else { " " };
        let shown = format!(in alloc; "{before}{var}")?;
        text.push_str(shown.as_str())?;
        return Ok(false);
    }
    Ok(first)
}

/// Adds the true atoms of a state.
fn add_state(
    alloc: Global,
    text: &mut String,
    trail: &Trail,
    space: &AtomSpace,
    t: u32,
) -> Result<(), AllocError>
    requires { t ≤ space.now.greatest }
{
    text.push_str(" {")?;
    let mut first = true;
    for atom in 0..space.atoms {
        first = add_true(alloc, text, trail, space.visible(atom, t), first)?;
    }
    text.push_str("}")?;
    Ok(())
}

/// The true atoms of the states below `n`, state by state.
pub fn trace_line(
    alloc: Global,
    trail: &Trail,
    space: &AtomSpace,
    n: u32,
) -> Result<String, AllocError>
    requires { n ≤ space.now.greatest }
{
    let mut text = String::from_str(alloc, "")?;
    for t in 0..n {
        add_state(alloc, &mut text, trail, space, t)?;
    }
    Ok(text)
}
