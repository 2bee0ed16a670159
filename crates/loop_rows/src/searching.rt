//! A search under a trail, and what it says.
ghost use Rattle.std.specs.Prelude.{◌≡◌, ◌≤◌};

use crate::modules::{first_module, second_module};
use clause_store::ClauseId;
use lit_trail::Trail;
use normal_program::Ground;
use std::alloc::{AllocError, Global};
use tel_base::{Lit, Memory};
use unfounded_sets::{Founded, LeastScan};

/// How many variables the two states have.
const VARS: u32 = 18;

/// The rules of both states, where these literals give those of the later node.
pub fn ground_of(alloc: Global, lits: &[Lit]) -> Result<Ground, Memory> {
    let mut ground = Ground::new(alloc);
    ground.add(&first_module(alloc)?)?;
    ground.add(&second_module(alloc, lits)?)?;
    Ok(ground)
}

/// Puts a literal on a trail where its variable has no value yet.
fn assume(trail: &mut Trail, lit: Lit)
    requires { VARS ≤ trail.old.vars }
    ensures { VARS ≤ trail.new.vars }
{
    if lit.var < VARS && trail.level_of(lit.var).is_none() {
        trail.imply(lit, ClauseId { place: 0 });
    }
}

/// The trail of these literals.
fn trail_of(alloc: Global, lits: &[Lit]) -> Result<Trail, Memory> {
    let mut trail = Trail::new(alloc);
    trail.grow(VARS)?;
    for lit in lits {
        assume(&mut trail, *lit);
    }
    Ok(trail)
}

/// Adds numbers, each behind a blank.
fn add_vars(alloc: Global, text: &mut String, vars: &[u32]) -> Result<(), AllocError> {
    for var in vars {
        let shown = format!(in alloc; " {var}")?;
        text.push_str(shown.as_str())?;
    }
    Ok(())
}

/// Adds literals, each behind a blank.
fn add_lits(alloc: Global, text: &mut String, lits: &[Lit]) -> Result<(), AllocError> {
    for lit in lits {
        let sign = if lit.positive { "" } else { "-" };
        let shown = format!(in alloc; " {sign}{}", lit.var)?;
        text.push_str(shown.as_str())?;
    }
    Ok(())
}

/// What a search under the trail of these literals says.
pub fn found(
    alloc: Global,
    scan: &mut LeastScan,
    ground: &Ground,
    lits: &[Lit],
) -> Result<String, Memory> {
    let trail = trail_of(alloc, lits)?;
    let Some(nogood) = scan.find(ground, &trail)? else {
        return Ok(String::from_str(alloc, "no unfounded set")?);
    };
    let mut text = String::from_str(alloc, "set")?;
    add_vars(alloc, &mut text, nogood.set.as_slice())?;
    text.push_str(" atom")?;
    add_vars(alloc, &mut text, &[nogood.atom])?;
    text.push_str(" clause")?;
    add_lits(alloc, &mut text, nogood.clause.as_slice())?;
    Ok(text)
}
