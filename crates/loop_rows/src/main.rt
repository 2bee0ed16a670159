//! `loop_rows`: the unfounded sets that are found under three trails, in the modules of two states.
//!
//! For each trail it prints the set, its atom and the loop clause, or that there is none. A literal is its variable, and behind a `-` its negation.
#![tactic(auto)]

mod modules;
mod searching;

use anyhow::Result;
use searching::{found, ground_of};
use tel_base::Lit;
use unfounded_sets::LeastScan;

/// The literals of these variables, true ones and false ones.
fn lits_of(rt: &HostRuntime, holds: &[u32], fails: &[u32]) -> Result<Vec<Lit>> {
    let mut lits = Vec::new(rt.alloc());
    for var in holds {
        lits.push(Lit::of(*var))?;
    }
    for var in fails {
        lits.push(Lit::of(*var).negated())?;
    }
    Ok(lits)
}

/// Searches under each of the trails, all but the second with the rules of the later node.
fn main(rt: HostRuntime) -> Result<()> {
    let alloc = rt.alloc();
    let whole = ground_of(alloc, &[Lit::of(7), Lit::of(14)])?;
    let less = ground_of(alloc, &[])?;
    let all = lits_of(&rt, &[0, 2, 3, 6, 7, 8, 9, 10, 11], &[1, 5, 14])?;
    let one = lits_of(&rt, &[0], &[])?;
    let both = lits_of(&rt, &[0], &[14])?;
    let mut scan = LeastScan::new(alloc);
    for (ground, lits) in [
        (&whole, &all),
        (&less, &all),
        (&whole, &one),
        (&whole, &both),
    ] {
        println!(rt; "{}", found(alloc, &mut scan, ground, lits.as_slice())?)?;
    }
    Ok(())
}
