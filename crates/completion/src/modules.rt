//! The clauses of a module.
ghost use Rattle.std.specs.Prelude.{◌≡◌, ◌++◌, OnOk, IfOk, map};
ghost use Rattle.normal_program.specs.ModuleClauses.{close_clauses, clauses_of, open_clause, pair_clause, stated_clauses};

use crate::bodies::{add_bodies, add_later};
use crate::lists::push;
use crate::ordering::list_all;
use crate::shapes::add_nodes;
use crate::supports::add_supports;
use normal_program::StepModule;
use std::alloc::Global;
use tel_base::{Clause, Lit, Memory};

/// Adds that the trace doesn't end with the state before.
fn add_close(alloc: Global, clauses: &mut Vec<Clause>, close: Option<Lit>) -> Result<(), Memory>
    ensures { OnOk result (clauses.new.items ≡ clauses.old.items ++ close_clauses close) }
{
    match close {
        Some(lit) => push(alloc, clauses, &[lit]),
        None => Ok(()),
    }
}

/// Adds that the two of a pair aren't true together.
fn add_pairs(alloc: Global, clauses: &mut Vec<Clause>, pairs: &[(u32, u32)]) -> Result<(), Memory>
    ensures { OnOk result (clauses.new.items ≡ clauses.old.items ++ map pair_clause pairs.now) }
{
    for pair in pairs {
        push(
            alloc,
            clauses,
            &[Lit::of(pair.0).negated(), Lit::of(pair.1).negated()],
        )?;
    }
    Ok(())
}

/// Adds that none of these variables is true at the end.
fn add_open(alloc: Global, clauses: &mut Vec<Clause>, end: u32, vars: &[u32]) -> Result<(), Memory>
    ensures { OnOk result (clauses.new.items ≡ clauses.old.items ++ map (open_clause end) vars.now) }
{
    let end = Lit::of(end).negated();
    for var in vars {
        push(alloc, clauses, &[end, Lit::of(*var).negated()])?;
    }
    Ok(())
}

/// The clauses of a module before each is put in order.
fn stated(alloc: Global, step: &StepModule) -> Result<Vec<Clause>, Memory>
    ensures { IfOk result (λ clauses. clauses.items ≡ stated_clauses step.now) }
{
    let mut clauses = Vec::new(alloc);
    add_close(alloc, &mut clauses, step.close)?;
    add_bodies(alloc, &mut clauses, step.end, step.bodies.as_slice())?;
    add_later(alloc, &mut clauses, step)?;
    add_supports(alloc, &mut clauses, step)?;
    add_nodes(alloc, &mut clauses, step.nodes.as_slice())?;
    add_pairs(alloc, &mut clauses, step.pairs.as_slice())?;
    add_open(alloc, &mut clauses, step.end, step.open_vars.as_slice())?;
    Ok(clauses)
}

/// The clauses of a module: that the trace doesn't end with the state before; that each body has its value and what follows from
/// it; that heads follow from bodies of the state before; that each true atom is the head of a rule with a true body; that each
/// node has the value of its shape; that no pair is whole; and that at the end nothing of the next state holds. Each clause is by
/// rising variable and has a literal once, and one that holds a literal and its negation is left out.
///
/// It takes time linear in their literals but for putting each clause in order.
pub fn clauses(alloc: Global, step: &StepModule) -> Result<Vec<Clause>, Memory>
    ensures { IfOk result (λ clauses. clauses.items ≡ clauses_of step.now) }
{
    list_all(alloc, stated(alloc, step)?)
}
