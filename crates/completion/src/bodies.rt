//! The clauses of bodies: that the variable of a body has its value, and what follows from it.
ghost use Rattle.std.specs.Prelude.{◌≡◌, ◌++◌, ◌-◌, ◌≤◌, OnOk, drop, length};
ghost use Rattle.std.specs.List.{filter, flat_map};
ghost use Rattle.normal_program.specs.declared.modules.BodyDef.{BodyDef};
ghost use Rattle.normal_program.specs.ModuleClauses.{body_clauses, gives_rule, head_clauses, later_clauses, later_rules, use_clauses};

use crate::lists::{push, push_all_not, push_each};
use normal_program::{BodyDef, BodyHead, NRule, StepModule};
use std::alloc::Global;
use tel_base::{Clause, Lit, Memory};

/// Adds what follows from a body of the state with this end.
fn add_use(
    alloc: Global,
    clauses: &mut Vec<Clause>,
    end: u32,
    body: u32,
    head: BodyHead,
) -> Result<(), Memory>
    ensures { OnOk result (clauses.new.items ≡ clauses.old.items ++ use_clauses end body head) }
{
    let body = Lit::of(body).negated();
    match head {
        BodyHead::Normal(head) => push(alloc, clauses, &[Lit::of(head), body]),
        BodyHead::Choice(_) => Ok(()),
        BodyHead::Nothing => push(alloc, clauses, &[body]),
        BodyHead::NextNormal => push(alloc, clauses, &[body, Lit::of(end).negated()]),
        BodyHead::NextChoice => Ok(()),
    }
}

/// Adds the clauses of a body.
fn add_body(
    alloc: Global,
    clauses: &mut Vec<Clause>,
    end: u32,
    body: &BodyDef,
) -> Result<(), Memory>
    ensures { OnOk result (clauses.new.items ≡ clauses.old.items ++ body_clauses end body.now) }
{
    let var = Lit::of(body.var);
    push_each(alloc, clauses, var.negated(), body.lits.as_slice())?;
    push_all_not(alloc, clauses, var, body.lits.as_slice())?;
    add_use(alloc, clauses, end, body.var, body.head)
}

/// Adds the clauses of these bodies of the state with this end.
pub fn add_bodies(
    alloc: Global,
    clauses: &mut Vec<Clause>,
    end: u32,
    bodies: &[BodyDef],
) -> Result<(), Memory>
    ensures { OnOk result (clauses.new.items ≡ clauses.old.items ++ flat_map (body_clauses end) bodies.now) }
{
    for body in bodies {
        add_body(alloc, clauses, end, body)?;
    }
    Ok(())
}

/// How many of these bodies have a rule in their own module.
fn rules_given(bodies: &[BodyDef]) -> usize
    ensures { result ≡ length (filter (λ (body : BodyDef). gives_rule body.head) bodies.now) }
{
    bodies
        .iter()
        .filter(|body| !matches!(body.head, BodyHead::NextChoice))
        .count()
}

/// The rules with a body of the state before.
fn later(step: &StepModule) -> &[NRule]
    ensures { result.now ≡ later_rules step.now }
{
    let own = rules_given(step.bodies.as_slice());
    step.rules.as_slice().get(own..).unwrap_or(&[])
}

/// Adds that the head of a rule follows from its body, where it is no choice.
fn add_head(alloc: Global, clauses: &mut Vec<Clause>, rule: &NRule) -> Result<(), Memory>
    ensures { OnOk result (clauses.new.items ≡ clauses.old.items ++ later_clauses rule.now) }
{
    if rule.choice {
        return Ok(());
    }
    match (rule.head, rule.body) {
        (Some(head), Some(body)) => push(alloc, clauses, &[Lit::of(head), Lit::of(body).negated()]),
        _ => Ok(()),
    }
}

/// Adds that the heads follow from the bodies of the state before.
pub fn add_later(alloc: Global, clauses: &mut Vec<Clause>, step: &StepModule) -> Result<(), Memory>
    ensures { OnOk result (clauses.new.items ≡ clauses.old.items ++ flat_map later_clauses (later_rules step.now)) }
{
    for rule in later(step) {
        add_head(alloc, clauses, rule)?;
    }
    Ok(())
}
