//! The goals of a body.
ghost use Rattle.std.specs.Prelude.{◌≡◌, ◌++◌, List, IfOk, OnOk};
ghost use Rattle.tel_term.specs.declared.terms.Term.{Term};
ghost use Rattle.tel_rule.specs.declared.statements.Statement.{Statement};
ghost use Rattle.rule_plans.specs.Goals.{Rows};
ghost use Rattle.rule_plans.specs.Within.{AreWithin};
ghost use Rattle.plan_search.specs.Steps.{Tables};
ghost use Rattle.rule_goals.specs.Said.{all_said, equations_said, comparisons_said, SayBody, SayRows};
ghost use Rattle.rule_goals.specs.Numbers.{AreNumbered};
ghost use Rattle.rule_goals.specs.Laws.{AreGoalsOf, AreRowGoalsOf, body_exprs, AreFit};

use crate::adding::{add_comparison, add_equation};
use crate::rows::{TableNumbers, add_rows};
use plan_order::Goal;
use std::alloc::Global;
use tel_base::Memory;
use tel_rule::Literal;

/// What plans for a rule ask for, and how many places they have: one for each variable, and one for each
/// argument of a table atom that is none.
#[derive(Drop)]
pub struct RuleGoals<'a> {
    pub goals: Vec<Goal<'a>>,
    pub places: u32,
}

/// Adds the goals of the equations of a body.
fn add_equations<'a>(
    alloc: Global,
    body: &'a [Literal],
    goals: &mut Vec<Goal<'a>>,
) -> Result<(), Memory>
    ensures { OnOk result (all_said goals.new.items ≡ all_said goals.old.items ++ equations_said body.now) }
{
    for literal in body {
        add_equation(alloc, &literal.item, goals)?;
    }
    Ok(())
}

/// Adds the goals of the comparisons of a body.
fn add_comparisons<'a>(
    alloc: Global,
    body: &'a [Literal],
    goals: &mut Vec<Goal<'a>>,
) -> Result<(), Memory>
    ensures { OnOk result (all_said goals.new.items ≡ all_said goals.old.items ++ comparisons_said body.now) }
{
    for literal in body {
        add_comparison(alloc, &literal.item, goals)?;
    }
    Ok(())
}

/// The goals of the table atoms of a rule of so many variables.
fn said_rows<'a, N: TableNumbers>(
    alloc: Global,
    numbers: &N,
    vars: u32,
    body: &'a [Literal],
) -> Result<RuleGoals<'a>, Memory>
    ensures { IfOk result (λ found. SayRows (N.number numbers.now) vars body.now found.places found.goals.items) }
{
    let mut goals = Vec::new(alloc);
    let places = add_rows(alloc, numbers, body, vars, &mut goals)?;
    Ok(RuleGoals { goals, places })
}

/// The goals of a rule of so many variables: that its positive unprimed table atoms are rows, and what
/// its equations and comparisons say.
fn said_goals<'a, N: TableNumbers>(
    alloc: Global,
    numbers: &N,
    vars: u32,
    body: &'a [Literal],
) -> Result<RuleGoals<'a>, Memory>
    ensures { IfOk result (λ found. SayBody (N.number numbers.now) vars body.now found.places found.goals.items) }
{
    let mut goals = Vec::new(alloc);
    let places = add_rows(alloc, numbers, body, vars, &mut goals)?;
    add_equations(alloc, body, &mut goals)?;
    add_comparisons(alloc, body, &mut goals)?;
    Ok(RuleGoals { goals, places })
}

/// The goals of the positive unprimed table atoms of a rule of so many variables, from left to right: that
/// each is a row, and that each place of an argument that is no variable has its value. More places than a
/// `u32` can count are want of memory.
pub fn row_goals<'a, N: TableNumbers>(
    alloc: Global,
    numbers: &N,
    vars: u32,
    body: &'a [Literal],
) -> Result<RuleGoals<'a>, Memory>
    ensures goals { IfOk result (λ found. (statements : List Statement) (symbols : List Term) (rows : Rows) (tables : Tables) → AreNumbered (N.number numbers.now) statements rows tables → AreRowGoalsOf statements symbols rows tables vars body.now found.places found.goals.items) }
    ensures fit { IfOk result (λ found. (symbols : List Term) → AreWithin symbols vars (body_exprs body.now) → AreFit symbols found.places found.goals.items) }
{
    let found = said_rows(alloc, numbers, vars, body)?;
    Ok(found)
}

/// The goals of a rule of so many variables, for its plans: first that its positive unprimed table atoms are
/// rows, then that the variables which stand as a whole on a side of an `=` have the value of the other side,
/// then that its comparisons hold, each from left to right. More places than a `u32` can count are want of
/// memory.
pub fn rule_goals<'a, N: TableNumbers>(
    alloc: Global,
    numbers: &N,
    vars: u32,
    body: &'a [Literal],
) -> Result<RuleGoals<'a>, Memory>
    ensures goals { IfOk result (λ found. (statements : List Statement) (symbols : List Term) (rows : Rows) (tables : Tables) → AreNumbered (N.number numbers.now) statements rows tables → AreGoalsOf statements symbols rows tables vars body.now found.places found.goals.items) }
    ensures fit { IfOk result (λ found. (symbols : List Term) → AreWithin symbols vars (body_exprs body.now) → AreFit symbols found.places found.goals.items) }
{
    let found = said_goals(alloc, numbers, vars, body)?;
    Ok(found)
}
