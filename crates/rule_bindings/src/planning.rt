//! A plan for a rule.
ghost use Rattle.std.specs.Prelude.{◌≡◌, List, length, IfOk};
ghost use Rattle.tel_term.specs.declared.terms.Term.{Term};
ghost use Rattle.tel_rule.specs.declared.statements.Head.{Head as RuleHead};
ghost use Rattle.tel_rule.specs.declared.statements.Statement.{Statement as RuleStatement};
ghost use Rattle.rule_plans.specs.Goals.{Rows};
ghost use Rattle.rule_bindings.specs.Bound.{IsBoundRule, IsPlanFor};

use fact_table::Tables;
use plan_order::order_goals;
use plan_search::Step;
use rule_goals::{TableNumbers, rule_goals};
use std::alloc::Global;
use tel_base::Memory;
use tel_rule::{Literal, Statement};

/// The steps of a plan, and how many places they have.
#[derive(Drop)]
pub struct RulePlan<'a> {
    pub steps: Vec<Step<'a>>,
    pub places: usize,
}

/// How many variables a rule has. More than a `u32` can count are want of memory.
fn count_variables(rule: &Statement) -> Result<u32, Memory>
    ensures { IfOk result (λ vars. vars ≡ length rule.now.vars) }
{
    match u32::try_from(rule.vars.len()) {
        Ok(vars) => Ok(vars),
        Err(_) => Err(Memory),
    }
}

/// A plan for a rule whose variables are all bound.
pub fn rule_plan<'a, N: TableNumbers>(
    alloc: Global,
    numbers: &N,
    tables: &Tables,
    rule: &Statement,
    body: &'a [Literal],
) -> Result<RulePlan<'a>, Memory>
    requires { (statements : List RuleStatement) × (rows : Rows) × (symbols : List Term) × (head : RuleHead) × IsBoundRule (N.number numbers.now) statements rows tables.now symbols rule.now head body.now }
    ensures { IfOk result (λ plan. (statements : List RuleStatement) (rows : Rows) (symbols : List Term) (head : RuleHead) → IsBoundRule (N.number numbers.now) statements rows tables.now symbols rule.now head body.now → IsPlanFor statements rows tables.now symbols (length rule.now.vars) head body.now plan.steps.items plan.places) }
{
    let vars = count_variables(rule)?;
    let made = rule_goals(alloc, numbers, vars, body)?;
    let places = made.places as usize;
    match order_goals(alloc, tables, made.goals.as_slice(), places)? {
        Some(steps) => Ok(RulePlan { steps, places }),
        None => unreachable!(),
    }
}
