//! Rules that leave the range of numbers.
ghost use Rattle.std.specs.Prelude.{◌≡◌, ◌<◌, ◌≤◌, List, [], true, false, length, replicate, pos, IfOk, vec_len};
ghost use Rattle.tel_term.specs.declared.terms.Value.TheVariants as values;
ghost use Rattle.tel_rule.specs.declared.statements.Head.{Head as RuleHead};
ghost use Rattle.tel_rule.specs.declared.statements.Literal.{Literal as BodyLiteral};
ghost use Rattle.tel_rule.specs.declared.statements.Statement.{Statement as RuleStatement};
ghost use Rattle.live_instances.specs.Reached.{LeavesRange};
ghost use Rattle.rule_plans.specs.Goals.{Rows};
ghost use Rattle.rule_settings.specs.Said.{all_said as settings_said};
ghost use Rattle.rule_goals.specs.Said.{Numbers};
ghost use Rattle.range_faults.specs.Operations.{all_said};
ghost use Rattle.range_faults.specs.Rules.{IsRuleIn, IsSearch, Tells};

use crate::operations::{Operation, find_operations};
use crate::planning::{RangePlan, mark_rows, range_plan};
use crate::testing::RangeTest;
use fact_table::Tables;
use plan_search::search;
use rule_goals::TableNumbers;
use rule_settings::{Setting, find_settings};
use sqlite_items::Items;
use std::alloc::Global;
use tel_base::Memory;
use tel_rule::{Head, Literal, Statement};
use tel_term::{Expr, Symbols, Value};

/// So many places, each with the number 0.
fn zeros(alloc: Global, places: usize) -> Result<Items<Value>, Memory>
    ensures { IfOk result (λ env. env ≡ replicate places (values.Num (pos 0))) }
{
    let env = vec![in alloc; Value::Num(0); places]?;
    Ok(Items::from_vec(env))
}

/// Room for so many values.
fn value_room(alloc: Global, places: usize) -> Result<Vec<Value>, Memory>
    ensures { IfOk result (λ room. vec_len room ≡ places) }
{
    let room = vec![in alloc; Value::Num(0); places]?;
    Ok(room)
}

/// Room for marks of so many places.
fn mark_room(alloc: Global, places: usize) -> Result<Vec<bool>, Memory>
    ensures { IfOk result (λ room. vec_len room ≡ places) }
{
    let room = vec![in alloc; false; places]?;
    Ok(room)
}

/// Whether something was found.
fn is_some(found: &[Items<Value>]) -> bool
    ensures some { result ≡ true → 0 < length found.now }
    ensures none { result ≡ false → length found.now ≤ 0 }
{
    found.len() > 0
}

/// Whether there is no operation.
fn is_none(operations: &[Operation<'_>]) -> bool
    ensures { result ≡ true → all_said operations.now ≡ [] }
{
    operations.len() == 0
}

/// Whether the search by a plan finds values from which the rule leaves the range of numbers.
fn some_leaves(
    alloc: Global,
    tables: &Tables,
    symbols: &Symbols,
    operations: &[Operation<'_>],
    settings: &[Setting<'_>],
    plan: &RangePlan<'_>,
) -> Result<bool, Memory>
    requires { (number : Numbers) × (statements : List RuleStatement) × (rows : Rows) × (rule : RuleStatement) × (head : RuleHead) × (body : List BodyLiteral) × IsSearch number statements rows tables.now symbols.now rule head body (all_said operations.now) (settings_said settings.now) plan.now.steps.items plan.now.places plan.now.late.items }
    ensures { IfOk result (λ leaves. (number : Numbers) (statements : List RuleStatement) (rows : Rows) (rule : RuleStatement) (head : RuleHead) (body : List BodyLiteral) → IsSearch number statements rows tables.now symbols.now rule head body (all_said operations.now) (settings_said settings.now) plan.now.steps.items plan.now.places plan.now.late.items → Tells leaves (LeavesRange statements symbols.now rule)) }
{
    let env = zeros(alloc, plan.places)?;
    let late = plan.late.as_slice();
    let steps = plan.steps.as_slice();
    let values = value_room(alloc, plan.places)?;
    let unset = mark_room(alloc, plan.places)?;
    let mut test = RangeTest {
        operations,
        settings,
        late,
        values,
        unset,
    };
    let found = search(alloc, tables, symbols, steps, env, 0, &mut test, 1)?;
    let some = is_some(found.as_slice());
    Ok(some)
}

/// Whether a rule of a program whose variables are all bound leaves the range of numbers: whether the first fault of some binding that
/// the rows of its tables reach is a number out of range. The head and the body are those of the rule.
pub fn rule_leaves<N: TableNumbers>(
    alloc: Global,
    numbers: &N,
    tables: &Tables,
    symbols: &Symbols,
    rule: &Statement,
    head: &Head,
    body: &[Literal],
) -> Result<bool, Memory>
    requires { (statements : List RuleStatement) × (rows : Rows) × IsRuleIn (N.number numbers.now) statements rows tables.now symbols.now rule.now head.now body.now }
    ensures { IfOk result (λ leaves. (statements : List RuleStatement) (rows : Rows) → IsRuleIn (N.number numbers.now) statements rows tables.now symbols.now rule.now head.now body.now → Tells leaves (LeavesRange statements symbols.now rule.now)) }
{
    let operations = find_operations(alloc, head, body)?;
    let all = operations.as_slice();
    if is_none(all) {
        return Ok(false);
    }
    let marks = mark_rows(alloc, numbers, rule, body)?;
    let marked = marks.as_slice();
    let found = find_settings(alloc, marked, body)?;
    let settings = found.as_slice();
    let zero = Expr::Value(Value::Num(0));
    let plan = range_plan(alloc, numbers, tables, rule, body, marked, &zero)?;
    let leaves = some_leaves(alloc, tables, symbols, all, settings, &plan)?;
    Ok(leaves)
}
