//! The live bindings of a rule.
ghost use Rattle.std.specs.Prelude.{◌-◌, ◌^◌, ◌<◌, ◌≤◌, List, length, IfOk, IfErr};
ghost use Rattle.tel_rule.specs.declared.statements.Statement.{Statement as RuleStatement};
ghost use Rattle.live_instances.specs.Instances.{AreLive};
ghost use Rattle.rule_plans.specs.Goals.{Rows};
ghost use Rattle.plan_search.specs.Steps.{RowsHaveTerms};
ghost use Rattle.live_bindings.specs.Limits.{AreMore, IfLarge};
ghost use Rattle.rule_bindings.specs.Bound.{IsBoundRule};

use crate::planning::rule_plan;
use fact_table::Tables;
use live_bindings::{LiveFault, find_live_bindings};
use rule_goals::TableNumbers;
use sqlite_items::Items;
use std::alloc::Global;
use tel_rule::{Head, Literal, Statement};
use tel_term::{Symbols, Value};

/// The live bindings of a rule of a program whose variables are all bound, each once, in their order, by the
/// rows that the tables of the program hold. The head and the body are those of the rule. `Large` says that there
/// are more than `most`. No more are held than one above that.
pub fn rule_bindings<N: TableNumbers>(
    alloc: Global,
    numbers: &N,
    tables: &Tables,
    symbols: &Symbols,
    rule: &Statement,
    head: &Head,
    body: &[Literal],
    most: usize,
) -> Result<Vec<Items<Value>>, LiveFault>
    requires bound { (statements : List RuleStatement) × (rows : Rows) × IsBoundRule (N.number numbers.now) statements rows tables.now symbols.now rule.now head.now body.now }
    requires rows { RowsHaveTerms symbols.now tables.now }
    requires most { most < 2 ^ 64 - 1 }
    ensures live { IfOk result (λ found. (statements : List RuleStatement) (rows : Rows) → IsBoundRule (N.number numbers.now) statements rows tables.now symbols.now rule.now head.now body.now → AreLive statements symbols.now (length rule.now.vars) head.now body.now found.items) }
    ensures few { IfOk result (λ found. length found.items ≤ most) }
    ensures large { IfErr result (λ fault. IfLarge fault ((statements : List RuleStatement) (rows : Rows) → IsBoundRule (N.number numbers.now) statements rows tables.now symbols.now rule.now head.now body.now → AreMore statements symbols.now (length rule.now.vars) head.now body.now most)) }
{
    let plan = rule_plan(alloc, numbers, tables, rule, body)?;
    let vars = rule.vars.len();
    find_live_bindings(
        alloc,
        tables,
        symbols,
        plan.steps.as_slice(),
        plan.places,
        vars,
        head,
        body,
        most,
    )
}
