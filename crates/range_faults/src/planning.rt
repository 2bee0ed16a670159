//! A plan of the search for the faults of a rule.
ghost use Rattle.std.specs.Prelude.{◌≡◌, List, length, pos, IfOk, vec_len};
ghost use Rattle.tel_term.specs.declared.terms.Term.{Term};
ghost use Rattle.tel_term.specs.declared.terms.Value.TheVariants as values;
ghost use Rattle.tel_term.specs.declared.exprs.Expr.TheVariants as exprs;
ghost use Rattle.tel_rule.specs.declared.statements.Head.{Head as RuleHead};
ghost use Rattle.tel_rule.specs.declared.statements.Statement.{Statement as RuleStatement};
ghost use Rattle.tel_semantics.specs.Tables.{is_table};
ghost use Rattle.rule_binding.specs.Binding.{row_vars};
ghost use Rattle.rule_plans.specs.Goals.{Rows};
ghost use Rattle.rule_settings.specs.Candidates.{AreMarked};
ghost use Rattle.plan_search.specs.Steps.{Tables as RowTables};
ghost use Rattle.rule_goals.specs.Numbers.{has_number};
ghost use Rattle.range_faults.specs.Rules.{IsRuleIn, IsRangePlan};

use crate::parting::parted_goals;
use fact_table::Tables;
use plan_order::{Goal, order_goals};
use plan_search::Step;
use rule_goals::{TableNumbers, row_goals};
use rule_settings::{TableTest, mark_row_vars};
use std::alloc::Global;
use tel_base::Memory;
use tel_rule::{Atom, Literal, Statement};
use tel_term::Expr;

/// The predicates that have the number of a table.
#[derive(Clone, Copy)]
pub struct HasNumber<'n, N> {
    pub numbers: &'n N,
}

impl<N: TableNumbers> TableTest for HasNumber<'_, N> {
    ghost tables = { λ test predicate. has_number (N.number test.numbers.now predicate) };

    fn has_table(&self, atom: &Atom) -> bool {
        match self.numbers.number(atom) {
            Some(_) => true,
            None => false,
        }
    }
}

/// The steps of a plan, how many places they have, and the goals that are late.
#[derive(Drop)]
pub struct RangePlan<'a> {
    pub steps: Vec<Step<'a>>,
    pub places: usize,
    pub late: Vec<Goal<'a>>,
}

/// How many variables a rule has. More than a `u32` can count are want of memory.
fn count_variables(rule: &Statement) -> Result<u32, Memory>
    ensures { IfOk result (λ vars. vars ≡ length rule.now.vars) }
{
    match u32::try_from(rule.vars.len()) {
        Ok(vars) => Ok(vars),
        Err(_) => Err(Memory),
    }
}

/// Marks of the variables of a rule that rows bind.
pub fn mark_rows<N: TableNumbers>(
    alloc: Global,
    numbers: &N,
    rule: &Statement,
    body: &[Literal],
) -> Result<Vec<bool>, Memory>
    requires { (statements : List RuleStatement) × (rows : Rows) × (tables : RowTables) × (symbols : List Term) × (head : RuleHead) × IsRuleIn (N.number numbers.now) statements rows tables symbols rule.now head body.now }
    ensures marks { IfOk result (λ marks. (statements : List RuleStatement) (rows : Rows) (tables : RowTables) (symbols : List Term) (head : RuleHead) → IsRuleIn (N.number numbers.now) statements rows tables symbols rule.now head body.now → AreMarked marks.items (row_vars (is_table statements) body.now)) }
    ensures len { IfOk result (λ marks. vec_len marks ≡ length rule.now.vars) }
{
    let marks = mark_row_vars(alloc, &HasNumber { numbers }, rule.vars.len(), body)?;
    Ok(marks)
}

/// A plan of the search for the faults of a rule, with marks of the variables that its rows bind. A variable without a mark begins as
/// `zero`, which is 0.
pub fn range_plan<'a, N: TableNumbers>(
    alloc: Global,
    numbers: &N,
    tables: &Tables,
    rule: &Statement,
    body: &'a [Literal],
    marks: &[bool],
    zero: &'a Expr,
) -> Result<RangePlan<'a>, Memory>
    requires rule { (statements : List RuleStatement) × (rows : Rows) × (symbols : List Term) × (head : RuleHead) × IsRuleIn (N.number numbers.now) statements rows tables.now symbols rule.now head body.now × AreMarked marks.now (row_vars (is_table statements) body.now) }
    requires len { length marks.now ≡ length rule.now.vars }
    requires zero { zero.now ≡ exprs.Value (values.Num (pos 0)) }
    ensures { IfOk result (λ plan. (statements : List RuleStatement) (rows : Rows) (symbols : List Term) (head : RuleHead) → IsRuleIn (N.number numbers.now) statements rows tables.now symbols rule.now head body.now → AreMarked marks.now (row_vars (is_table statements) body.now) → IsRangePlan statements rows tables.now symbols rule.now body.now plan.steps.items plan.places plan.late.items) }
{
    let vars = count_variables(rule)?;
    let made = row_goals(alloc, numbers, vars, body)?;
    let parted = parted_goals(alloc, &made, vars, marks, zero)?;
    let places = made.places as usize;
    match order_goals(alloc, tables, parted.early.as_slice(), places)? {
        Some(steps) => Ok(RangePlan {
            steps,
            places,
            late: parted.late,
        }),
        None => unreachable!(),
    }
}
