//! The first statement of a program that leaves the range of numbers.
ghost use Rattle.std.specs.Prelude.{◌≡◌, ◌<◌, List, length, slice_get, Some, IfOk};
ghost use Rattle.tel_rule.specs.declared.statements.Statement.{Statement as RuleStatement};
ghost use Rattle.live_instances.specs.Reached.{LeavesRange};
ghost use Rattle.rule_plans.specs.Goals.{Rows};
ghost use Rattle.range_faults.specs.Ranges.{LeavesFirst, IsBoundProgram};
ghost use Rattle.range_faults.specs.Rules.{IsIn, Tells};

use crate::facts::some_leaves;
use crate::rules::rule_leaves;
use fact_table::Tables;
use rule_goals::TableNumbers;
use std::alloc::Global;
use tel_base::{Memory, Place};
use tel_rule::{Kind, Statement};
use tel_term::Symbols;

/// Whether a statement of a program whose variables are all bound leaves the range of numbers.
fn leaves_range<N: TableNumbers>(
    alloc: Global,
    numbers: &N,
    tables: &Tables,
    symbols: &Symbols,
    statement: &Statement,
) -> Result<bool, Memory>
    requires { (statements : List RuleStatement) × (rows : Rows) × IsIn (N.number numbers.now) statements rows tables.now symbols.now statement.now }
    ensures { IfOk result (λ leaves. (statements : List RuleStatement) (rows : Rows) → IsIn (N.number numbers.now) statements rows tables.now symbols.now statement.now → Tells leaves (LeavesRange statements symbols.now statement.now)) }
{
    match &statement.kind {
        Kind::Rule(head, body) => {
            let body = body.as_slice();
            let leaves = rule_leaves(alloc, numbers, tables, symbols, statement, head, body)?;
            Ok(leaves)
        }
        Kind::Facts(fact) => {
            let leaves = some_leaves(fact.tuples.as_slice());
            Ok(leaves)
        }
        Kind::Const(_, _) => Ok(false),
        Kind::Show(_) => Ok(false),
    }
}

/// The statement with a number.
fn statement_at(statements: &[Statement], number: usize) -> &Statement
    requires { number < length statements.now }
    ensures { slice_get statements.now number ≡ Some result.now }
{
    &statements[number]
}

/// The place of the first statement that leaves the range, if some statement does: a fact of which the first fault of some tuple is a
/// number out of range, or a rule of which that of some binding is that the rows of its tables reach. The tables hold the rows that
/// the facts of the program state, and the variables of its rules are all bound.
pub fn first_leaving<N: TableNumbers>(
    alloc: Global,
    numbers: &N,
    tables: &Tables,
    symbols: &Symbols,
    statements: &[Statement],
) -> Result<Option<Place>, Memory>
    requires { (rows : Rows) × IsBoundProgram (N.number numbers.now) statements.now rows tables.now symbols.now }
    ensures { IfOk result (λ found. LeavesFirst statements.now symbols.now found) }
{
    for number in 0..statements.len() {
        let statement = statement_at(statements, number);
        let leaves = leaves_range(alloc, numbers, tables, symbols, statement)?;
        if leaves {
            return Ok(Some(statement.place));
        }
    }
    Ok(None)
}
