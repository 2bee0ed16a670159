//! The goals of table atoms.
ghost use Rattle.std.specs.Prelude.{◌≡◌, ◌++◌, ℕ, Option, IfOk, OnOk};
ghost use Rattle.tel_rule.specs.declared.statements.Signature.{Signature};
ghost use Rattle.tel_semantics.specs.Tables.{predicate_of};
ghost use Rattle.rule_goals.specs.Said.{all_said, args_said, behind_args, table_of, row_said, behind_row, item_rows, behind_item, body_rows, behind_body};

use crate::adding::{add_arg, push_goal};
use crate::places::{arg_places, next_free};
use plan_order::Goal;
use std::alloc::Global;
use tel_base::Memory;
use tel_rule::{Atom, LitItem, Literal};
use tel_term::Expr;

/// Numbers of tables.
pub trait TableNumbers {
    /// The number that the table of a predicate has; none where the predicate is no table.
    ghost number: { Self → Signature → Option ℕ };

    /// The number that the table of an atom's predicate has; none where it is no table.
    fn number(&self, atom: &Atom) -> Option<u32>
        ensures { result ≡ number self.now (predicate_of atom.now) };
}

/// Adds the goals of the arguments of a table atom, where `free` is the first free place, and gives the
/// first free place behind them.
fn add_args<'a>(
    alloc: Global,
    args: &'a [Expr],
    free: u32,
    goals: &mut Vec<Goal<'a>>,
) -> Result<u32, Memory>
    ensures goals { OnOk result (all_said goals.new.items ≡ all_said goals.old.items ++ args_said free args.now) }
    ensures free { IfOk result (λ next. next ≡ behind_args free args.now) }
{
    let mut next = free;
    for arg in args {
        add_arg(alloc, arg, next, goals)?;
        next = next_free(arg, next)?;
    }
    Ok(next)
}

/// The table of an atom behind so many `not`, where it is a positive unprimed one of a table.
fn table_of<N: TableNumbers>(numbers: &N, nots: u32, atom: &Atom) -> Option<u32>
    ensures { result ≡ table_of (N.number numbers.now) nots atom.now }
{
    if nots == 0 && atom.before == 0 && atom.after == 0 {
        numbers.number(atom)
    } else {
        None
    }
}

/// Adds the goals of an atom of a table: its arguments are a row. Gives the first free place behind it.
fn add_row<'a>(
    alloc: Global,
    table: Option<u32>,
    args: &'a [Expr],
    free: u32,
    goals: &mut Vec<Goal<'a>>,
) -> Result<u32, Memory>
    ensures goals { OnOk result (all_said goals.new.items ≡ all_said goals.old.items ++ row_said free args.now table) }
    ensures free { IfOk result (λ next. next ≡ behind_row free args.now table) }
{
    match table {
        Some(table) => {
            let places = arg_places(alloc, args, free)?;
            push_goal(goals, Goal::Row(table, places))?;
            let next = add_args(alloc, args, free, goals)?;
            Ok(next)
        }
        None => Ok(free),
    }
}

/// Adds the goals of a literal, where it is a positive unprimed table atom. Gives the first free place
/// behind it.
fn add_literal<'a, N: TableNumbers>(
    alloc: Global,
    numbers: &N,
    literal: &'a Literal,
    free: u32,
    goals: &mut Vec<Goal<'a>>,
) -> Result<u32, Memory>
    ensures goals { OnOk result (all_said goals.new.items ≡ all_said goals.old.items ++ item_rows (N.number numbers.now) free literal.now.nots literal.now.item) }
    ensures free { IfOk result (λ next. next ≡ behind_item (N.number numbers.now) free literal.now.nots literal.now.item) }
{
    match &literal.item {
        LitItem::Atom(atom) => {
            let table = table_of(numbers, literal.nots, atom);
            let next = add_row(alloc, table, atom.args.as_slice(), free, goals)?;
            Ok(next)
        }
        LitItem::Tel(_) => Ok(free),
        LitItem::Compare(_, _, _) => Ok(free),
    }
}

/// Adds the goals of the table atoms of a body, where `free` is the first free place, and gives the
/// first free place behind them.
pub fn add_rows<'a, N: TableNumbers>(
    alloc: Global,
    numbers: &N,
    body: &'a [Literal],
    free: u32,
    goals: &mut Vec<Goal<'a>>,
) -> Result<u32, Memory>
    ensures goals { OnOk result (all_said goals.new.items ≡ all_said goals.old.items ++ body_rows (N.number numbers.now) free body.now) }
    ensures free { IfOk result (λ next. next ≡ behind_body (N.number numbers.now) free body.now) }
{
    let mut next = free;
    for literal in body {
        next = add_literal(alloc, numbers, literal, next, goals)?;
    }
    Ok(next)
}
