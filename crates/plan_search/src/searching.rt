//! The search: depth first, over a stack of its own, with one list of values.
ghost use Rattle.std.specs.Prelude.{◌≡◌, ℕ, ◌∷◌, [], ◌++◌, ◌<◌, ◌≤◌, List, false, true, map, take, filter, length, replicate, slice_get, Some, None, IfOk, OnOk};
ghost use Rattle.std.specs.List.{All};
ghost use Rattle.std.specs.Option.{option_copied};
ghost use Rattle.tel_term.specs.Arithmetic.{expr_value};
ghost use Rattle.tel_term.specs.declared.terms.Term.{Term};
ghost use Rattle.tel_term.specs.declared.terms.Value.{Value as TermValue};
ghost use Rattle.tel_base.specs.Members.{In};
ghost use Rattle.fact_table.specs.Rows.{rows_of};
ghost use Rattle.join_plans.specs.Join as plans;
ghost use Rattle.join_plans.specs.Join.{place, put, put_row, and_then, answers, IsPlan};
ghost use Rattle.rule_plans.specs.Goals.{ok_value};
ghost use Rattle.rule_plans.specs.Within.{values_in};
ghost use Rattle.plan_search.specs.Putting.{Stays};
ghost use Rattle.plan_search.specs.Trying.{Try, tries};
ghost use Rattle.plan_search.specs.Steps.{plan_of, AreTerms, HaveTerms, RowsHaveTerms};
ghost use Rattle.plan_search.specs.Searching.{IsEntered, Opens, Turns, kept};

use crate::comparing::compares;
use crate::putting::{put, put_row};
use crate::rows::{count, listed, row_at};
use crate::steps::Step;
use crate::testing::BindingTest;
use fact_table::{Row, Tables};
use join_plans::Column;
use sqlite_items::Items;
use std::alloc::Global;
use tel_base::Memory;
use tel_term::{Expr, Symbols, Value, eval};

/// Where the search goes on: at a step, with the rows that it tries from a turn on.
#[derive(Clone, Copy)]
pub struct Frame<'t> {
    pub level: usize,
    pub listed: Option<&'t [u32]>,
    pub turn: usize,
}

/// The frame at the beginning of a step that tries no rows, or at the end.
fn first<'t>(level: usize) -> Frame<'t>
    ensures { result.level ≡ level }
{
    Frame {
        level,
        listed: None,
        turn: 0,
    }
}

/// The frame at the beginning of a step.
fn enter<'t>(
    tables: &'t Tables,
    symbols: &Symbols,
    steps: &[Step<'_>],
    level: usize,
    env: &[Value],
) -> Frame<'t>
    requires plan { IsPlan (replicate (length env.now) false) (plan_of tables.now symbols.now steps.now) }
    ensures { IsEntered (plan_of tables.now symbols.now steps.now) level env.now result }
{
    match steps.get(level) {
        Some(step) => match step {
            Step::Row(predicate, columns) => Frame {
                level,
                listed: listed(tables, *predicate, columns.as_slice(), env),
                turn: 0,
            },
            Step::Equal(_, _) => first(level),
            Step::Compare(_, _, _) => first(level),
        },
        None => first(level),
    }
}

/// Whether a column has the value of an expression, or gets it.
fn sets(env: &mut Items<Value>, column: Column, expr: &Expr) -> bool
    requires { place column < length env.old }
    ensures fits { result ≡ true → and_then (λ x. put column x env.old) (ok_value (expr_value env.old expr.now)) ≡ Some env.new }
    ensures other { result ≡ false → and_then (λ x. put column x env.old) (ok_value (expr_value env.old expr.now)) ≡ None }
    ensures len { length env.new ≡ length env.old }
    ensures stays { Stays (column ∷ []) env.old env.new }
    ensures terms { (symbols : List Term) → AreTerms symbols (values_in expr.now) → AreTerms symbols env.old → AreTerms symbols env.new }
{
    match eval(expr, env.as_slice()) {
        Ok(value) => put(env, column, value),
        Err(_) => false,
    }
}

/// Whether the row that a frame tries fits.
fn fits(rows: &[Row], columns: &[Column], frame: Frame<'_>, env: &mut Items<Value>) -> bool
    requires turn { frame.turn < length (tries rows.now (option_copied frame.listed)) }
    requires columns { All (λ c. place c < length env.old) columns.now }
    ensures fits { (row : Try) → slice_get (tries rows.now (option_copied frame.entry.listed)) frame.entry.turn ≡ Some row → result ≡ true → and_then (λ r. put_row columns.now r env.old) row ≡ Some env.new }
    ensures other { (row : Try) → slice_get (tries rows.now (option_copied frame.entry.listed)) frame.entry.turn ≡ Some row → result ≡ false → and_then (λ r. put_row columns.now r env.old) row ≡ None }
    ensures len { length env.new ≡ length env.old }
    ensures stays { Stays columns.now env.old env.new }
    ensures terms { (symbols : List Term) → ((row : List TermValue) → In row rows.now → AreTerms symbols row) → AreTerms symbols env.old → AreTerms symbols env.new }
{
    match row_at(rows, frame.listed, frame.turn) {
        Some(row) => put_row(env, columns, row.as_slice()),
        None => false,
    }
}

/// Puts the frame of the next step on the stack.
fn go_on<'t>(
    tables: &'t Tables,
    symbols: &Symbols,
    steps: &[Step<'_>],
    level: usize,
    env: &[Value],
    stack: &mut Items<Frame<'t>>,
) -> Result<(), Memory>
    requires plan { IsPlan (replicate (length env.now) false) (plan_of tables.now symbols.now steps.now) }
    requires level { level < length steps.now }
    ensures { OnOk result (Opens (plan_of tables.now symbols.now steps.now) level env.now stack.old stack.new) }
{
    let frame = enter(tables, symbols, steps, level + 1, env);
    stack.push(frame)?;
    Ok(())
}

/// Goes on at a frame at a row step.
fn turn_rows<'t>(
    tables: &'t Tables,
    symbols: &Symbols,
    steps: &[Step<'_>],
    env: &mut Items<Value>,
    stack: &mut Items<Frame<'t>>,
    frame: Frame<'t>,
    predicate: u32,
    columns: &[Column],
) -> Result<(), Memory>
    requires plan { IsPlan (replicate (length env.old) false) (plan_of tables.now symbols.now steps.now) }
    requires rows { RowsHaveTerms symbols.now tables.now }
    requires env { AreTerms symbols.now env.old }
    requires level { frame.level < length steps.now }
    requires step { slice_get (plan_of tables.now symbols.now steps.now) frame.level ≡ Some (plans.Row columns.now (rows_of tables.now predicate)) }
    ensures turns { OnOk result (Turns (plan_of tables.now symbols.now steps.now) frame.entry env.old env.new stack.old stack.new) }
    ensures env { AreTerms symbols.now env.new }
{
    let rows = tables.rows(predicate);
    if frame.turn >= count(rows, frame.listed) {
        return Ok(());
    }
    stack.push(Frame {
        level: frame.level,
        listed: frame.listed,
        turn: frame.turn + 1,
    })?;
    if !fits(rows, columns, frame, env) {
        return Ok(());
    }
    go_on(tables, symbols, steps, frame.level, env.as_slice(), stack)?;
    Ok(())
}

/// Goes on at a frame that isn't at the end.
fn turn<'t>(
    tables: &'t Tables,
    symbols: &Symbols,
    steps: &[Step<'_>],
    env: &mut Items<Value>,
    stack: &mut Items<Frame<'t>>,
    frame: Frame<'t>,
) -> Result<(), Memory>
    requires plan { IsPlan (replicate (length env.old) false) (plan_of tables.now symbols.now steps.now) }
    requires terms { HaveTerms symbols.now steps.now }
    requires rows { RowsHaveTerms symbols.now tables.now }
    requires env { AreTerms symbols.now env.old }
    requires level { frame.level < length steps.now }
    ensures turns { OnOk result (Turns (plan_of tables.now symbols.now steps.now) frame.entry env.old env.new stack.old stack.new) }
    ensures env { AreTerms symbols.now env.new }
{
    match &steps[frame.level] {
        Step::Row(predicate, columns) => {
            turn_rows(
                tables,
                symbols,
                steps,
                env,
                stack,
                frame,
                *predicate,
                columns.as_slice(),
            )?;
            Ok(())
        }
        Step::Equal(column, expr) => {
            if !sets(env, *column, expr) {
                return Ok(());
            }
            go_on(tables, symbols, steps, frame.level, env.as_slice(), stack)?;
            Ok(())
        }
        Step::Compare(relation, left, right) => {
            if !compares(symbols, *relation, left, right, env.as_slice()) {
                return Ok(());
            }
            go_on(tables, symbols, steps, frame.level, env.as_slice(), stack)?;
            Ok(())
        }
    }
}

/// Puts the first values of an environment at the end, if it passes the test.
fn keep<T: BindingTest>(
    alloc: Global,
    symbols: &Symbols,
    env: &[Value],
    vars: usize,
    test: &mut T,
    found: &mut Vec<Items<Value>>,
) -> Result<(), Memory>
    requires test { T.can_test test.old symbols.now (length env.now) }
    requires env { AreTerms symbols.now env.now }
    requires vars { vars ≤ length env.now }
    ensures kept { OnOk result (found.new.items ≡ found.old.items ++ kept (T.passes test.old symbols.now) vars (env.now ∷ [])) }
    ensures same { T.passes test.new ≡ T.passes test.old }
    ensures can { (terms : List Term) (places : ℕ) → T.can_test test.old terms places → T.can_test test.new terms places }
{
    if !test.passes(symbols, env) {
        return Ok(());
    }
    found.push(Items::from_slice(alloc, &env[..vars])?)?;
    Ok(())
}

/// The bindings of so many variables that a search by a plan finds, of those environments that pass a
/// test, in the order in which it finds them. It stops as soon as there are `most`.
pub fn search<T: BindingTest>(
    alloc: Global,
    tables: &Tables,
    symbols: &Symbols,
    steps: &[Step<'_>],
    env: Items<Value>,
    vars: usize,
    test: &mut T,
    most: usize,
) -> Result<Vec<Items<Value>>, Memory>
    requires plan { IsPlan (replicate (length env) false) (plan_of tables.now symbols.now steps.now) }
    requires terms { HaveTerms symbols.now steps.now }
    requires rows { RowsHaveTerms symbols.now tables.now }
    requires env { AreTerms symbols.now env }
    requires vars { vars ≤ length env }
    requires test { T.can_test test.old symbols.now (length env) }
    ensures { IfOk result (λ found. found.items ≡ map (take vars) (take most (filter (T.passes test.old symbols.now) (answers (plan_of tables.now symbols.now steps.now) env)))) }
{
    let mut env = env;
    let mut found = Vec::new(alloc);
    let mut stack = Items::new(alloc);
    stack.push(enter(tables, symbols, steps, 0, env.as_slice()))?;
    'walking: while let Some(frame) = stack.pop() {
        if found.len() >= most {
            return Ok(found);
        }
        if frame.level < steps.len() {
            turn(tables, symbols, steps, &mut env, &mut stack, frame)?;
        } else {
            keep(alloc, symbols, env.as_slice(), vars, test, &mut found)?;
        }
    }
    Ok(found)
}
