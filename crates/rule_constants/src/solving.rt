//! Values of definitions, each found after those that it names.
ghost use Rattle.std.specs.Prelude.{◌≡◌, ◌≤◌, ◌<◌, true, false, length, take, is_some, slice_index_or, IfOk};
ghost use Rattle.rule_constants.specs.Constants.{needs_of, all_known, ok_value, defined_value, next_values};
ghost use Rattle.rule_constants.specs.Operands.{by_number};
ghost use Rattle.rule_constants.specs.Solving.{definition_needs, HasNone, IsSettled, Grows, Solves};

use crate::exprs::{has_variable, push_needs, replaced};
use sqlite_items::Items;
use std::alloc::Global;
use std::mem;
use tel_base::Memory;
use tel_rule::{Kind, Statement};
use tel_term::{EvalFault, Expr, Value, eval};

/// A definition whose value is looked for, the definitions that it names, and how many of these, from
/// the left, are known to have values.
#[derive(Drop)]
pub struct Step {
    pub definition: usize,
    pub needs: Items<usize>,
    pub next: usize,
}

fn is_known(known: &[Option<Value>], number: usize) -> bool
    ensures { result ≡ is_some (by_number known.now number) }
{
    if number < known.len() {
        known[number].is_some()
    } else {
        false
    }
}

// Whether a definition was tried; one that isn't there counts as tried.
fn was_tried(tried: &[bool], number: usize) -> bool
    ensures { result ≡ slice_index_or tried.now number true }
{
    if number < tried.len() {
        tried[number]
    } else {
        true
    }
}

// The place of the first definition without a known value, from a place on.
fn first_unknown(known: &[Option<Value>], needs: &[usize], from: usize) -> usize
    requires { from ≤ length needs.now }
    ensures within { result ≤ length needs.now }
    ensures known { all_known (by_number known.now) (take from needs.now) ≡ true → all_known (by_number known.now) (take result needs.now) ≡ true }
    ensures unknown { result < length needs.now → is_some (by_number known.now (slice_index_or needs.now result 0)) ≡ false }
{
    let mut next = from;
    while next < needs.len() {
        if !is_known(known, needs[next]) {
            return next;
        }
        next += 1;
    }
    next
}

fn step_of(
    alloc: Global,
    statements: &[Statement],
    links: &[Option<usize>],
    definition: usize,
) -> Result<Step, Memory>
    ensures definition { IfOk result (λ step. step.definition ≡ definition) }
    ensures needs { IfOk result (λ step. step.needs ≡ definition_needs statements.now links.now definition) }
    ensures next { IfOk result (λ step. step.next ≡ 0) }
{
    let mut needs = Vec::new(alloc);
    if let Some(statement) = statements.get(definition) {
        if let Kind::Const(_, expr) = &statement.kind {
            push_needs(links, expr, &mut needs)?;
        }
    }
    Ok(Step {
        definition,
        needs: Items::from_vec(needs),
        next: 0,
    })
}

fn ok_value(value: Result<Value, EvalFault>) -> Option<Value>
    ensures { result ≡ ok_value value }
{
    match value {
        Ok(value) => Some(value),
        Err(_) => None,
    }
}

// The value of a defining expression, where all that it names are known.
#[tactic(auto, using(crate::proofs::Rounds::defined_known))]
fn defined_value(
    alloc: Global,
    links: &[Option<usize>],
    known: &[Option<Value>],
    expr: &Expr,
) -> Result<Option<Value>, Memory>
    requires { all_known (by_number known.now) (needs_of links.now expr.now) ≡ true }
    ensures { IfOk result (λ value. value ≡ defined_value links.now (by_number known.now) expr.now) }
{
    if has_variable(expr) {
        return Ok(None);
    }
    let expr = replaced(alloc, links, known, expr)?;
    Ok(ok_value(eval(&expr, &[])))
}

// The value of a definition, where all that it names are known.
fn value_of(
    alloc: Global,
    statements: &[Statement],
    links: &[Option<usize>],
    known: &[Option<Value>],
    definition: usize,
) -> Result<Option<Value>, Memory>
    requires { all_known (by_number known.now) (definition_needs statements.now links.now definition) ≡ true }
    ensures { IfOk result (λ value. value ≡ next_values statements.now links.now (by_number known.now) definition) }
{
    match statements.get(definition) {
        Some(
            Statement {
                kind: Kind::Const(_, expr),
                ..
            },
        ) => {
            let value = defined_value(alloc, links, known, expr)?;
            Ok(value)
        }
        _ => Ok(None),
    }
}

/// Finds the value of a definition, after those of the definitions that it names, and so on. False,
/// where it has none.
pub fn solve(
    alloc: Global,
    statements: &[Statement],
    links: &[Option<usize>],
    known: &mut Vec<Option<Value>>,
    tried: &mut Vec<bool>,
    start: usize,
) -> Result<bool, Memory>
    requires settled { IsSettled statements.now links.now known.old.items tried.old.items }
    requires start { start < length statements.now }
    ensures { IfOk result (λ solved. Solves statements.now links.now known.old.items start solved known.new.items tried.new.items) }
{
    if is_known(known.as_slice(), start) {
        return Ok(true);
    }
    tried[start] = true;
    let mut top = step_of(alloc, statements, links, start)?;
    let mut below = Items::new(alloc);
    'solving: loop {
        top.next = first_unknown(known.as_slice(), top.needs.as_slice(), top.next);
        if top.next < top.needs.len() {
            let need = top.needs.as_slice()[top.next];
            if was_tried(tried.as_slice(), need) {
                return Ok(false);
            }
            tried[need] = true;
            let above = step_of(alloc, statements, links, need)?;
            below.push(mem::replace(&mut top, above))?;
        } else {
            let value = value_of(alloc, statements, links, known.as_slice(), top.definition)?;
            match value {
                Some(value) => known[top.definition] = Some(value),
                None => return Ok(false),
            }
            match below.pop() {
                Some(step) => top = step,
                None => return Ok(true),
            }
        }
    }
}
