//! What an expression rests on, and an expression with other values.
ghost use Rattle.std.specs.Prelude.{◌≡◌, ◌++◌, ◌||◌, map, OnOk, IfOk, slice_index_or, None};
ghost use Rattle.rule_constants.specs.Constants.{linked, needs_of, operand_lists, has_variable, some_operand, replacement, expr_replaced};
ghost use Rattle.rule_constants.specs.Operands.{each_needs, each_has_variable, each_replaced, by_number};

use sqlite_items::{Boxed, Items};
use std::alloc::Global;
use tel_base::Memory;
use tel_term::{Expr, ProductOp, SumOp, Value};

/// The definition that a value names.
pub fn linked(links: &[Option<usize>], value: Value) -> Option<usize>
    ensures { result ≡ linked links.now value }
{
    match value {
        Value::Num(_) => None,
        Value::Sym(symbol) => {
            let place = symbol as usize;
            if place < links.len() {
                links[place]
            } else {
                None
            }
        }
    }
}

/// Puts the definitions that an expression names, from left to right, behind others.
#[cycle(needing)]
pub fn push_needs(
    links: &[Option<usize>],
    expr: &Expr,
    needs: &mut Vec<usize>,
) -> Result<(), Memory>
    ensures { OnOk result (needs.new.items ≡ needs.old.items ++ needs_of links.now expr.now) }
{
    match expr {
        Expr::Value(value) => {
            if let Some(number) = linked(links, *value) {
                needs.push(number)?;
            }
            Ok(())
        }
        Expr::Var(_) => Ok(()),
        Expr::Minus(inner) => push_needs(links, inner.get(), needs),
        Expr::Sum(first, more) => {
            push_needs(links, first.get(), needs)?;
            push_sum_needs(links, more.as_slice(), needs)?;
            Ok(())
        }
        Expr::Product(first, more) => {
            push_needs(links, first.get(), needs)?;
            push_product_needs(links, more.as_slice(), needs)?;
            Ok(())
        }
    }
}

#[cycle(needing)]
fn push_sum_needs(
    links: &[Option<usize>],
    operands: &[(SumOp, Expr)],
    needs: &mut Vec<usize>,
) -> Result<(), Memory>
    ensures { OnOk result (needs.new.items ≡ needs.old.items ++ operand_lists (each_needs links.now operands.now)) }
{
    for operand in operands {
        push_needs(links, &operand.1, needs)?;
    }
    Ok(())
}

#[cycle(needing)]
fn push_product_needs(
    links: &[Option<usize>],
    operands: &[(ProductOp, Expr)],
    needs: &mut Vec<usize>,
) -> Result<(), Memory>
    ensures { OnOk result (needs.new.items ≡ needs.old.items ++ operand_lists (each_needs links.now operands.now)) }
{
    for operand in operands {
        push_needs(links, &operand.1, needs)?;
    }
    Ok(())
}

/// Whether a variable stands in an expression.
#[cycle(varying)]
pub fn has_variable(expr: &Expr) -> bool
    ensures { result ≡ has_variable expr.now }
{
    match expr {
        Expr::Value(_) => false,
        Expr::Var(_) => true,
        Expr::Minus(inner) => has_variable(inner.get()),
        Expr::Sum(first, more) => has_variable(first.get()) || some_in_sum(more.as_slice()),
        Expr::Product(first, more) => has_variable(first.get()) || some_in_product(more.as_slice()),
    }
}

#[cycle(varying)]
fn some_in_sum(operands: &[(SumOp, Expr)]) -> bool
    ensures { result ≡ some_operand (each_has_variable operands.now) }
{
    for operand in operands {
        if has_variable(&operand.1) {
            return true;
        }
    }
    false
}

#[cycle(varying)]
fn some_in_product(operands: &[(ProductOp, Expr)]) -> bool
    ensures { result ≡ some_operand (each_has_variable operands.now) }
{
    for operand in operands {
        if has_variable(&operand.1) {
            return true;
        }
    }
    false
}

/// What stands in place of a value under the values of definitions.
pub fn replacement(links: &[Option<usize>], known: &[Option<Value>], value: Value) -> Value
    ensures { result ≡ replacement links.now (by_number known.now) value }
{
    match linked(links, value) {
        Some(number) if number < known.len() => known[number].unwrap_or(value),
        _ => value,
    }
}

/// An expression with what stands in place of its values.
#[cycle(replacing)]
pub fn replaced(
    alloc: Global,
    links: &[Option<usize>],
    known: &[Option<Value>],
    expr: &Expr,
) -> Result<Expr, Memory>
    ensures { IfOk result (λ new. new ≡ expr_replaced (replacement links.now (by_number known.now)) expr.now) }
{
    match expr {
        Expr::Value(value) => Ok(Expr::Value(replacement(links, known, *value))),
        Expr::Var(variable) => Ok(Expr::Var(*variable)),
        Expr::Minus(inner) => {
            let inner = replaced(alloc, links, known, inner.get())?;
            Ok(Expr::Minus(Boxed::new(alloc, inner)?))
        }
        Expr::Sum(first, more) => {
            let first = replaced(alloc, links, known, first.get())?;
            let more = replaced_sum(alloc, links, known, more.as_slice())?;
            Ok(Expr::Sum(Boxed::new(alloc, first)?, more))
        }
        Expr::Product(first, more) => {
            let first = replaced(alloc, links, known, first.get())?;
            let more = replaced_product(alloc, links, known, more.as_slice())?;
            Ok(Expr::Product(Boxed::new(alloc, first)?, more))
        }
    }
}

#[cycle(replacing)]
fn replaced_sum(
    alloc: Global,
    links: &[Option<usize>],
    known: &[Option<Value>],
    operands: &[(SumOp, Expr)],
) -> Result<Items<(SumOp, Expr)>, Memory>
    ensures { IfOk result (λ new. new ≡ each_replaced (replacement links.now (by_number known.now)) operands.now) }
{
    let mut new = Items::new(alloc);
    for operand in operands {
        let next = replaced(alloc, links, known, &operand.1)?;
        new.push((operand.0, next))?;
    }
    Ok(new)
}

#[cycle(replacing)]
fn replaced_product(
    alloc: Global,
    links: &[Option<usize>],
    known: &[Option<Value>],
    operands: &[(ProductOp, Expr)],
) -> Result<Items<(ProductOp, Expr)>, Memory>
    ensures { IfOk result (λ new. new ≡ each_replaced (replacement links.now (by_number known.now)) operands.now) }
{
    let mut new = Items::new(alloc);
    for operand in operands {
        let next = replaced(alloc, links, known, &operand.1)?;
        new.push((operand.0, next))?;
    }
    Ok(new)
}
