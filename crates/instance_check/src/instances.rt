//! Whether a binding makes an instance.
ghost use Rattle.std.specs.Prelude.{◌≡◌, map};
ghost use Rattle.tel_term.specs.Arithmetic.{expr_value};
ghost use Rattle.live_instances.specs.Instances.{has_value, head_exprs, item_exprs, compares, makes_instance};
ghost use Rattle.plan_search.specs.Steps.{AreTerms};
ghost use Rattle.instance_check.specs.Valued.{all_valued, formula_exprs, joined, body_exprs, all_compare, ItemHasTerms, BodyHasTerms};

use tel_rule::{Formula, Head, LitItem, Literal};
use tel_term::{Expr, Symbols, Value, eval};

/// Whether an expression has a value.
fn has_value(expr: &Expr, binding: &[Value]) -> bool
    ensures { result ≡ has_value (expr_value binding.now expr.now) }
{
    match eval(expr, binding) {
        Ok(_) => true,
        Err(_) => false,
    }
}

/// Whether each of these expressions has a value.
fn all_valued(exprs: &[Expr], binding: &[Value]) -> bool
    ensures { result ≡ all_valued binding.now exprs.now }
{
    for expr in exprs {
        if !has_value(expr, binding) {
            return false;
        }
    }
    true
}

/// Whether each expression of a formula has a value.
#[cycle(formulas)]
fn formula_valued(formula: &Formula, binding: &[Value]) -> bool
    ensures { result ≡ all_valued binding.now (formula_exprs formula.now) }
{
    match formula {
        Formula::Const(_) => true,
        Formula::Atom(atom) => all_valued(atom.args.as_slice(), binding),
        Formula::Unary(_, operand) => formula_valued(operand.get(), binding),
        Formula::Binary(_, left, right) => {
            formula_valued(left.get(), binding) && formula_valued(right.get(), binding)
        }
        Formula::Many(_, operands) => all_formulas_valued(operands.as_slice(), binding),
    }
}

#[cycle(formulas)]
fn all_formulas_valued(formulas: &[Formula], binding: &[Value]) -> bool
    ensures { result ≡ all_valued binding.now (joined (map formula_exprs formulas.now)) }
{
    for formula in formulas {
        if !formula_valued(formula, binding) {
            return false;
        }
    }
    true
}

fn head_valued(head: &Head, binding: &[Value]) -> bool
    ensures { result ≡ all_valued binding.now (head_exprs head.now) }
{
    match head {
        Head::Normal(atom) => all_valued(atom.args.as_slice(), binding),
        Head::Choice(atom) => all_valued(atom.args.as_slice(), binding),
        Head::None => true,
    }
}

fn item_valued(item: &LitItem, binding: &[Value]) -> bool
    ensures { result ≡ all_valued binding.now (item_exprs item.now) }
{
    match item {
        LitItem::Atom(atom) => all_valued(atom.args.as_slice(), binding),
        LitItem::Tel(formula) => formula_valued(formula, binding),
        LitItem::Compare(_, left, right) => has_value(left, binding) && has_value(right, binding),
    }
}

fn body_valued(body: &[Literal], binding: &[Value]) -> bool
    ensures { result ≡ all_valued binding.now (body_exprs body.now) }
{
    for literal in body {
        if !item_valued(&literal.item, binding) {
            return false;
        }
    }
    true
}

fn item_compares(symbols: &Symbols, item: &LitItem, binding: &[Value]) -> bool
    requires terms { ItemHasTerms symbols.now item.now }
    requires binding { AreTerms symbols.now binding.now }
    ensures { result ≡ compares symbols.now binding.now item.now }
{
    match item {
        LitItem::Atom(_) => true,
        LitItem::Tel(_) => true,
        LitItem::Compare(relation, left, right) => {
            plan_search::compares(symbols, *relation, left, right, binding)
        }
    }
}

fn body_compares(symbols: &Symbols, body: &[Literal], binding: &[Value]) -> bool
    requires terms { BodyHasTerms symbols.now body.now }
    requires binding { AreTerms symbols.now binding.now }
    ensures { result ≡ all_compare symbols.now binding.now body.now }
{
    for literal in body {
        if !item_compares(symbols, &literal.item, binding) {
            return false;
        }
    }
    true
}

/// Whether a binding makes an instance of a rule.
pub fn makes_instance(symbols: &Symbols, head: &Head, body: &[Literal], binding: &[Value]) -> bool
    requires terms { BodyHasTerms symbols.now body.now }
    requires binding { AreTerms symbols.now binding.now }
    ensures { result ≡ makes_instance symbols.now head.now body.now binding.now }
{
    head_valued(head, binding)
        && body_valued(body, binding)
        && body_compares(symbols, body, binding)
}
