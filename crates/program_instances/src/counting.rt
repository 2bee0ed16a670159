//! How many nodes the instances of a rule have. A count that a `usize` can't hold counts as the greatest.
ghost use Rattle.std.specs.Prelude.{◌≡◌, map};
ghost use Rattle.std.specs.List.{sum, sum_by};
ghost use Rattle.program_theory.specs.Instances.{operator_count, item_operators, nots_operators, literal_nodes};
ghost use Rattle.program_instances.specs.Adding.{capped};

use tel_rule::{Formula, LitItem, Literal};

/// The operators and constants of a formula.
#[tactic(auto, using(crate::proofs::Counts::capped_sum))]
#[cycle(operators_of_formulas)]
fn formula_operators(formula: &Formula) -> usize
    ensures { result ≡ capped (operator_count formula.now) }
{
    match formula {
        Formula::Const(_) => 1,
        Formula::Atom(_) => 0,
        Formula::Unary(_, operand) => formula_operators(operand.get()).saturating_add(1),
        Formula::Binary(_, left, right) => {
            let first = formula_operators(left.get());
            let second = formula_operators(right.get());
            first.saturating_add(second).saturating_add(1)
        }
        Formula::Many(_, operands) => operators_below(operands.as_slice()).saturating_add(1),
    }
}

/// Those of these formulas together.
#[tactic(auto, using(crate::proofs::Counts::capped_sum))]
#[cycle(operators_of_formulas)]
fn operators_below(formulas: &[Formula]) -> usize
    ensures { result ≡ capped (sum (map operator_count formulas.now)) }
{
    let mut total: usize = 0;
    for formula in formulas {
        total = total.saturating_add(formula_operators(formula));
    }
    total
}

/// Those of what a literal speaks of.
fn item_operators(item: &LitItem) -> usize
    ensures { result ≡ capped (item_operators item.now) }
{
    match item {
        LitItem::Atom(_) => 0,
        LitItem::Tel(formula) => formula_operators(formula),
        LitItem::Compare(..) => 0,
    }
}

/// How many operators two `not` in front of it are.
fn nots_operators(item: &LitItem) -> usize
    ensures { result ≡ nots_operators item.now }
{
    match item {
        LitItem::Atom(atom) => { if 0 < atom.before { 2 } else { 1 } }
        LitItem::Tel(_) => 1,
        LitItem::Compare(..) => 0,
    }
}

/// How many nodes a literal of an instance has.
fn literal_nodes(literal: &Literal) -> usize
    ensures { result ≡ capped (literal_nodes literal.now) }
{
    let operators = item_operators(&literal.item);
    if literal.nots <= 1 {
        operators
    } else {
        operators.saturating_add(nots_operators(&literal.item))
    }
}

/// How many nodes a body has in each instance of its rule.
pub fn body_nodes(body: &[Literal]) -> usize
    ensures { result ≡ capped (sum_by literal_nodes body.now) }
{
    let mut total: usize = 0;
    for literal in body {
        total = total.saturating_add(literal_nodes(literal));
    }
    total
}
