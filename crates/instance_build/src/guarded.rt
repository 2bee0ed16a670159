//! Which bodies have no arrow but below a `~`.
ghost use Rattle.std.specs.Prelude.{◌≡◌, map};
ghost use Rattle.std.specs.List.{list_all};
ghost use Rattle.tel_rule.specs.Nodes.{is_arrow};
ghost use Rattle.instance_build.specs.Guarded.{all_hold, is_guarded_formula, is_guarded_literal, is_guarded_body};

use tel_rule::{BinaryOp, Formula, Head, LitItem, Literal, UnaryOp};

/// Whether an operator is an arrow.
fn is_arrow(op: BinaryOp) -> bool
    ensures { result ≡ is_arrow op }
{
    match op {
        BinaryOp::Implies | BinaryOp::ImpliedBy | BinaryOp::Same => true,
        BinaryOp::Since | BinaryOp::Trigger | BinaryOp::Until | BinaryOp::Release => false,
    }
}

/// Whether each way from a formula down to an arrow passes a `~`.
#[cycle(guarded_formulas)]
fn is_guarded_formula(formula: &Formula) -> bool
    ensures { result ≡ is_guarded_formula formula.now }
{
    match formula {
        Formula::Const(_) => true,
        Formula::Atom(_) => true,
        Formula::Unary(UnaryOp::Not, _) => true,
        Formula::Unary(_, operand) => is_guarded_formula(operand.get()),
        Formula::Binary(op, left, right) => {
            !is_arrow(*op) && is_guarded_formula(left.get()) && is_guarded_formula(right.get())
        }
        Formula::Many(_, operands) => are_guarded_formulas(operands.as_slice()),
    }
}

/// Whether this holds of all of these formulas.
#[cycle(guarded_formulas)]
fn are_guarded_formulas(formulas: &[Formula]) -> bool
    ensures { result ≡ all_hold (map is_guarded_formula formulas.now) }
{
    for formula in formulas {
        if !is_guarded_formula(formula) {
            return false;
        }
    }
    true
}

/// Whether each way from what a literal without `not` speaks of down to an arrow passes a `~`.
fn is_guarded_literal(literal: &Literal) -> bool
    ensures { result ≡ is_guarded_literal literal.now }
{
    match &literal.item {
        LitItem::Tel(formula) => literal.nots != 0 || is_guarded_formula(formula),
        LitItem::Atom(_) | LitItem::Compare(..) => true,
    }
}

/// Whether this holds of each literal of a body.
fn are_guarded(body: &[Literal]) -> bool
    ensures { result ≡ list_all is_guarded_literal body.now }
{
    body.iter().all(is_guarded_literal)
}

/// Whether below a head each way from a formula without `not` down to an arrow passes a `~`; of the
/// body of a constraint it isn't asked. It takes time linear in the body.
pub fn is_guarded_body(head: &Head, body: &[Literal]) -> bool
    ensures { result ≡ is_guarded_body head.now body.now }
{
    match head {
        Head::Normal(_) | Head::Choice(_) => are_guarded(body),
        Head::None => true,
    }
}
