//! Arrows and primes in formulas.
ghost use Rattle.std.specs.Prelude.{◌≡◌, map};
ghost use Rattle.rule_check.specs.Causes.{is_not, is_arrow, any_holds, has_arrow, leads, trails, has_prime};

use tel_rule::{Atom, BinaryOp, Formula, UnaryOp};

fn is_not(op: UnaryOp) -> bool
    ensures { result ≡ is_not op }
{
    op == UnaryOp::Not
}

fn is_arrow(op: BinaryOp) -> bool
    ensures { result ≡ is_arrow op }
{
    match op {
        BinaryOp::Implies => true,
        BinaryOp::ImpliedBy => true,
        BinaryOp::Same => true,
        BinaryOp::Since => false,
        BinaryOp::Trigger => false,
        BinaryOp::Until => false,
        BinaryOp::Release => false,
    }
}

/// Whether an arrow stands in a formula with no `~` above it.
#[cycle(arrows)]
pub fn has_arrow(formula: &Formula) -> bool
    ensures { result ≡ has_arrow formula.now }
{
    match formula {
        Formula::Const(_) => false,
        Formula::Atom(_) => false,
        Formula::Unary(op, operand) => !is_not(*op) && has_arrow(operand.get()),
        Formula::Binary(op, left, right) => {
            is_arrow(*op) || has_arrow(left.get()) || has_arrow(right.get())
        }
        Formula::Many(_, operands) => any_has_arrow(operands.as_slice()),
    }
}

#[cycle(arrows)]
fn any_has_arrow(formulas: &[Formula]) -> bool
    ensures { result ≡ any_holds (map has_arrow formulas.now) }
{
    for formula in formulas {
        if has_arrow(formula) {
            return true;
        }
    }
    false
}

/// Whether an atom has a leading prime.
pub fn leads(atom: &Atom) -> bool
    ensures { result ≡ leads atom.now }
{
    atom.before != 0
}

/// Whether an atom has a trailing prime.
pub fn trails(atom: &Atom) -> bool
    ensures { result ≡ trails atom.now }
{
    atom.after != 0
}

/// Whether an atom of a formula has a prime.
#[cycle(primes)]
pub fn has_prime(formula: &Formula) -> bool
    ensures { result ≡ has_prime formula.now }
{
    match formula {
        Formula::Const(_) => false,
        Formula::Atom(atom) => leads(atom) || trails(atom),
        Formula::Unary(_, operand) => has_prime(operand.get()),
        Formula::Binary(_, left, right) => has_prime(left.get()) || has_prime(right.get()),
        Formula::Many(_, operands) => any_has_prime(operands.as_slice()),
    }
}

#[cycle(primes)]
fn any_has_prime(formulas: &[Formula]) -> bool
    ensures { result ≡ any_holds (map has_prime formulas.now) }
{
    for formula in formulas {
        if has_prime(formula) {
            return true;
        }
    }
    false
}
