//! Values of expressions.
ghost use Rattle.std.specs.Prelude.{◌≡◌, ℤ, Result};
ghost use Rattle.tel_term.specs.Arithmetic.{negated, summed, multiplied, applied, variable_value, chained, valued, expr_value};
ghost use Rattle.tel_term.specs.declared.arithmetic.EvalFault.{EvalFault};
ghost use Rattle.tel_term.specs.declared.terms.Value.{Value};

use crate::exprs::{Expr, ProductOp, SumOp};
use crate::terms::Value;

/// Why an expression has no value.
#[derive(Clone, Copy, PartialEq, Eq)]
pub enum EvalFault {
    /// An operation on a name or a string, or a division or a remainder by 0.
    Undefined,
    /// A result below -2147483648 or above 2147483647.
    Range,
}

/// The value of an expression, where each variable has the value at its number in the binding, and 0
/// past its end. Operands are computed from left to right before their operation, and the first
/// fault ends it.
#[cycle(evaluating)]
pub fn eval(expr: &Expr, binding: &[Value]) -> Result<Value, EvalFault>
    ensures { result ≡ expr_value binding.now expr.now }
{
    match expr {
        Expr::Value(value) => Ok(*value),
        Expr::Var(variable) => Ok(variable_value(binding, *variable)),
        Expr::Minus(inner) => negated(eval(inner.get(), binding)?),
        Expr::Sum(first, more) => {
            let first = eval(first.get(), binding);
            sum(first, more.as_slice(), binding)
        }
        Expr::Product(first, more) => {
            let first = eval(first.get(), binding);
            product(first, more.as_slice(), binding)
        }
    }
}

#[cycle(evaluating)]
fn sum(
    first: Result<Value, EvalFault>,
    more: &[(SumOp, Expr)],
    binding: &[Value],
) -> Result<Value, EvalFault>
    ensures { result ≡ chained summed first (valued binding.now more.now) }
{
    let mut value = first;
    for next in more {
        let operand = eval(&next.1, binding);
        value = applied(next.0, value, operand);
    }
    value
}

#[cycle(evaluating)]
fn product(
    first: Result<Value, EvalFault>,
    more: &[(ProductOp, Expr)],
    binding: &[Value],
) -> Result<Value, EvalFault>
    ensures { result ≡ chained multiplied first (valued binding.now more.now) }
{
    let mut value = first;
    for next in more {
        let operand = eval(&next.1, binding);
        value = applied(next.0, value, operand);
    }
    value
}

// An operation on two numbers.
trait Operation {
    ghost result_of: { Self → ℤ → ℤ → Result Value EvalFault };

    fn of(self, left: i32, right: i32) -> Result<Value, EvalFault>
        ensures { result ≡ result_of self left right };
}

impl Operation for SumOp {
    ghost result_of = { summed };

    fn of(self, left: i32, right: i32) -> Result<Value, EvalFault> {
        let sum = match self {
            SumOp::Plus => left.checked_add(right),
            SumOp::Minus => left.checked_sub(right),
        };
        match sum {
            Some(sum) => Ok(Value::Num(sum)),
            None => Err(EvalFault::Range),
        }
    }
}

impl Operation for ProductOp {
    ghost result_of = { multiplied };

    fn of(self, left: i32, right: i32) -> Result<Value, EvalFault> {
        if right == 0 && self != ProductOp::Times {
            return Err(EvalFault::Undefined);
        }
        let product = match self {
            ProductOp::Times => left.checked_mul(right),
            ProductOp::Divide => left.checked_div(right),
            // The least number over -1 leaves 0.
            ProductOp::Remainder => Some(left.checked_rem(right).unwrap_or(0)),
        };
        match product {
            Some(product) => Ok(Value::Num(product)),
            None => Err(EvalFault::Range),
        }
    }
}

// An operation on the values of its operands.
fn applied<O: Operation + Drop>(
    operation: O,
    left: Result<Value, EvalFault>,
    right: Result<Value, EvalFault>,
) -> Result<Value, EvalFault>
    ensures { result ≡ applied (O.result_of operation) left right }
{
    let left = left?;
    let right = right?;
    match left {
        Value::Num(left) => match right {
            Value::Num(right) => operation.of(left, right),
            Value::Sym(_) => Err(EvalFault::Undefined),
        },
        Value::Sym(_) => Err(EvalFault::Undefined),
    }
}

fn negated(value: Value) -> Result<Value, EvalFault>
    ensures { result ≡ negated value }
{
    match value {
        Value::Num(number) => match number.checked_neg() {
            Some(number) => Ok(Value::Num(number)),
            None => Err(EvalFault::Range),
        },
        Value::Sym(_) => Err(EvalFault::Undefined),
    }
}

fn variable_value(binding: &[Value], variable: u32) -> Value
    ensures { result ≡ variable_value binding.now variable }
{
    let place = variable as usize;
    if place < binding.len() {
        binding[place]
    } else {
        Value::Num(0)
    }
}
