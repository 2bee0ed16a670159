use crate::terms::Value;
use sqlite_items::{Boxed, Items};

/// Addition or subtraction.
#[derive(Clone, Copy, PartialEq, Eq)]
pub enum SumOp {
    Plus,
    Minus,
}

/// Multiplication, division or remainder.
#[derive(Clone, Copy, PartialEq, Eq)]
pub enum ProductOp {
    Times,
    Divide,
    Remainder,
}

/// An expression. A variable is its number in its statement. A chain of sums or of products is one
/// node: its first operand, and the others from left to right, each behind its operator.
#[derive(Drop)]
pub enum Expr {
    Value(Value),
    Var(u32),
    Minus(Boxed<Expr>),
    Sum(Boxed<Expr>, Items<(SumOp, Expr)>),
    Product(Boxed<Expr>, Items<(ProductOp, Expr)>),
}
