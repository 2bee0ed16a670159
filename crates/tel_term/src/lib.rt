//! Terms and expressions: numbers, names, strings and arithmetic on them.
#![tactic(auto)]

mod arithmetic;
mod exprs;
mod laws;
mod order;
mod symbols;
mod terms;

pub use arithmetic::{EvalFault, eval};
pub use exprs::{Expr, ProductOp, SumOp};
pub use laws::{equal_terms, growing_tables, order_of_terms, values_of_terms};
pub use symbols::Symbols;
pub use terms::{Term, Value};
