//! Expressions and temporal formulas, read from tokens.
#![tactic(auto)]

mod atoms;
mod entry;
mod exprs;
mod fault;
mod formulas;
mod laws;
mod leaves;
mod literals;
mod marks;
mod names;
mod operators;
mod reading;
mod senses;
mod variables;

pub use atoms::{Signed, primes};
pub use entry::{expr, formula};
pub use fault::FormulaFault;
pub use laws::{one_answer, one_outcome, one_tree};
pub use literals::number_of;
pub use marks::Mark;
pub use names::Names;
pub use reading::{Reading, Stop};
pub use senses::{Sense, sense_of};
pub use variables::Variables;
