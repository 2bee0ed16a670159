//! The constants of a program: which statement defines a name, which value it has, and the program
//! with its constants replaced by their values.
#![tactic(auto)]

mod constants;
mod exprs;
mod laws;
mod programs;
mod solving;

pub use constants::{Constants, ConstantsFault, find_constants};
pub use laws::values_of_constants;
pub use programs::statements as replaced_statements;
