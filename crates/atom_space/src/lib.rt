//! The variables of the states of a program, and their numbers.
#![tactic(auto)]

mod laws;
mod space;

pub use laws::numbering;
pub use space::{AtomSpace, VarName};
