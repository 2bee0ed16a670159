//! Which instances the statements of a program have: bindings of their variables, those that are
//! live, those that are reached, and their order. Definitions and laws, no code.
#![tactic(auto)]

mod laws;

pub use laws::{live_bindings, one_outcome, order_of_bindings};
