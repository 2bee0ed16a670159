//! Theories over ground atoms: their temporal equilibrium models, what is printed of them, and that a template which
//! means a theory lists and prints the same. Definitions and laws, no code.
#![tactic(auto)]

mod laws;

pub use laws::{lists_of_theories, order_of_atoms, prints_of_theories};
