//! The theory of a program over ground atoms, read off its statements: what its live instances demand, and that its
//! template means it. Definitions and laws, no code.
#![tactic(auto)]

mod laws;

pub use laws::{one_theory, some_theory, templates_mean_theories};
