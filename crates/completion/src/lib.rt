//! The clauses of a module: its completion.
#![tactic(auto)]

mod bodies;
mod laws;
mod lists;
mod modules;
mod ordering;
mod shapes;
mod supports;

pub use laws::{completion, stable_sets};
pub use modules::clauses;
