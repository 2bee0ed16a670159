//! The stable sets of the modules of a length are the temporal equilibrium models of that length.
#![tactic(auto)]

mod laws;

pub use laws::{closed_sets, model_clauses, nodes, sets_with_bodies, settled_modules, stable_sets};
