//! The theory of all instances of a program has the same temporal equilibrium models as that of its live ones.
//! Definitions and laws, no code.
#![tactic(auto)]

mod laws;

pub use laws::{live_instances_suffice, models_of_all_instances};
