//! Clause learning: the first-UIP clause of a conflict, and the level to go back to.
#![tactic(auto)]

mod learning;
mod notes;

pub use learning::{Learnt, Scratch, learn};
