//! The module of a state: what a program says of the state, over its numbered variables.
#![tactic(auto)]

mod bodies;
mod instances;
mod steps;

pub use steps::module;
