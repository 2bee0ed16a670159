//! The text of the walker: a program of any size whose traces are known.
#![tactic(auto)]

mod walker;

pub use walker::generate;
