//! Unfounded sets of the rules under a trail, and their loop clauses.
#![tactic(auto)]

mod answering;
mod bodies;
mod bounds;
mod founded;
mod least_scan;
mod supported;
mod tables;
mod waits;

pub use founded::{Founded, LoopNogood};
pub use least_scan::LeastScan;
