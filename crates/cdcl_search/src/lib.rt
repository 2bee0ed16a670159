//! The conflict-driven search for the stable sets of a length, in the order of traces.
#![tactic(auto)]

mod adding;
mod advancing;
mod begun;
mod loops;
mod search;
mod steps;

pub use adding::vars_for;
pub use loops::LoopSet;
pub use search::Search;
pub use steps::Step;
