//! The literals that hold in a search, in the order of their assignment, with their levels and reasons.
#![tactic(auto)]

mod assignment;
#[cfg(test)]
mod tests;
mod trail;
mod unassigned;

pub use assignment::Entry;
pub use trail::Trail;
