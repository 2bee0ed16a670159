//! Unit propagation: what the held clauses imply under a trail.
#![tactic(auto)]

mod examining;
mod unit_rule;

pub use unit_rule::{Propagated, propagate};
