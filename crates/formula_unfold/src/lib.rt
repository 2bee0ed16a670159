//! What the variable of a node hangs on at a state.
//!
//! Each temporal operator is unfolded by its own law: an operator of the past by the state before, one of
//! the future by the state after.
#![tactic(auto)]

mod nodes;
mod operators;

pub use nodes::unfold;
