//! Backjumping: a clause is added, and the trail goes back to the level at which the search goes on with it.
#![tactic(auto)]

mod holding;
mod laws;
mod levels;

pub use holding::{hold, hold_false, hold_learnt};
pub use laws::false_clauses;
