//! Where a state may be the last one: its end, and the variables of the state after that it speaks of.
#![tactic(auto)]

mod ends;
mod occurring;
mod open;

pub use ends::{close, end_var};
pub use open::open_vars;
