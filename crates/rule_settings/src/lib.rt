//! The setting equations of a rule, in their order, and the variables that the rows of its tables bind.
#![tactic(auto)]

mod candidates;
mod finding;
mod marks;
mod numbers;
mod rows;
mod state;
mod waiters;

pub use candidates::Setting;
pub use finding::find_settings;
pub use rows::{TableTest, mark_row_vars};
