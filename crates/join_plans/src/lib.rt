//! Plans of joins over rows: what a plan means, what a search by it finds, and that these are one.
//! Definitions and laws, no code but the kinds of columns.
#![tactic(auto)]

mod columns;
mod laws;

pub use columns::Column;
pub use laws::{found_bindings, goals_of_plans, met_faults, plans_of_atoms};
