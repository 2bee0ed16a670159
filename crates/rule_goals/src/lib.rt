//! The goals of a rule's body.
#![tactic(auto)]

mod adding;
mod body;
mod laws;
mod places;
mod rows;

pub use body::{RuleGoals, row_goals, rule_goals};
pub use laws::{goals_of_bodies, orders_of_bound_rules};
pub use rows::TableNumbers;
