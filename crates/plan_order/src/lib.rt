//! The order of the steps of a plan.
#![tactic(auto)]

mod goals;
mod laws;
mod marks;
mod ordering;
mod passing;
mod ranking;
mod taking;

pub use goals::Goal;
pub use laws::orders_of_rule_goals;
pub use ordering::order_goals;
