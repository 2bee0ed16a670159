//! Which predicates of a program are tables, and which variables of its statements are bound.
#![tactic(auto)]

mod closure;
mod laws;
mod rules;
mod state;
mod tables;
mod unbound;
mod variables;

pub use laws::{one_first_unbound, order_of_settings, setting_equations};
pub use tables::Tables;
pub use unbound::first_unbound;
pub use variables::{collect_variables, whole_variable};
