//! The instance of a rule, under any numbering of its atoms: a head, a body and nodes for the operators of its
//! formulas.
#![tactic(auto)]

mod growing;
mod guarded;
mod laws;
mod literals;
mod numbers;
mod rules;

pub use guarded::is_guarded_body;
pub use laws::{rows_guarded, rows_in_range, rows_mean, rules_guarded, rules_in_range, rules_mean};
pub use numbers::AtomNumbers;
pub use rules::build_rule;
