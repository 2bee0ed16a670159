//! The live bindings of a rule, by a plan that is made for it.
#![tactic(auto)]

mod binding;
mod planning;

pub use binding::rule_bindings;
