//! The lengths that the modules of a program make are as the laws of the search ask.
#![tactic(auto)]

mod laws;

pub use laws::{composed_templates, ordered_sets, total_trails};
