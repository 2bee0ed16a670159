//! Whether a binding makes an instance of a rule.
#![tactic(auto)]

mod instances;

pub use instances::makes_instance;
