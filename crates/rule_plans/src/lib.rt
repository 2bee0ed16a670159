//! Plans of rules: what a plan for the table atoms, equations and comparisons of a rule may ask for, and
//! that a search by it finds the rule's live bindings. Definitions and laws, no code.
#![tactic(auto)]

mod laws;

pub use laws::plans_of_rules;
