//! The live bindings of a rule, by a plan of it.
#![tactic(auto)]

mod fault;
mod finding;
mod instances;

pub use fault::LiveFault;
pub use finding::find_live_bindings;
