//! The clauses that a search holds, each with its kind, and what the unit rule derives from them.
#![tactic(auto)]

mod laws;
mod store;
#[cfg(test)]
mod tests;

pub use laws::{absorbed_clauses, closed_levels, unit_closure};
pub use store::{ClauseId, ClauseKind, Store};
