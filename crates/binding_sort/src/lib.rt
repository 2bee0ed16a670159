//! Bindings in their order.
#![tactic(auto)]

mod comparing;
mod sorting;

pub use sorting::sort_bindings;
