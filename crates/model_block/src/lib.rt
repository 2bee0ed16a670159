//! The blocking clause of a found trace.
#![tactic(auto)]

mod blocking;

pub use blocking::block;
