//! The live instances of a program and their atoms, gathered statement by statement within a limit on the places of a state.
#![tactic(auto)]

mod adding;
mod counting;
mod fault;
mod gathering;
mod live;
mod statements;

pub use fault::GatherFault;
pub use gathering::{Gathered, gather};
