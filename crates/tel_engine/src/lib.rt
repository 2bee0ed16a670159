//! The engine of a run: one search over all lengths of a program, which prints the traces of each length as they are found.
#![tactic(auto)]

mod ends;
mod engine;
mod printing;
mod stages;

pub use ends::{EngineFault, LengthEnd};
pub use engine::Engine;
pub use stages::Stage;
