//! The template of a program, from its live instances.
#![tactic(auto)]

mod building;
mod fault;
mod instantiating;
mod limits;
mod numbering;
mod showing;

pub use fault::GroundFault;
pub use instantiating::instantiate;
