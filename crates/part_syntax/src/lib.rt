//! The program of texts, read from their tokens.
#![tactic(auto)]

mod facts;
mod fault;
mod files;
mod heads;
mod items;
mod laws;
mod literals;
mod reader;
mod texts;
mod words;

pub use fault::ReadFault;
pub use laws::one_program;
pub use reader::read;
