//! The log of the search: what a valid log is, and the lines of the clauses that a search holds.
#![tactic(auto)]

mod fault;
mod laws;
mod writer;

pub use fault::ListFault;
pub use laws::{logs_are_alike, searched_lines};
pub use writer::{LineWriter, begin_length, end_length};
