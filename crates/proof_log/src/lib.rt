//! The log of the search: a line for each length, and one for each clause that came to be held.
#![tactic(auto)]

mod laws;
mod line;
mod lists;
mod numbers;
mod pieces;
mod reading;
mod writing;

pub use laws::{one_line, one_place};
pub use line::{Kind, Line, LogFault};
pub use reading::read_line;
pub use writing::{write_clause, write_end, write_length, write_line, write_loop};
