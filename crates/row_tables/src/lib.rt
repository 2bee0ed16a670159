//! Tables of rows: fields with their values, numbers and texts in quotes, as they stand in a file.
#![tactic(auto)]

mod fault;
mod fields;
mod quoting;
mod running;
mod taking;
mod values;

pub use fault::{Cause, Fault, in_line};
pub use fields::{Field, fields_of};
pub use quoting::quoted;
pub use running::{Difference, table, tell};
pub use taking::{joined, number, numbers, word, words};
pub use values::Value;
