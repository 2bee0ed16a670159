//! The tables of a program with their rows.
#![tactic(auto)]

mod filling;
mod listing;
mod numbers;
mod tables;
mod values;
mod walking;

pub use filling::RowsFault;
pub use listing::push_rows;
pub use numbers::PredicateNumbers;
pub use tables::ProgramTables;
