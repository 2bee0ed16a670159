//! Tables of rows, and which rows have a value in a column.
#![tactic(auto)]

mod columns;
mod lists;
mod rows;
mod table;
mod tables;

pub use rows::Row;
pub use tables::Tables;
