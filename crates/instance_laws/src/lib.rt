//! Laws of rows, instances and ranges: more rows than a limit are more instances, and whether there are more rows, or
//! a statement leaves the range of numbers, is decided. Definitions and laws, no code.
#![tactic(auto)]

mod laws;

pub use laws::{few_rows_or_more, rows_are_instances, some_or_none_leaves};
