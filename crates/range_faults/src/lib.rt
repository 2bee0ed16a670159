//! Which statement of a program leaves the range of numbers first, by a search over the rows of its tables.
#![tactic(auto)]

mod facts;
mod faults;
mod finding;
mod laws;
mod operations;
mod parting;
mod planning;
mod rules;
mod testing;

pub use finding::first_leaving;
pub use laws::ranges_of_rules;
