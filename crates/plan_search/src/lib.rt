//! The search by a plan over the rows of tables.
#![tactic(auto)]

mod comparing;
mod putting;
mod rows;
mod searching;
mod steps;
mod testing;

pub use comparing::compares;
pub use searching::search;
pub use steps::Step;
pub use testing::BindingTest;
