//! What a program is asked before it is instantiated: its variables are bound, its arrows and primes
//! stand where they may, and its constants have values.
#![tactic(auto)]

mod checked;
mod checking;
mod faults;
mod formulas;
mod laws;
mod names;
mod statements;

pub use checked::{Checked, check};
pub use faults::CheckFault;
pub use laws::{one_first_cause, some_outcome};
pub use names::key_of;
