//! The atoms of the instances of a program, each once, and their numbers in the order of atoms.
#![tactic(auto)]

mod comparing;
mod keys;
mod laws;
mod numbering;
mod pairing;
mod ranking;
mod rows;
mod seen;
mod sorting;
mod symbolizing;

pub use laws::{atoms_of_sets, numbers_of_atoms, values_of_arguments};
pub use numbering::{AtomNumbers, SortedAtoms};
pub use seen::AtomSet;
