//! What is known of a program that was read and checked: its expressions speak of its own terms and variables, no literal
//! has more than two `not`, its variables are bound, its arrows guarded and its symbols a table. Definitions and laws, no code.
#![tactic(auto)]

mod laws;

pub use laws::{
    nots_of_programs, ready_programs, sound_programs, tables_of_programs, terms_of_programs,
};
