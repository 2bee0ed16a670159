//! Prints traces to a sink, in the lines of the output. Nothing here takes memory: the pieces of a
//! line wait in a small buffer on the stack, and go out together.
#![tactic(auto)]

mod atoms;
mod lengths;
mod lines;
mod pieces;
mod printing;

pub use lengths::print_all;
pub use printing::{print_end, print_length, print_trace};
