//! The semantics of temporal logic programs on finite traces: what a program's temporal equilibrium
//! models of a length are, how they are listed by the definition, and how they are printed.
#![tactic(auto)]

mod candidates;
mod ends;
mod judging;
mod laws;
mod listing;
mod satisfying;
mod walking;

pub use ends::How;
pub use judging::holds;
pub use laws::{
    agreement, equilibria, models, negation_there, nodes, operators, persistence, rising_list,
    table, two_nots,
};
pub use listing::plain_list;
