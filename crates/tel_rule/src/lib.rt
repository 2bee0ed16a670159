//! Temporal logic programs, as they are read and as they are instantiated, and the traces that they
//! have.
#![tactic(auto)]

mod formulas;
mod ground;
mod laws;
mod names;
mod nodes;
mod parts;
mod statements;
mod traces;

pub use formulas::{Atom, BinaryOp, ConstOp, Formula, ManyOp, UnaryOp};
pub use ground::{BodyItem, BodyLit, GroundAtom, GroundHead, Instance, Show, Template};
pub use laws::rising_sets;
pub use names::{insert_name, place_of};
pub use nodes::{Kid, Node, NodeOp};
pub use parts::Part;
pub use statements::{
    Arg, Fact, Head, Kind, LitItem, Literal, Program, Relation, Signature, Statement,
};
pub use traces::Trace;
