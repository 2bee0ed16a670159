//! Normal programs over numbered variables, with choices and constraints, in the modules of which a
//! program of some length is put together.
#![tactic(auto)]

mod copies;
mod ground;
mod marks;
mod modules;
mod rows;
mod rules;
mod shapes;

pub use ground::Ground;
pub use modules::{BodyDef, BodyHead, ModuleParts, StepModule};
pub use rules::{NRule, make_rule};
pub use shapes::{NodeRule, Shape, rules_of};
