//! The template of a small text, for the programs that try the engine and the search.
#![tactic(auto)]

mod templates;

pub use templates::template_of;
