//! The tokens of a text, with their places.
#![tactic(auto)]

mod bytes;
mod fault;
mod front;
mod places;
mod scan;
mod token;

pub use fault::LexFault;
pub use scan::{lex, one_reading, tokens};
pub use token::{Lexed, Token, TokenKind};
