use crate::fault::LexFault;
use tel_base::Place;

/// What kind of token it is.
#[derive(Clone, Copy, PartialEq, Eq)]
pub enum TokenKind {
    /// A lower-case letter, then letters, digits and `_`.
    Name,
    /// Any number of `_`, then an upper-case letter, then letters, digits and `_`.
    Variable,
    /// `_`, where no variable begins.
    Blank,
    /// One or more digits.
    Number,
    /// A string in quotes.
    Str,
    /// `#program`, `#const` or `#show`.
    Hash,
    /// A sign of punctuation or an operator.
    Sign,
}

/// A token: its kind, its bytes, which are a part of the text, and the place of the first of them.
#[derive(Clone, Copy)]
pub struct Token<'a> {
    pub kind: TokenKind,
    pub text: &'a [u8],
    pub place: Place,
}

/// The tokens of a file before its first lexical fault, that fault, which is never want of memory,
/// and the place after the last byte.
#[derive(Drop)]
pub struct Lexed<'a> {
    pub tokens: Vec<Token<'a>>,
    pub fault: Option<LexFault>,
    pub end: Place,
}
