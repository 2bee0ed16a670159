use thiserror::Error;

/// Why no expression or formula could be read at a token. A number is the index of a token; it is
/// that of the last one plus 1 where the tokens end too early.
#[derive(Clone, Copy, Debug, PartialEq, Eq, Error)]
pub enum FormulaFault {
    /// The tokens before this one begin an expression or formula and are none; with it they begin
    /// none.
    #[error("syntax")]
    Syntax(usize),
    /// This token opens one level too many.
    #[error("too deep")]
    TooDeep(usize),
    /// Want of memory.
    #[error("out of memory")]
    Memory,
}
