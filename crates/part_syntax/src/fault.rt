use tel_base::Place;
use thiserror::Error;

/// Why texts could not be read, and the place at which their first fault stands.
#[derive(Clone, Copy, Debug, PartialEq, Eq, Error)]
pub enum ReadFault {
    /// No token begins at this byte, or a string or a block comment that begins there doesn't end.
    #[error("no token")]
    BadByte(Place),
    /// A number is above 2147483647.
    #[error("number out of range")]
    NumberRange(Place),
    /// This token opens more than 64 levels.
    #[error("too deep")]
    TooDeep(Place),
    /// The tokens of a text before this place begin some text, and together with the token there they
    /// begin none. At the end of a text, its tokens are none.
    #[error("syntax")]
    Syntax(Place),
    /// Want of memory.
    #[error("out of memory")]
    Memory,
}
