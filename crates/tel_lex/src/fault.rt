use tel_base::Place;
use thiserror::Error;

/// Why the tokens of a file could not be had.
#[derive(Clone, Copy, Debug, PartialEq, Eq, Error)]
pub enum LexFault {
    /// No token begins at this byte, or a string or a block comment that begins there doesn't end.
    #[error("no token")]
    BadByte(Place),
    /// A number is above 2147483647.
    #[error("number out of range")]
    NumberRange(Place),
    /// Want of memory.
    #[error("out of memory")]
    Memory,
}
