//! Why a table can't be read.
ghost use Rattle.std.specs.Prelude.{◌≡◌, MatchResult, Ok, Err};

use std::alloc::{AllocError, AllocFailed};
use tel_base::Memory;
use thiserror::Error;

/// What is wrong with a line of a table.
#[derive(Clone, Copy, Debug, Error)]
pub enum Cause {
    /// The line begins with no name of a field.
    #[error("no field has this name")]
    Name,
    /// Something is no number and no text.
    #[error("a value is a number, or a text in quotes")]
    Value,
    /// A text has no quote at its end.
    #[error("a text has no end")]
    Quote,
    /// A backslash stands before something else than an escape.
    #[error("no such escape")]
    Escape,
    /// A number is out of range.
    #[error("a number is out of range")]
    Range,
    /// The field takes other values.
    #[error("the field takes other values")]
    Values,
    /// A word or the name of a file is not UTF-8.
    #[error("a word or a name is not UTF-8")]
    Utf8,
    /// The row has this field already.
    #[error("the field stands twice in its row")]
    Twice,
    /// The table begins with a value.
    #[error("a table begins with the name of a field")]
    First,
    /// The first row begins with another field than its words.
    #[error("a row begins with its words")]
    Words,
    /// The row ends without a status or without an output.
    #[error("the row lacks a status or an output")]
    Lacking,
    /// Want of memory.
    #[error("out of memory")]
    Memory,
}

impl From<AllocError> for Cause {
    fn from(_: AllocError) -> Cause {
        Cause::Memory
    }
}

impl<T: Drop> From<AllocFailed<T>> for Cause {
    fn from(_: AllocFailed<T>) -> Cause {
        Cause::Memory
    }
}

impl From<Memory> for Cause {
    fn from(_: Memory) -> Cause {
        Cause::Memory
    }
}

/// A line of a table that can't be read, counted from 1.
#[derive(Clone, Copy, Debug, Error)]
#[error("line {line}: {cause}")]
pub struct Fault {
    pub line: usize,
    pub cause: Cause,
}

/// The same, where a line is known for the fault.
pub fn in_line<T>(line: usize, read: Result<T, Cause>) -> Result<T, Fault>
    ensures { MatchResult result (λ value. read ≡ Ok value) (λ fault. (read ≡ Err fault.cause) × (fault.line ≡ line)) }
{
    match read {
        Ok(value) => Ok(value),
        Err(cause) => Err(Fault { line, cause }),
    }
}
