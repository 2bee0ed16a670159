//! The lines of the log.
use sqlite_items::Items;
use tel_base::{Clause, Memory};
use thiserror::Error;

/// A line of the log. A variable is one less than the number that is written for it.
///
/// It has the form of a line where its lengths are at least 1, its clause and its set aren't empty,
/// and the variables of each strictly rise and are below 4294967295.
#[derive(Drop)]
pub enum Line {
    /// A length begins.
    Length(u32),
    /// A clause of the module that the length adds.
    Module(Clause),
    /// A loop clause, with the unfounded set that it is of and the first atom of that set.
    Loop {
        atom: u32,
        set: Items<u32>,
        clause: Clause,
    },
    /// A clause that was learnt from a conflict.
    Learnt(Clause),
    /// A clause that blocks a trace.
    Block(Clause),
    /// A length is complete.
    End(u32),
}

/// The kinds of lines that have a clause alone.
#[derive(Clone, Copy, PartialEq, Eq)]
pub enum Kind {
    /// `m`, a clause of a module.
    Module,
    /// `r`, a learnt clause.
    Learnt,
    /// `b`, a clause that blocks a trace.
    Block,
}

/// Why no line was read.
#[derive(Clone, Copy, Debug, PartialEq, Eq, Error)]
pub enum LogFault {
    /// No line stands there, and this is the place of the first byte that no line allows there.
    /// Where the bytes end before a line does, it is their end.
    #[error("no line of the log")]
    Syntax(usize),
    /// Want of memory.
    #[error("out of memory")]
    Memory,
}

impl From<Memory> for LogFault {
    fn from(_: Memory) -> LogFault {
        LogFault::Memory
    }
}
