//! What the fields of a row say.

/// What a field says.
#[derive(Clone, Copy)]
pub enum Name {
    /// The words of the command. A row begins with them.
    Words,
    /// The name of a file, and its text.
    File,
    /// How many bytes a read takes at most.
    Read,
    /// How many bytes a write takes at most.
    Write,
    /// How many bytes the output has room for.
    Room,
    /// The numbers of the reads that fail.
    FailedReads,
    /// The numbers of the writes that fail.
    FailedWrites,
    /// The status that is wanted.
    Status,
    /// The output that is wanted.
    Output,
}

/// The name that a word says.
pub fn name_of(word: &[u8]) -> Option<Name> {
    match word {
        b"words" => Some(Name::Words),
        b"file" => Some(Name::File),
        b"read" => Some(Name::Read),
        b"write" => Some(Name::Write),
        b"room" => Some(Name::Room),
        b"failed_reads" => Some(Name::FailedReads),
        b"failed_writes" => Some(Name::FailedWrites),
        b"status" => Some(Name::Status),
        b"output" => Some(Name::Output),
        _ => None,
    }
}
