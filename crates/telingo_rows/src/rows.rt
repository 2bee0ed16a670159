//! The rows of a table.
ghost use Rattle.std.specs.Prelude.{◌≤◌, IfOk};

use crate::names::{Name, name_of};
use row_tables::{Cause, Fault, Field, Value, in_line, joined, number, numbers, word, words};
use std::alloc::Global;

/// How many bytes the output has room for where a row doesn't say it.
const ROOM: u64 = 1_048_576;

/// What a call of `telingo` is given.
#[derive(Drop)]
pub struct Setting {
    pub words: Vec<String>,
    pub files: Vec<(String, Vec<u8>)>,
    /// How many bytes a read takes at most.
    pub read: usize,
    /// The numbers of the reads that fail, from 1.
    pub failed_reads: Vec<u64>,
    /// How many bytes a write takes at most.
    pub write: usize,
    /// The numbers of the writes that fail, from 1.
    pub failed_writes: Vec<u64>,
    /// How many bytes the output has room for.
    pub room: usize,
    ghost some_read: { 1 ≤ read },
    ghost some_written: { 1 ≤ write },
}

/// What a call of `telingo` gives.
#[derive(Drop, PartialEq, Eq)]
pub struct Outcome {
    pub status: u8,
    pub output: Vec<u8>,
}

/// A row, and the line in which it begins, from 1.
#[derive(Drop)]
pub struct Row {
    pub line: usize,
    pub setting: Setting,
    pub wanted: Outcome,
}

/// What is known of a row before its end.
#[derive(Drop)]
struct Draft {
    line: usize,
    words: Vec<String>,
    files: Vec<(String, Vec<u8>)>,
    read: Option<u64>,
    failed_reads: Option<Vec<u64>>,
    write: Option<u64>,
    failed_writes: Option<Vec<u64>>,
    room: Option<u64>,
    status: Option<u64>,
    output: Option<Vec<u8>>,
}

/// The name and the text of a file.
fn file(alloc: Global, values: &[Value]) -> Result<(String, Vec<u8>), Cause> {
    match values.split_first() {
        Some((name, text)) => Ok((word(alloc, name)?, joined(alloc, text)?)),
        None => Err(Cause::Values),
    }
}

/// Puts a value where there is none yet.
fn put<T: Drop>(place: &mut Option<T>, value: T) -> Result<(), Cause> {
    match place {
        Some(_) => Err(Cause::Twice),
        None => {
            *place = Some(value);
            Ok(())
        }
    }
}

/// How many bytes a call takes at most: all, where nothing is said.
fn portion(said: Option<u64>) -> Result<usize, Cause>
    ensures { IfOk result (λ most. 1 ≤ most) }
{
    match said {
        Some(0) => Err(Cause::Range),
        Some(most) => Ok(most as usize),
        None => Ok(usize::MAX),
    }
}

impl Draft {
    fn new(alloc: Global, line: usize, words: Vec<String>) -> Draft {
        Draft {
            line,
            words,
            files: Vec::new(alloc),
            read: None,
            failed_reads: None,
            write: None,
            failed_writes: None,
            room: None,
            status: None,
            output: None,
        }
    }

    /// Takes a field that isn't the first one of a row.
    fn add(&mut self, alloc: Global, name: Name, values: &[Value]) -> Result<(), Cause> {
        match name {
            Name::Words => Err(Cause::Twice),
            Name::File => {
                self.files.push(file(alloc, values)?)?;
                Ok(())
            }
            Name::Read => put(&mut self.read, number(values)?),
            Name::Write => put(&mut self.write, number(values)?),
            Name::Room => put(&mut self.room, number(values)?),
            Name::FailedReads => put(&mut self.failed_reads, numbers(alloc, values)?),
            Name::FailedWrites => put(&mut self.failed_writes, numbers(alloc, values)?),
            Name::Status => put(&mut self.status, number(values)?),
            Name::Output => put(&mut self.output, joined(alloc, values)?),
        }
    }

    /// The row, where nothing lacks.
    fn finish(self, alloc: Global) -> Result<Row, Cause> {
        let (Some(status), Some(output)) = (self.status, self.output) else {
            return Err(Cause::Lacking);
        };
        let Ok(status) = u8::try_from(status) else {
            return Err(Cause::Range);
        };
        Ok(Row {
            line: self.line,
            setting: Setting {
                words: self.words,
                files: self.files,
                read: portion(self.read)?,
                failed_reads: self.failed_reads.unwrap_or(Vec::new(alloc)),
                write: portion(self.write)?,
                failed_writes: self.failed_writes.unwrap_or(Vec::new(alloc)),
                room: self.room.unwrap_or(ROOM) as usize,
            },
            wanted: Outcome { status, output },
        })
    }
}

/// Adds the row of this draft, if there is one.
fn add_row(alloc: Global, rows: &mut Vec<Row>, draft: Option<Draft>) -> Result<(), Fault> {
    if let Some(draft) = draft {
        let line = draft.line;
        let row = in_line(line, draft.finish(alloc))?;
        in_line(line, rows.push(row).map_err(Cause::from))?;
    }
    Ok(())
}

/// The rows of a table of these fields, in order.
pub fn rows_of(alloc: Global, fields: &[Field]) -> Result<Vec<Row>, Fault> {
    let mut rows = Vec::new(alloc);
    let mut draft: Option<Draft> = None;
    for field in fields {
        let line = field.line;
        let values = field.values.as_slice();
        let name = in_line(line, name_of(field.name.as_slice()).ok_or(Cause::Name))?;
        match (name, &mut draft) {
            (Name::Words, _) => {
                add_row(alloc, &mut rows, draft.take())?;
                let words = in_line(line, words(alloc, values))?;
                draft = Some(Draft::new(alloc, line, words));
            }
            (_, Some(draft)) => in_line(line, draft.add(alloc, name, values))?,
            (_, None) => in_line(line, Err(Cause::Words))?,
        }
    }
    add_row(alloc, &mut rows, draft)?;
    Ok(rows)
}
