//! Calls of what reads and writes.
ghost use Rattle.std.specs.Prelude.{◌≤◌};

use crate::shown::shown;
use row_tables::{Cause, Value, joined, word};
use std::alloc::Global;
use std::hash::BuildHasher;
use std::io;
use std::rt::Files;
use tel_base::{
    Failed, FileSource, HashKey, MemSink, MemSource, OutSink, PlainSource, Sink, Source, Text,
    write_whole,
};

/// The sources that stay from row to row.
#[derive(Drop)]
pub struct Outside<R: Files + Input> {
    /// The files of the system, and its standard input.
    pub files: FileSource<R>,
    /// Texts in memory.
    pub texts: MemSource,
}

/// Adds a text with its name.
fn add_text(
    alloc: Global,
    texts: &mut Vec<(String, Vec<u8>)>,
    name: &str,
    text: &[u8],
) -> Result<(), Cause> {
    let name = String::from_str(alloc, name)?;
    let text = Vec::from_slice(alloc, text)?;
    texts.push((name, text))?;
    Ok(())
}

/// The text `a`, an empty text `b`, and another text of the name `a`. The fourth read fails.
pub fn texts_in_memory(alloc: Global) -> Result<MemSource, Cause> {
    let mut texts = Vec::new(alloc);
    add_text(alloc, &mut texts, "a", b"one two")?;
    add_text(alloc, &mut texts, "b", b"")?;
    add_text(alloc, &mut texts, "a", b"three")?;
    let fails = vec![in alloc; 4]?;
    Ok(MemSource::new(texts, fails))
}

/// The bytes that a read gave, behind `gave `, or `failed`.
fn answer(alloc: Global, read: Result<usize, Failed>, into: &[u8]) -> Result<Vec<u8>, Cause> {
    match read {
        Ok(count) => {
            let mut out = Vec::from_slice(alloc, b"gave ")?;
            out.extend_from_slice(&into[..count.min(into.len())])?;
            Ok(out)
        }
        Err(Failed) => Ok(Vec::from_slice(alloc, b"failed")?),
    }
}

/// Reads at most four bytes of the file of this name, from this place on.
pub fn read_file<R: Files + Input>(
    alloc: Global,
    files: &mut FileSource<R>,
    given: &[Value],
) -> Result<Vec<u8>, Cause> {
    let [name, Value::Number(from)] = given else {
        return Err(Cause::Values);
    };
    let name = word(alloc, name)?;
    let mut into = [0; 4];
    let read = files.read(name.as_str(), *from, &mut into);
    answer(alloc, read, &into)
}

/// Reads at most so many bytes at the front of the text of this name in memory.
pub fn read_memory(
    alloc: Global,
    texts: &mut MemSource,
    given: &[Value],
) -> Result<Vec<u8>, Cause> {
    let [name, Value::Number(room)] = given else {
        return Err(Cause::Values);
    };
    let name = word(alloc, name)?;
    let mut into = [0; 16];
    let room = (*room as usize).min(16);
    let read = texts.read(name.as_str(), 0, &mut into[..room]);
    answer(alloc, read, &into)
}

/// Reads at most three bytes at the front of a text that every name has.
pub fn read_plain(alloc: Global, given: &[Value]) -> Result<Vec<u8>, Cause> {
    let mut source = PlainSource::new(joined(alloc, given)?);
    let mut into = [0; 3];
    let read = source.read("any", 0, &mut into);
    answer(alloc, read, &into)
}

/// Writes a whole text to a sink in memory, and gives whether it was written, and what the sink holds.
fn write_in(alloc: Global, sink: &mut MemSink, text: &[u8]) -> Result<Vec<u8>, Cause> {
    let whole = write_whole(sink, text).is_ok();
    let mut out = Vec::from_slice(alloc, if whole { b"whole " } else { b"front " })?;
    out.extend_from_slice(sink.bytes())?;
    Ok(out)
}

/// Writes a whole text to a sink in memory: its room, how many bytes a write takes at most, and the number of the write
/// that fails, stand before it.
pub fn written(alloc: Global, given: &[Value]) -> Result<Vec<u8>, Cause> {
    let [
        Value::Number(room),
        Value::Number(most),
        Value::Number(fails),
        Value::Text(text),
    ] = given
    else {
        return Err(Cause::Values);
    };
    if *most == 0 {
        return Err(Cause::Range);
    }
    let fails = vec![in alloc; *fails]?;
    let mut sink = MemSink::new(alloc, *room as usize, *most as usize, fails)?;
    write_in(alloc, &mut sink, text.as_slice())
}

/// Writes a text to a sink, and gives how many bytes the write took.
fn put<O: Sink>(alloc: Global, sink: &mut O, text: &[u8]) -> Result<Vec<u8>, Cause> {
    match sink.write(text) {
        Ok(count) => shown(format!(in alloc; "{count} ")),
        Err(Failed) => Ok(Vec::from_slice(alloc, b"failed ")?),
    }
}

/// Writes texts to a sink one after another.
fn put_each<O: Sink>(alloc: Global, sink: &mut O, given: &[Value]) -> Result<Vec<u8>, Cause> {
    let mut out = Vec::new(alloc);
    for value in given {
        let Value::Text(text) = value else {
            return Err(Cause::Values);
        };
        let taken = put(alloc, sink, text.as_slice())?;
        out.extend_from_slice(taken.as_slice())?;
    }
    Ok(out)
}

/// The same over a stream that has room for three bytes.
pub fn put_in_slice(alloc: Global, given: &[Value]) -> Result<Vec<u8>, Cause> {
    let mut space = [0; 3];
    put_each(alloc, &mut OutSink::new(space.as_mut_slice()), given)
}

/// A stream that is full.
#[derive(Drop)]
struct Full;

impl io::Write for Full {
    fn write(&mut self, _piece: &[u8]) -> io::Result<usize> {
        Err(io::Error::from(io::ErrorKind::StorageFull))
    }

    fn flush(&mut self) -> io::Result<()> {
        Ok(())
    }
}

/// The same over a stream that is full.
pub fn put_in_full(alloc: Global, given: &[Value]) -> Result<Vec<u8>, Cause> {
    put_each(alloc, &mut OutSink::new(Full), given)
}

/// The texts of a row.
fn texts_of(alloc: Global, given: &[Value]) -> Result<Vec<Text>, Cause> {
    let mut texts = Vec::new(alloc);
    for value in given {
        let Value::Text(text) = value else {
            return Err(Cause::Values);
        };
        texts.push(Text::from_slice(alloc, text.as_slice())?)?;
    }
    Ok(texts)
}

/// Whether the first text and the others are keys that hash alike.
pub fn keyed(alloc: Global, given: &[Value]) -> Result<Vec<u8>, Cause> {
    let texts = texts_of(alloc, given)?;
    let Some((first, others)) = texts.as_slice().split_first() else {
        return Err(Cause::Values);
    };
    let one = HashKey::of(std::slice::from_ref(first)).hash_one(7u64);
    let other = HashKey::of(others).hash_one(7u64);
    shown(format!(in alloc; "{}", one == other))
}

/// Whether two texts are equal, and how many bytes the first has.
pub fn same_texts(alloc: Global, given: &[Value]) -> Result<Vec<u8>, Cause> {
    let texts = texts_of(alloc, given)?;
    let [first, second] = texts.as_slice() else {
        return Err(Cause::Values);
    };
    let copy = Text::from_vec(Vec::from_slice(alloc, first.as_slice())?);
    let same = first == second;
    shown(format!(in alloc; "{same} {} {}", copy.len(), copy.is_empty()))
}
