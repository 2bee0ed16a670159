//! The fields of a table: a name, and the values behind it in its line and in the lines that go on with them.

use crate::fault::{Cause, Fault, in_line};
use crate::values::{Value, add_values};
use std::alloc::Global;

/// A field, and the line in which it stands, from 1.
#[derive(Drop)]
pub struct Field {
    pub line: usize,
    pub name: Vec<u8>,
    pub values: Vec<Value>,
}

/// The field that a line begins.
fn field_of(alloc: Global, line: usize, bytes: &[u8]) -> Result<Field, Cause> {
    let end = bytes
        .iter()
        .take_while(|byte| !byte.is_ascii_whitespace())
        .count();
    let name = Vec::from_slice(alloc, &bytes[..end])?;
    let mut values = Vec::new(alloc);
    add_values(alloc, &mut values, &bytes[end..])?;
    Ok(Field { line, name, values })
}

/// Takes a line: it is empty, a comment, goes on with the values of the last field, or begins a field.
fn add_line(
    alloc: Global,
    fields: &mut Vec<Field>,
    line: usize,
    bytes: &[u8],
) -> Result<(), Cause> {
    match *bytes {
        [] | [b'#', ..] => Ok(()),
        [b'"' | b'0'..=b'9', ..] => match fields.last_mut() {
            Some(last) => add_values(alloc, &mut last.values, bytes),
            None => Err(Cause::First),
        },
        _ => {
            fields.push(field_of(alloc, line, bytes)?)?;
            Ok(())
        }
    }
}

/// The fields of a table, in order, or the first line that can't be read.
pub fn fields_of(alloc: Global, table: &[u8]) -> Result<Vec<Field>, Fault> {
    let mut fields = Vec::new(alloc);
    let mut line = 0usize;
    for bytes in table.split(|byte| *byte == b'\n') {
        line = line.saturating_add(1);
        in_line(line, add_line(alloc, &mut fields, line, bytes.trim_ascii()))?;
    }
    Ok(fields)
}
