//! A row: a call by its name, what it is given, and at its end what is wanted of it.

use crate::commands::{settled, stopped};
use crate::names::{Call, call_of};
use crate::outside::{
    Outside, keyed, put_in_full, put_in_slice, read_file, read_memory, read_plain, same_texts,
    written,
};
use crate::terms::{compared, evaluated, numbered};
use crate::tokens::{lexed, listed};
use crate::traces::printed;
use crate::trees::{expression, formula_of};
use row_tables::{Cause, Difference, Field, Value, quoted};
use std::alloc::Global;
use std::rt::Files;

/// What a call says of what it is given.
fn said<R: Files + Input>(
    alloc: Global,
    outside: &mut Outside<R>,
    call: Call,
    given: &[Value],
) -> Result<Vec<u8>, Cause> {
    match call {
        Call::Lex => lexed(alloc, given),
        Call::Tokens => listed(alloc, given),
        Call::Expr => expression(alloc, given),
        Call::Formula => formula_of(alloc, given),
        Call::Eval => evaluated(alloc, given),
        Call::Value => numbered(alloc, given),
        Call::Cmp => compared(alloc, given),
        Call::Settings => settled(alloc, given),
        Call::Stops => stopped(alloc, given),
        Call::Print => printed(alloc, given),
        Call::WriteWhole => written(alloc, given),
        Call::OutSink => put_in_slice(alloc, given),
        Call::FullSink => put_in_full(alloc, given),
        Call::FileSource => read_file(alloc, &mut outside.files, given),
        Call::MemSource => read_memory(alloc, &mut outside.texts, given),
        Call::PlainSource => read_plain(alloc, given),
        Call::HashKey => keyed(alloc, given),
        Call::SameText => same_texts(alloc, given),
    }
}

/// The difference between what is wanted and what comes, if there is one.
fn difference(alloc: Global, wanted: &[u8], came: &[u8]) -> Result<Option<Difference>, Cause> {
    if came == wanted {
        return Ok(None);
    }
    let wanted = quoted(alloc, wanted)?;
    let came = quoted(alloc, came)?;
    Ok(Some(Difference { wanted, came }))
}

/// The difference between what is wanted of a row and what comes, if there is one.
pub fn difference_of<R: Files + Input>(
    alloc: Global,
    outside: &mut Outside<R>,
    row: &Field,
) -> Result<Option<Difference>, Cause> {
    let Some((Value::Text(wanted), given)) = row.values.as_slice().split_last() else {
        return Err(Cause::Lacking);
    };
    let Some(call) = call_of(row.name.as_slice()) else {
        return Err(Cause::Name);
    };
    let came = said(alloc, outside, call, given)?;
    difference(alloc, wanted.as_slice(), came.as_slice())
}
