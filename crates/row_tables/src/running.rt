//! Reading a table from its file, and telling which of its rows differ.

use crate::fields::{Field, fields_of};
use anyhow::{Context, Result};
use std::fs;

/// What was wanted of a row and what came, as a table would say it.
#[derive(Drop)]
pub struct Difference {
    pub wanted: String,
    pub came: String,
}

/// The bytes of a file.
fn bytes_of(rt: &HostRuntime, file: &str) -> Result<Vec<u8>> {
    fs::read(rt, file).context(format_args!("reading {file}"))
}

/// The fields of the table of this name, read from its file.
pub fn table(rt: &HostRuntime, name: &str) -> Result<Vec<Field>> {
    let file = format!(in rt.alloc(); "{name}.rows")?;
    let bytes = bytes_of(rt, file.as_str())?;
    fields_of(rt.alloc(), bytes.as_slice()).context(format_args!("{file}"))
}

/// Prints what was wanted of the row in this line of a table, and what came.
pub fn tell(rt: &HostRuntime, name: &str, line: usize, difference: &Difference) -> Result<()> {
    let Difference { wanted, came } = difference;
    println!(rt; "{name}.rows:{line}: wanted {wanted}")?;
    println!(rt; "{name}.rows:{line}: came {came}")?;
    Ok(())
}
