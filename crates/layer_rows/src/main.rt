//! `layer_rows`: tables of rows, each of which says a call of one layer, what it is given and what is wanted of it.
//!
//! The words are the names of tables. For each it prints the name and the number of rows, and before that each
//! row that differs. It ends with 1 where a row differs, or where a table can't be read.
#![tactic(auto)]

mod calls;
mod commands;
mod names;
mod outside;
mod prefix;
mod shown;
mod terms;
mod tokens;
mod traces;
mod trees;

use anyhow::{Context, Result, ensure};
use calls::difference_of;
use outside::{Outside, texts_in_memory};
use row_tables::{Field, in_line, table, tell};
use std::env;
use std::rt::Files;
use tel_base::FileSource;

/// Makes the calls of a table, and prints the rows that differ. It says how many do.
fn run<R: Files + Input>(
    rt: &HostRuntime,
    outside: &mut Outside<R>,
    name: &str,
    rows: &[Field],
) -> Result<usize> {
    let mut different = 0usize;
    for row in rows {
        let line = row.line;
        let found = in_line(line, difference_of(rt.alloc(), outside, row));
        if let Some(difference) = found.context(format_args!("{name}.rows"))? {
            tell(rt, name, line, &difference)?;
            different = different.saturating_add(1);
        }
    }
    Ok(different)
}

/// Runs the table of this name, and prints how many rows it has. It says how many differ.
fn run_table<R: Files + Input>(
    rt: &HostRuntime,
    outside: &mut Outside<R>,
    name: &str,
) -> Result<usize> {
    let rows = table(rt, name)?;
    let different = run(rt, outside, name, rows.as_slice())?;
    println!(rt; "{name}: {} rows", rows.len())?;
    Ok(different)
}

/// Runs the tables that the words name.
fn main(rt: HostRuntime) -> Result<()> {
    let mut outside = Outside {
        files: FileSource::new(rt.alloc(), &rt),
        texts: texts_in_memory(rt.alloc())?,
    };
    let mut different = 0usize;
    for name in env::args(&rt)?.skip(1) {
        different = different.saturating_add(run_table(&rt, &mut outside, name.as_str())?);
    }
    ensure!(different == 0, "{different} rows differ");
    Ok(())
}
