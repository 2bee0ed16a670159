//! `telingo_rows`: tables of rows, each of which says the words, the files and the faults of a call of `telingo`,
//! and the status and the output that are wanted.
//!
//! The words are the names of tables. For each it prints the name and the number of rows, and before that each
//! row that differs. It ends with 1 where a row differs, or where a table can't be read.
#![tactic(auto)]

mod names;
mod portions;
mod rows;
mod running;

use anyhow::{Context, Result, ensure};
use row_tables::{table, tell};
use rows::{Row, rows_of};
use running::difference_of;
use std::env;

/// Runs these rows of a table, and prints those that differ. It says how many do.
fn run(rt: &HostRuntime, name: &str, rows: Vec<Row>) -> Result<usize> {
    let mut different = 0usize;
    for row in rows {
        let line = row.line;
        if let Some(difference) = difference_of(rt.alloc(), row)? {
            tell(rt, name, line, &difference)?;
            different = different.saturating_add(1);
        }
    }
    Ok(different)
}

/// Runs the table of this name, and prints how many rows it has. It says how many differ.
fn run_table(rt: &HostRuntime, name: &str) -> Result<usize> {
    let fields = table(rt, name)?;
    let rows = rows_of(rt.alloc(), fields.as_slice()).context(format_args!("{name}.rows"))?;
    let count = rows.len();
    let different = run(rt, name, rows)?;
    println!(rt; "{name}: {count} rows")?;
    Ok(different)
}

/// Runs the tables that the words name.
fn main(rt: HostRuntime) -> Result<()> {
    let mut different = 0usize;
    for name in env::args(&rt)?.skip(1) {
        different = different.saturating_add(run_table(&rt, name.as_str())?);
    }
    ensure!(different == 0, "{different} rows differ");
    Ok(())
}
