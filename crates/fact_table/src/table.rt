//! The table of one predicate.
ghost use Rattle.std.specs.Prelude.{◌≡◌, ◌-◌, ◌^◌, ◌<◌, not, [], length, IfOk, OnOk, OnErr};
ghost use Rattle.fact_table.specs.Rows.{has_row, with_row, places_with};

use crate::columns::{Cell, Columns};
use crate::rows::Row;
use indexmap::IndexSet;
use std::alloc::Global;
use std::marker::Model;
use tel_base::{HashKey, Memory};
use tel_term::Value;

/// The rows of a predicate, each once, in the order in which they were first added. Contracts see their list.
#[derive(Drop)]
pub struct Table {
    rows: IndexSet<Row, HashKey>,
    columns: Columns,
}

impl Model for Table {
    ghost use Rattle.std.specs.Prelude.{List};
    ghost use Rattle.tel_term.specs.declared.terms.Value.{Value as TermValue};
    ghost use Rattle.fact_table.specs.Held.{IsHeld};

    ghost Value = { List (List TermValue) };

    ghost view = { λ table. table.rows.keys };

    ghost invariant = { λ table. IsHeld table.rows.keys table.columns };
}

impl Table {
    /// A table without rows. Its rows and values are hashed by this key. It takes no memory.
    pub fn new(alloc: Global, key: HashKey) -> Table
        ensures { result ≡ [] }
    {
        Table {
            rows: IndexSet::with_hasher(alloc, key),
            columns: Columns::new(alloc, key),
        }
    }

    /// The rows.
    pub fn rows(&self) -> &[Row]
        ensures { result.now ≡ self.now }
    {
        self.rows.as_slice()
    }

    /// The places of the rows with this value in this column.
    pub fn rows_with(&self, column: usize, value: Value) -> &[u32]
        ensures { result.now ≡ places_with self.now column value }
    {
        self.columns.places(Cell { column, value })
    }

    /// Adds a row, and says whether it is new. Want of memory changes nothing.
    pub fn add(&mut self, row: Row) -> Result<bool, Memory>
        requires { length self.old < 2 ^ 32 - 1 }
        ensures added { IfOk result (λ added. added ≡ not (has_row self.old row)) }
        ensures rows { OnOk result (self.new ≡ with_row self.old row) }
        ensures err { OnErr result (self.new ≡ self.old) }
    {
        if self.rows.contains(&row) {
            return Ok(false);
        }
        self.rows.reserve(1)?;
        self.columns.reserve_row(row.as_slice())?;
        let place = self.rows.len() as u32;
        self.columns.put_row(row.as_slice(), place);
        match self.rows.insert(row) {
            Ok(_) => Ok(true),
            Err(_) => unreachable!(),
        }
    }
}
