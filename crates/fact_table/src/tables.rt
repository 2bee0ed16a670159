//! The tables of all predicates.
ghost use Rattle.std.specs.Prelude.{◌≡◌, ◌≢◌, ℕ, ◌-◌, ◌^◌, ◌<◌, not, [], length, vec_len, IfOk, OnOk, OnErr};
ghost use Rattle.fact_table.specs.Rows.{rows_of, has_row, with_row, places_with};

use crate::rows::Row;
use crate::table::Table;
use std::alloc::Global;
use std::marker::Model;
use tel_base::{HashKey, Memory};
use tel_term::Value;

/// The rows of the tables, whose predicates are numbered from 0. Each row stands once, in the order in which it was
/// first added. Contracts see for each predicate the list of its rows. The key of its hashes changes no answer.
#[derive(Drop)]
pub struct Tables {
    alloc: Global,
    key: HashKey,
    tables: Vec<Table>,
}

impl Model for Tables {
    ghost use Rattle.std.specs.Prelude.{List};
    ghost use Rattle.tel_term.specs.declared.terms.Value.{Value as TermValue};

    ghost Value = { List (List (List TermValue)) };

    ghost view = { λ tables. tables.tables.items };
}

impl Tables {
    /// No rows, for values that nobody chose to collide. It takes no memory.
    pub fn new(alloc: Global) -> Tables
        ensures { (predicate : ℕ) → rows_of result predicate ≡ [] }
    {
        Tables::keyed(alloc, HashKey::of(&[]))
    }

    /// No rows. Those that come are hashed by this key. It takes no memory.
    pub fn keyed(alloc: Global, key: HashKey) -> Tables
        ensures { (predicate : ℕ) → rows_of result predicate ≡ [] }
    {
        Tables {
            alloc,
            key,
            tables: Vec::new(alloc),
        }
    }

    /// Makes a table for each predicate up to this one.
    fn reach(&mut self, predicate: usize) -> Result<(), Memory>
        ensures rows { (other : ℕ) → rows_of self.new other ≡ rows_of self.old other }
        ensures reached { OnOk result (predicate < length self.new) }
    {
        while self.tables.len() <= predicate {
            self.tables.push(Table::new(self.alloc, self.key))?;
        }
        Ok(())
    }

    /// Adds a row to those of a predicate, and says whether it is new. Predicates are to be numbered
    /// without gaps, since each number below takes memory. Want of memory changes nothing.
    pub fn add(&mut self, predicate: u32, row: Row) -> Result<bool, Memory>
        requires { length (rows_of self.old predicate) < 2 ^ 32 - 1 }
        ensures added { IfOk result (λ added. added ≡ not (has_row (rows_of self.old predicate) row)) }
        ensures rows { OnOk result (rows_of self.new predicate ≡ with_row (rows_of self.old predicate) row) }
        ensures others { (other : ℕ) → other ≢ predicate → rows_of self.new other ≡ rows_of self.old other }
        ensures err { OnErr result ((other : ℕ) → rows_of self.new other ≡ rows_of self.old other) }
    {
        let predicate = predicate as usize;
        self.reach(predicate)?;
        let table = &mut self.tables[predicate];
        table.add(row)
    }

    /// The rows of a predicate, each once, in the order in which they were first added.
    pub fn rows(&self, predicate: u32) -> &[Row]
        ensures { result.now ≡ rows_of self.now predicate }
    {
        match self.tables.get(predicate as usize) {
            Some(table) => table.rows(),
            None => &[],
        }
    }

    /// The places, from 0, of the rows of a predicate that have this value in this column. It is found by one hash.
    pub fn rows_with(&self, predicate: u32, column: u32, value: Value) -> &[u32]
        ensures { result.now ≡ places_with (rows_of self.now predicate) column value }
    {
        match self.tables.get(predicate as usize) {
            Some(table) => table.rows_with(column as usize, value),
            None => &[],
        }
    }
}
