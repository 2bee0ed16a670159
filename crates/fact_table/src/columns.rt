//! Which places have a value in a column.
ghost use Rattle.std.specs.Prelude.{◌≡◌, ◌<◌, ◌++◌, [], false, length, OnOk};
ghost use Rattle.fact_table.specs.declared.columns.Cell.{Cell};
ghost use Rattle.fact_table.specs.Columns.{same_cell, places, with_place, if_in, AreListed, HasRoom, HaveRoom, Keeps};

use crate::lists::{push_at, push_list, reserve_at};
use indexmap::IndexSet;
use std::alloc::Global;
use tel_base::{HashKey, Memory};
use tel_term::Value;

/// A value in a column.
#[derive(Clone, Copy, PartialEq, Eq, Hash)]
pub struct Cell {
    pub column: usize,
    pub value: Value,
}

/// For each value in a column the places of the rows that have it. Cells are numbered in the order in
/// which they are first seen, and the list with a cell's number has its places.
#[derive(Drop)]
pub struct Columns {
    alloc: Global,
    cells: IndexSet<Cell, HashKey>,
    lists: Vec<Vec<u32>>,
}

impl Columns {
    /// No places. Cells are hashed by this key. It takes no memory.
    pub fn new(alloc: Global, key: HashKey) -> Columns
        ensures places { (cell : Cell) → places result cell ≡ [] }
        ensures listed { AreListed result }
    {
        Columns {
            alloc,
            cells: IndexSet::with_hasher(alloc, key),
            lists: Vec::new(alloc),
        }
    }

    /// The places of a cell.
    pub fn places(&self, cell: Cell) -> &[u32]
        requires { AreListed self.now }
        ensures { result.now ≡ places self.now cell }
    {
        match self.cells.get_index_of(&cell) {
            Some(number) => match self.lists.get(number) {
                Some(list) => list.as_slice(),
                None => &[],
            },
            None => &[],
        }
    }

    /// Makes a list for one cell more. The places stay.
    fn make_list(&mut self) -> Result<(), Memory>
        requires { AreListed self.old }
        ensures keeps { Keeps self.old self.new }
        ensures cells { self.new.cells ≡ self.old.cells }
        ensures more { OnOk result (length self.new.cells.keys < length self.new.lists.items) }
    {
        if self.cells.len() < self.lists.len() {
            return Ok(());
        }
        push_list(self.alloc, &mut self.lists)
    }

    /// Makes room for one place more of a cell. The places stay.
    fn reserve(&mut self, cell: Cell) -> Result<(), Memory>
        requires { AreListed self.old }
        ensures keeps { Keeps self.old self.new }
        ensures room { OnOk result (HasRoom self.new cell) }
    {
        self.make_list()?;
        let (number, _) = match self.cells.insert_full(cell) {
            Ok(found) => found,
            Err(_) => return Err(Memory),
        };
        reserve_at(&mut self.lists, number)
    }

    /// Puts a place at the end of those of a cell, for which there is room.
    fn put(&mut self, cell: Cell, place: u32)
        requires listed { AreListed self.old }
        requires room { HasRoom self.old cell }
        ensures listed { AreListed self.new }
        ensures places { (other : Cell) → places self.new other ≡ with_place cell place other (places self.old other) }
        ensures rooms { (other : Cell) → same_cell cell other ≡ false → HasRoom self.old other → HasRoom self.new other }
    {
        match self.cells.get_index_of(&cell) {
            Some(number) => push_at(&mut self.lists, number, place),
            None => unreachable!(),
        }
    }

    /// Makes room for one place more of each cell of a row. The places stay.
    pub fn reserve_row(&mut self, row: &[Value]) -> Result<(), Memory>
        requires { AreListed self.old }
        ensures keeps { Keeps self.old self.new }
        ensures room { OnOk result (HaveRoom self.new row.now 0 (length row.now)) }
    {
        for (column, value) in row.iter().enumerate() {
            self.reserve(Cell {
                column,
                value: *value,
            })?;
        }
        Ok(())
    }

    /// Puts a place at the end of those of each cell of a row, for which there is room.
    pub fn put_row(&mut self, row: &[Value], place: u32)
        requires listed { AreListed self.old }
        requires room { HaveRoom self.old row.now 0 (length row.now) }
        ensures listed { AreListed self.new }
        ensures places { (other : Cell) → places self.new other ≡ places self.old other ++ if_in row.now other place }
    {
        for (column, value) in row.iter().enumerate() {
            self.put(
                Cell {
                    column,
                    value: *value,
                },
                place,
            );
        }
    }
}
