//! Keys of atoms, and the numbers of their names.
ghost use Rattle.std.specs.Prelude.{◌≡◌, ◌-◌, ◌^◌, ◌<◌, length, IfOk, OnOk, OnErr};
ghost use Rattle.std.specs.Str.{bytes_eq};
ghost use Rattle.indexmap.specs.IndexSet.{insert_key};
ghost use Rattle.atom_table.specs.Keys.{name_place};

use fact_table::Row;
use indexmap::IndexSet;
use std::alloc::Global;
use tel_base::{HashKey, Memory, Text};

/// An atom, whose name is the number of a name.
#[derive(Drop, PartialEq, Eq, Hash)]
pub struct Key {
    pub negative: bool,
    pub name: u32,
    pub row: Row,
}

/// The number of a name among these, to which it is added where it is new. Only then it is copied. Want of memory changes nothing.
pub fn add_name(
    alloc: Global,
    names: &mut IndexSet<Text, HashKey>,
    name: &Text,
) -> Result<u32, Memory>
    requires { length names.old.keys < 2 ^ 32 - 1 }
    ensures number { IfOk result (λ number. number ≡ name_place names.old.keys name.now) }
    ensures names { OnOk result (names.new.keys ≡ insert_key bytes_eq names.old.keys name.now) }
    ensures err { OnErr result (names.new.keys ≡ names.old.keys) }
{
    if let Some(number) = names.get_index_of(name) {
        return Ok(number as u32);
    }
    let copy = Text::from_slice(alloc, name.as_slice())?;
    match names.insert_full(copy) {
        Ok((number, _)) => Ok(number as u32),
        Err(_) => Err(Memory),
    }
}
