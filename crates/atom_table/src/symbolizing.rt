//! The symbols of names, and the atoms whose names are symbols.
ghost use Rattle.std.specs.Prelude.{◌≡◌, map, slice_index_or, IfOk};
ghost use Rattle.atom_table.specs.Keys.{ground_by};
ghost use Rattle.atom_table.specs.Sorted.{Grows, IsNameAt, AreNames};

use crate::keys::Key;
use sqlite_items::Items;
use std::alloc::Global;
use tel_base::{Memory, Text};
use tel_rule::GroundAtom;
use tel_term::{Symbols, Term, Value};

/// The number of a name among the symbols, to which it is added where it is new.
fn name_symbol(alloc: Global, name: &Text, symbols: &mut Symbols) -> Result<u32, Memory>
    ensures number { IfOk result (λ number. IsNameAt symbols.new number name.now) }
    ensures grows { Grows symbols.old symbols.new }
{
    if symbols.len() == u32::MAX {
        return Err(Memory);
    }
    let copy = Text::from_slice(alloc, name.as_slice())?;
    match symbols.value(Term::Name(copy))? {
        Value::Sym(number) => Ok(number),
        Value::Num(_) => unreachable!(),
    }
}

/// The numbers of these names among the symbols, to which they are added where they are new.
pub fn name_symbols(
    alloc: Global,
    names: &[Text],
    symbols: &mut Symbols,
) -> Result<Vec<u32>, Memory>
    ensures numbers { IfOk result (λ numbers. AreNames symbols.new names.now numbers.items) }
    ensures grows { Grows symbols.old symbols.new }
{
    let mut numbers = Vec::new(alloc);
    for name in names {
        let number = name_symbol(alloc, name, symbols)?;
        numbers.push(number)?;
    }
    Ok(numbers)
}

/// The number at a place; past the end there is 0.
pub fn number_at(numbers: &[u32], place: u32) -> u32
    ensures { result ≡ slice_index_or numbers.now place 0 }
{
    match numbers.get(place as usize) {
        Some(number) => *number,
        None => 0,
    }
}

/// The atoms of these keys, where these are the symbols of their names.
pub fn ground_atoms(
    alloc: Global,
    keys: &[Key],
    numbers: &[u32],
) -> Result<Items<GroundAtom>, Memory>
    ensures { IfOk result (λ atoms. atoms ≡ map (ground_by numbers.now) keys.now) }
{
    let mut atoms = Vec::with_capacity(alloc, keys.len())?;
    for key in keys {
        let atom = GroundAtom {
            negative: key.negative,
            name: number_at(numbers, key.name),
            args: Items::from_slice(alloc, key.row.as_slice())?,
        };
        atoms.push(atom)?;
    }
    Ok(Items::from_vec(atoms))
}
