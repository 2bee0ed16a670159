//! The sort of atoms.
ghost use Rattle.std.specs.Prelude.{◌≡◌, ◌↔◌, length, IfOk, OnOk, IsTrue, IsPermutation, IsSorted};
ghost use Rattle.std.specs.List.{list_all, IsDistinct};
ghost use Rattle.std.specs.Str.{bytes_eq};
ghost use Rattle.tel_base.specs.Members.{In};
ghost use Rattle.atom_table.specs.Named.{NamedAtom};
ghost use Rattle.atom_table.specs.Keys.{atoms_by, key_eq, key_rank_cmp, is_held, is_ranged};
ghost use Rattle.atom_table.specs.Sorted.{Grows, AreSorted};

use crate::comparing::compare_keys;
use crate::keys::Key;
use crate::ranking::symbol_ranks;
use crate::symbolizing::{ground_atoms, name_symbols};
use indexmap::IndexSet;
use sqlite_items::Items;
use std::alloc::Global;
use tel_base::{HashKey, Memory, Text};
use tel_rule::GroundAtom;
use tel_term::Symbols;

/// Puts keys into the order of their ranks. Want of memory changes nothing.
fn sort_keys(
    ranks: &[u32],
    numbers: &[u32],
    keys: &mut IndexSet<Key, HashKey>,
) -> Result<(), Memory>
    ensures sorted { OnOk result (IsSorted (key_rank_cmp ranks.now numbers.now) keys.new.keys) }
    ensures distinct { IsDistinct key_eq keys.new.keys }
    ensures moved { IsPermutation keys.old.keys keys.new.keys }
    ensures count { length keys.new.keys ≡ length keys.old.keys }
{
    match keys.sort_unstable_by(|a, b| compare_keys(ranks, numbers, a, b)) {
        Ok(()) => Ok(()),
        Err(_) => Err(Memory),
    }
}

/// Puts keys into the order of their atoms, gives the symbols their names, and tells the atoms over these.
pub fn arrange_keys(
    alloc: Global,
    symbols: &mut Symbols,
    names: &[Text],
    keys: &mut IndexSet<Key, HashKey>,
) -> Result<Items<GroundAtom>, Memory>
    requires distinct { IsDistinct bytes_eq names.now }
    requires held { IsTrue (list_all (is_held names.now) keys.old.keys) }
    requires ranged { IsTrue (list_all (is_ranged symbols.old) keys.old.keys) }
    ensures sorted { IfOk result (λ atoms. AreSorted symbols.new atoms (atoms_by names.now keys.new.keys)) }
    ensures grows { Grows symbols.old symbols.new }
    ensures members { OnOk result ((atom : NamedAtom) → In atom (atoms_by names.now keys.new.keys) ↔ In atom (atoms_by names.now keys.old.keys)) }
    ensures held { IsTrue (list_all (is_held names.now) keys.new.keys) }
    ensures count { length keys.new.keys ≡ length keys.old.keys }
{
    let numbers = name_symbols(alloc, names, symbols)?;
    let _count = symbols.len();
    let ranks = symbol_ranks(alloc, symbols)?;
    sort_keys(ranks.as_slice(), numbers.as_slice(), keys)?;
    let atoms = ground_atoms(alloc, keys.as_slice(), numbers.as_slice())?;
    Ok(atoms)
}
