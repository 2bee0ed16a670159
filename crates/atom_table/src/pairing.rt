//! The pairs of a plain atom and its negative.
ghost use Rattle.std.specs.Prelude.{◌≡◌, ◌-◌, ◌^◌, ◌<◌, ◌++◌, length, IfOk, OnOk};
ghost use Rattle.std.specs.List.{list_any};
ghost use Rattle.std.specs.Option.{option_to_list, option_map};
ghost use Rattle.atom_table.specs.Keys.{is_negative, negative_key, key_pairs};

use crate::keys::Key;
use crate::rows::copy_row;
use indexmap::IndexSet;
use sqlite_items::Items;
use std::alloc::Global;
use tel_base::{HashKey, Memory};

/// The number of the negative of a plain atom among these, if it is there.
fn negative_of(
    alloc: Global,
    keys: &IndexSet<Key, HashKey>,
    key: &Key,
) -> Result<Option<u32>, Memory>
    requires { length keys.now.keys < 2 ^ 32 - 1 }
    ensures { IfOk result (λ number. number ≡ negative_key keys.now.keys key.now) }
{
    if key.negative {
        return Ok(None);
    }
    let row = copy_row(alloc, key.row.as_slice())?;
    let negative = Key {
        negative: true,
        name: key.name,
        row,
    };
    match keys.get_index_of(&negative) {
        Some(number) => Ok(Some(number as u32)),
        None => Ok(None),
    }
}

/// Puts the pair of an atom and its negative behind these pairs, if it has one there.
fn push_pair(pairs: &mut Vec<(u32, u32)>, plain: u32, negative: Option<u32>) -> Result<(), Memory>
    ensures { OnOk result (pairs.new.items ≡ pairs.old.items ++ option_to_list (option_map (λ number. (plain, number)) negative)) }
{
    if let Some(negative) = negative {
        pairs.push((plain, negative))?;
    }
    Ok(())
}

/// Whether some atom is negative.
fn has_negative(keys: &[Key]) -> bool
    ensures { result ≡ list_any is_negative keys.now }
{
    for key in keys {
        if key.negative {
            return true;
        }
    }
    false
}

/// The numbers of each plain atom and its negative, by the number of the plain one. Where no atom is negative nothing is looked up.
pub fn key_pairs(alloc: Global, keys: &IndexSet<Key, HashKey>) -> Result<Items<(u32, u32)>, Memory>
    requires { length keys.now.keys < 2 ^ 32 - 1 }
    ensures { IfOk result (λ pairs. pairs ≡ key_pairs keys.now.keys) }
{
    if !has_negative(keys.as_slice()) {
        return Ok(Items::new(alloc));
    }
    let mut pairs = Vec::new(alloc);
    for (plain, key) in keys.as_slice().iter().enumerate() {
        let negative = negative_of(alloc, keys, key)?;
        push_pair(&mut pairs, plain as u32, negative)?;
    }
    Ok(Items::from_vec(pairs))
}
