//! Lists of places, by number.
ghost use Rattle.std.specs.Prelude.{◌≡◌, ◌≢◌, ℕ, ◌+◌, ◌<◌, ◌≤◌, ◌∷◌, [], ◌++◌, length, slice_set, OnOk};
ghost use Rattle.fact_table.specs.Lists.{lists_of, list_at, room_at};

use std::alloc::Global;
use tel_base::Memory;

/// Puts an empty list at the end.
pub fn push_list(alloc: Global, lists: &mut Vec<Vec<u32>>) -> Result<(), Memory>
    ensures lists { (number : ℕ) → list_at (lists_of lists.new.items) number ≡ list_at (lists_of lists.old.items) number }
    ensures rooms { (number : ℕ) → room_at lists.old.items number ≤ room_at lists.new.items number }
    ensures kept { length lists.old.items ≤ length lists.new.items }
    ensures len { OnOk result (length lists.new.items ≡ length lists.old.items + 1) }
{
    match lists.push(Vec::new(alloc)) {
        Ok(()) => Ok(()),
        Err(_) => Err(Memory),
    }
}

/// Makes room for one place more in the list with this number, or changes nothing but perhaps the room.
pub fn reserve_at(lists: &mut Vec<Vec<u32>>, number: usize) -> Result<(), Memory>
    requires { number < length lists.old.items }
    ensures lists { lists_of lists.new.items ≡ lists_of lists.old.items }
    ensures len { length lists.new.items ≡ length lists.old.items }
    ensures rooms { (other : ℕ) → room_at lists.old.items other ≤ room_at lists.new.items other }
    ensures room { OnOk result (0 < room_at lists.new.items number) }
{
    let list = &mut lists[number];
    match list.reserve(1) {
        Ok(()) => Ok(()),
        Err(_) => Err(Memory),
    }
}

/// Puts a place at the end of the list with this number, in which there is room.
pub fn push_at(lists: &mut Vec<Vec<u32>>, number: usize, place: u32)
    requires inside { number < length lists.old.items }
    requires room { 0 < room_at lists.old.items number }
    ensures lists { lists_of lists.new.items ≡ slice_set (lists_of lists.old.items) number (list_at (lists_of lists.old.items) number ++ place ∷ []) }
    ensures len { length lists.new.items ≡ length lists.old.items }
    ensures rooms { (other : ℕ) → other ≢ number → room_at lists.new.items other ≡ room_at lists.old.items other }
{
    let list = &mut lists[number];
    match list.push(place) {
        Ok(()) => {}
        Err(_) => unreachable!(),
    }
}
