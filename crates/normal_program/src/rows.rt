//! For each variable the numbers of the rules with this head.

ghost use Rattle.std.specs.Prelude.{◌≡◌, ◌<◌, ◌≤◌, ◌+◌, ◌^◌, ◌++◌, [], ℕ, List, OnOk, OnErr, length, take, vec_len, slice_index_or};
ghost use Rattle.normal_program.specs.Numbering.{id_at, ids_from};

use crate::rules::NRule;
use sqlite_items::Items;
use std::alloc::Global;
use tel_base::Memory;

/// Makes room for so many variables.
fn grow(alloc: Global, rows: &mut Vec<Items<usize>>, size: usize) -> Result<(), Memory>
    ensures rows { (var : ℕ) → slice_index_or rows.new.items var [] ≡ slice_index_or rows.old.items var [] }
    ensures size { OnOk result (size ≤ vec_len rows.new) }
{
    for _ in rows.len()..size {
        rows.push(Items::new(alloc))?;
    }
    Ok(())
}

/// Adds a rule with this number to those with its head. Want of memory changes nothing.
fn add_id(
    alloc: Global,
    rows: &mut Vec<Items<usize>>,
    head: Option<u32>,
    id: usize,
) -> Result<(), Memory>
    ensures ok { OnOk result ((var : ℕ) → slice_index_or rows.new.items var [] ≡ slice_index_or rows.old.items var [] ++ id_at id var head) }
    ensures err { OnErr result ((var : ℕ) → slice_index_or rows.new.items var [] ≡ slice_index_or rows.old.items var []) }
{
    if let Some(var) = head {
        grow(alloc, rows, var as usize + 1)?;
        rows[var as usize].push(id)?;
    }
    Ok(())
}

/// Takes the last rule away from those with its head.
fn remove_id(rows: &mut Vec<Items<usize>>, head: Option<u32>)
    ensures { (id var : ℕ) (before : List ℕ) → slice_index_or rows.old.items var [] ≡ before ++ id_at id var head → slice_index_or rows.new.items var [] ≡ before }
{
    if let Some(var) = head {
        if (var as usize) < rows.len() {
            let _ = rows[var as usize].pop();
        }
    }
}

/// Takes the first `count` of these rules away again.
fn remove_ids(rows: &mut Vec<Items<usize>>, rules: &[NRule], count: usize)
    requires count { count ≤ length rules.now }
    ensures { (before : ℕ → List ℕ) (first : ℕ) → ((var : ℕ) → slice_index_or rows.old.items var [] ≡ before var ++ ids_from first var (take count rules.now)) → (var : ℕ) → slice_index_or rows.new.items var [] ≡ before var }
{
    let mut left = count;
    while left > 0 {
        left -= 1;
        remove_id(rows, rules[left].head);
    }
}

/// Adds rules, numbered from `first` on. Want of memory changes nothing.
pub fn add_ids(
    alloc: Global,
    rows: &mut Vec<Items<usize>>,
    rules: &[NRule],
    first: usize,
) -> Result<(), Memory>
    requires small { first + length rules.now < 2 ^ 64 }
    ensures ok { OnOk result ((var : ℕ) → slice_index_or rows.new.items var [] ≡ slice_index_or rows.old.items var [] ++ ids_from first var rules.now) }
    ensures err { OnErr result ((var : ℕ) → slice_index_or rows.new.items var [] ≡ slice_index_or rows.old.items var []) }
{
    let mut count: usize = 0;
    for rule in rules {
        if let Err(refused) = add_id(alloc, rows, rule.head, first + count) {
            remove_ids(rows, rules, count);
            return Err(refused);
        }
        count += 1;
    }
    Ok(())
}
