//! Sets of numbers whose least one is found quickly.
ghost use Rattle.std.specs.Prelude.{◌≡◌, ◌==◌, ◌||◌, ℕ, false, OnOk, MatchOption};
ghost use Rattle.rule_settings.specs.Numbers.{is_in, IsLeast};

use std::alloc::Global;
use std::collections::BTreeSet;
use tel_base::Memory;

/// No numbers.
pub fn no_numbers(alloc: Global) -> BTreeSet<usize>
    ensures { (i : ℕ) → is_in result i ≡ false }
{
    BTreeSet::new(alloc)
}

/// Adds a number.
pub fn add_number(numbers: &mut BTreeSet<usize>, number: usize) -> Result<(), Memory>
    ensures { OnOk result ((i : ℕ) → is_in numbers.new i ≡ ((number == i) || is_in numbers.old i)) }
{
    match numbers.insert(number) {
        Ok(_) => Ok(()),
        Err(_) => Err(Memory),
    }
}

/// Takes the least number away, where there is one.
pub fn take_least(numbers: &mut BTreeSet<usize>) -> Option<usize>
    ensures { MatchOption result ((i : ℕ) → is_in numbers.old i ≡ false) (λ least. IsLeast numbers.old numbers.new least) }
{
    numbers.pop_first()
}
