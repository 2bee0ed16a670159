//! Sets of variables as tables.

ghost use Rattle.std.specs.Prelude.{◌≡◌, OnOk, false, replicate};
ghost use Rattle.unfounded_sets.specs.Least.{at};

use tel_base::Memory;

/// Whether a variable is in a set.
pub fn has(table: &[bool], var: u32) -> bool
    ensures { result ≡ at table.now var }
{
    match table.get(var as usize) {
        Some(yes) => *yes,
        None => false,
    }
}

/// Makes a table of so many variables, with none of them in it.
pub fn clear(table: &mut Vec<bool>, bound: usize) -> Result<(), Memory>
    ensures { OnOk result (table.new.items ≡ replicate bound false) }
{
    table.clear();
    table.resize(bound, false)?;
    Ok(())
}
