//! The rows of a tuple, listed one behind another.
ghost use Rattle.std.specs.Prelude.{◌≡◌, ◌∷◌, ◌++◌, ◌+◌, ◌<◌, ◌≤◌, [], length, map, IfErr, OnOk};
ghost use Rattle.tel_semantics.specs.Tables.{choices, tuple_rows};
ghost use Rattle.fact_rows.specs.Walking.{all_of, AreFull};

use crate::filling::RowsFault;
use crate::values::Values;
use crate::walking::{columns_of, first_row, turn};
use sqlite_items::Items;
use std::alloc::Global;
use tel_base::Memory;
use tel_rule::Arg;
use tel_term::Value;

/// Puts a copy of a row behind others.
fn push_row(alloc: Global, row: &[Value], rows: &mut Vec<Items<Value>>) -> Result<(), Memory>
    ensures { OnOk result (rows.new.items ≡ rows.old.items ++ row.now ∷ []) }
{
    let copy = Items::from_slice(alloc, row)?;
    rows.push(copy)?;
    Ok(())
}

/// Puts the rows with these values in their columns behind others.
fn push_columns(
    alloc: Global,
    columns: &[Values],
    most: usize,
    rows: &mut Vec<Items<Value>>,
) -> Result<(), RowsFault>
    requires full { AreFull columns.now }
    requires most { length rows.old.items ≤ most }
    ensures pushed { OnOk result (rows.new.items ≡ rows.old.items ++ choices (map all_of columns.now)) }
    ensures few { OnOk result (length rows.new.items ≤ most) }
    ensures large { IfErr result (λ fault. fault ≡ RowsFault.Large → most < length rows.old.items + length (choices (map all_of columns.now))) }
{
    let mut row = first_row(alloc, columns)?;
    let mut more = true;
    'listing: while more {
        if rows.len() >= most {
            return Err(RowsFault::Large);
        }
        push_row(alloc, row.as_slice(), rows)?;
        more = turn(columns, row.as_mut_slice());
    }
    Ok(())
}

/// Puts the rows of a tuple of a fact behind others, the first argument slowest. `Large` says that there would be more than `most` with
/// them; no more than that are made.
pub fn push_rows(
    alloc: Global,
    tuple: &[Arg],
    most: usize,
    rows: &mut Vec<Items<Value>>,
) -> Result<(), RowsFault>
    requires { length rows.old.items ≤ most }
    ensures pushed { OnOk result (rows.new.items ≡ rows.old.items ++ tuple_rows tuple.now) }
    ensures few { OnOk result (length rows.new.items ≤ most) }
    ensures large { IfErr result (λ fault. fault ≡ RowsFault.Large → most < length rows.old.items + length (tuple_rows tuple.now)) }
{
    match columns_of(alloc, tuple)? {
        Some(columns) => push_columns(alloc, columns.as_slice(), most, rows),
        None => Ok(()),
    }
}
