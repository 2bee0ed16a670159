//! The rows of a tuple, one behind another.
ghost use Rattle.std.specs.Prelude.{◌≡◌, length, map, option_map, IfOk};
ghost use Rattle.tel_semantics.specs.Tables.{tuple_rows};
ghost use Rattle.fact_rows.specs.Walking.{first_of, AreFull, AreColumns, Turns};

use crate::values::{Values, arg_values};
use std::alloc::Global;
use tel_base::Memory;
use tel_rule::Arg;
use tel_term::Value;

/// The values of each argument of a tuple, where each has some.
pub fn columns_of(alloc: Global, tuple: &[Arg]) -> Result<Option<Vec<Values>>, Memory>
    ensures { IfOk result (λ found. AreColumns (option_map (λ columns. columns.items) found) (tuple_rows tuple.now)) }
{
    let mut columns = Vec::new(alloc);
    for arg in tuple {
        match arg_values(arg) {
            Some(values) => columns.push(values)?,
            None => return Ok(None),
        }
    }
    Ok(Some(columns))
}

/// The first row: the first value in each column.
pub fn first_row(alloc: Global, columns: &[Values]) -> Result<Vec<Value>, Memory>
    ensures { IfOk result (λ row. row.items ≡ map first_of columns.now) }
{
    let mut row = Vec::with_capacity(alloc, columns.len())?;
    for column in columns {
        row.push(column.first())?;
    }
    Ok(row)
}

/// Turns a row to the one behind it, and says whether there is one. The last column turns fastest.
pub fn turn(columns: &[Values], row: &mut [Value]) -> bool
    requires full { AreFull columns.now }
    requires long { length row.old ≡ length columns.now }
    ensures { Turns columns.now row.old row.new result }
{
    let mut place = columns.len();
    'turning: while place > 0 {
        place -= 1;
        match columns[place].next(row[place]) {
            Some(value) => {
                row[place] = value;
                return true;
            }
            None => row[place] = columns[place].first(),
        }
    }
    false
}
