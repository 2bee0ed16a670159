//! The values of arguments.
ghost use Rattle.std.specs.Prelude.{◌≡◌, IfOk};
ghost use Rattle.atom_table.specs.Collected.{value_under, args_under};

use fact_table::Row;
use std::alloc::Global;
use tel_base::Memory;
use tel_term::{Expr, Value, eval};

/// The value of an argument under a binding; one that has none counts as 0.
fn value_under(expr: &Expr, binding: &[Value]) -> Value
    ensures { result ≡ value_under binding.now expr.now }
{
    match eval(expr, binding) {
        Ok(value) => value,
        Err(_) => Value::Num(0),
    }
}

/// The values of arguments under a binding.
pub fn row_under(alloc: Global, args: &[Expr], binding: &[Value]) -> Result<Row, Memory>
    ensures { IfOk result (λ row. row ≡ args_under binding.now args.now) }
{
    let mut values = Vec::with_capacity(alloc, args.len())?;
    for arg in args {
        values.push(value_under(arg, binding))?;
    }
    Ok(Row::from_vec(values))
}

/// A row of these values.
pub fn copy_row(alloc: Global, values: &[Value]) -> Result<Row, Memory>
    ensures { IfOk result (λ row. row ≡ values.now) }
{
    let copy = Vec::from_slice(alloc, values)?;
    Ok(Row::from_vec(copy))
}
