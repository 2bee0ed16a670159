//! Facts that leave the range of numbers.
ghost use Rattle.std.specs.Prelude.{◌≡◌, ◌∷◌, [], Ok};
ghost use Rattle.live_instances.specs.Reached.{first_fault, both_numbers, arg_computed, tuple_fault};
ghost use Rattle.range_faults.specs.Facts.{some_leaves};

use crate::faults::{fault_of, first_of, is_range};
use sqlite_items::Items;
use tel_rule::Arg;
use tel_term::{EvalFault, Value, eval};

/// The fault of the bounds of a range, which have to be numbers.
fn bounds_fault(low: Value, high: Value) -> Option<EvalFault>
    ensures { result ≡ first_fault (both_numbers (Ok low) (Ok high) ∷ []) }
{
    match low {
        Value::Num(_) => match high {
            Value::Num(_) => None,
            Value::Sym(_) => Some(EvalFault::Undefined),
        },
        Value::Sym(_) => Some(EvalFault::Undefined),
    }
}

/// The first fault of a range with these bounds.
fn range_fault(low: Result<Value, EvalFault>, high: Result<Value, EvalFault>) -> Option<EvalFault>
    ensures { result ≡ first_fault (low ∷ high ∷ both_numbers low high ∷ []) }
{
    match low {
        Ok(low) => match high {
            Ok(high) => bounds_fault(low, high),
            Err(fault) => Some(fault),
        },
        Err(fault) => Some(fault),
    }
}

/// The first fault of an argument.
fn arg_fault(arg: &Arg) -> Option<EvalFault>
    ensures { result ≡ first_fault (arg_computed arg.now) }
{
    match arg {
        Arg::One(expr) => fault_of(eval(expr, &[])),
        Arg::Range(low, high) => range_fault(eval(low, &[]), eval(high, &[])),
    }
}

/// The first fault of a tuple, from left to right.
#[tactic(auto, using(crate::proofs::FirstFaults::one_arg))]
fn tuple_fault(tuple: &[Arg]) -> Option<EvalFault>
    ensures { result ≡ tuple_fault tuple.now }
{
    let mut found = None;
    for arg in tuple {
        found = first_of(found, arg_fault(arg));
    }
    found
}

/// Whether the first fault of some tuple leaves the range of numbers.
pub fn some_leaves(tuples: &[Items<Arg>]) -> bool
    ensures { result ≡ some_leaves tuples.now }
{
    for tuple in tuples {
        if is_range(tuple_fault(tuple.as_slice())) {
            return true;
        }
    }
    false
}
