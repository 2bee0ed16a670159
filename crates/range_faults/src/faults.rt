//! Faults of expressions.
ghost use Rattle.std.specs.Prelude.{◌≡◌, ◌∷◌, [], map};
ghost use Rattle.tel_term.specs.Arithmetic.{expr_value};
ghost use Rattle.live_instances.specs.Reached.{first_fault};
ghost use Rattle.range_faults.specs.Stops.{is_range};
ghost use Rattle.range_faults.specs.Facts.{first_of};
ghost use Rattle.range_faults.specs.Operations.{all_said};

use crate::operations::Operation;
use tel_term::{EvalFault, Value, eval};

/// The fault that stands in the place of a value.
pub fn fault_of(value: Result<Value, EvalFault>) -> Option<EvalFault>
    ensures { result ≡ first_fault (value ∷ []) }
{
    match value {
        Ok(_) => None,
        Err(fault) => Some(fault),
    }
}

/// The first fault, or else the later one.
pub fn first_of(first: Option<EvalFault>, later: Option<EvalFault>) -> Option<EvalFault>
    ensures { result ≡ first_of first later }
{
    match first {
        Some(fault) => Some(fault),
        None => later,
    }
}

/// Whether a fault leaves the range of numbers.
pub fn is_range(fault: Option<EvalFault>) -> bool
    ensures { result ≡ is_range fault }
{
    match fault {
        Some(fault) => match fault {
            EvalFault::Undefined => false,
            EvalFault::Range => true,
        },
        None => false,
    }
}

/// The first fault of operations, from left to right.
#[tactic(auto, using(crate::proofs::FirstFaults::one_fault))]
pub fn first_fault(operations: &[Operation<'_>], values: &[Value]) -> Option<EvalFault>
    ensures { result ≡ first_fault (map (expr_value values.now) (all_said operations.now)) }
{
    let mut found = None;
    for operation in operations {
        found = first_of(found, fault_of(eval(operation.expr, values)));
    }
    found
}
