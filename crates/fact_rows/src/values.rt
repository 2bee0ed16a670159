//! The values of an argument of a fact.
ghost use Rattle.std.specs.Prelude.{◌≡◌, Ok};
ghost use Rattle.tel_semantics.specs.Tables.{arg_values, range_values};
ghost use Rattle.fact_rows.specs.Walking.{first_of, AreValues, IsNext};

use tel_rule::Arg;
use tel_term::{Value, eval};

/// The values of an argument: one, or the numbers from one to another that is no less.
#[derive(Clone, Copy)]
pub enum Values {
    One(Value),
    Range(i32, i32),
}

/// The numbers from one value to another, where both are numbers.
fn range_values(low: Value, high: Value) -> Option<Values>
    ensures { AreValues result (range_values (Ok low) (Ok high)) }
{
    match low {
        Value::Num(low) => match high {
            Value::Num(high) => {
                if low <= high {
                    Some(Values::Range(low, high))
                } else {
                    None
                }
            }
            Value::Sym(_) => None,
        },
        Value::Sym(_) => None,
    }
}

/// The values of an argument, where it has any.
pub fn arg_values(arg: &Arg) -> Option<Values>
    ensures { AreValues result (arg_values arg.now) }
{
    match arg {
        Arg::One(expr) => match eval(expr, &[]) {
            Ok(value) => Some(Values::One(value)),
            Err(_) => None,
        },
        Arg::Range(low, high) => {
            let low = match eval(low, &[]) {
                Ok(low) => low,
                Err(_) => return None,
            };
            let high = match eval(high, &[]) {
                Ok(high) => high,
                Err(_) => return None,
            };
            range_values(low, high)
        }
    }
}

impl Values {
    /// The first of them.
    pub fn first(self) -> Value
        ensures { result ≡ first_of self }
    {
        match self {
            Values::One(value) => value,
            Values::Range(low, _) => Value::Num(low),
        }
    }

    /// The one behind this one.
    pub fn next(self, now: Value) -> Option<Value>
        ensures { IsNext self now result }
    {
        match self {
            Values::One(_) => None,
            Values::Range(_, high) => match now {
                Value::Num(number) => {
                    if number < high {
                        Some(Value::Num(number + 1))
                    } else {
                        None
                    }
                }
                Value::Sym(_) => None,
            },
        }
    }
}
