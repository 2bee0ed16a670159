//! Values put to columns.
ghost use Rattle.std.specs.Prelude.{◌≡◌, ◌<◌, ◌∷◌, [], Bool, true, false, length, Some, None};
ghost use Rattle.std.specs.List.{All, list_all};
ghost use Rattle.tel_term.specs.declared.terms.Value.{Value as TermValue};
ghost use Rattle.tel_rule.specs.Atoms.{value_eq};
ghost use Rattle.join_plans.specs.Join.{put, put_row, place};
ghost use Rattle.plan_search.specs.Putting.{Stays};

use join_plans::Column;
use sqlite_items::Items;
use tel_term::Value;

fn is_same(a: Value, b: Value) -> bool
    ensures { result ≡ value_eq a b }
{
    match a {
        Value::Num(m) => match b {
            Value::Num(n) => m == n,
            Value::Sym(_) => false,
        },
        Value::Sym(m) => match b {
            Value::Num(_) => false,
            Value::Sym(n) => m == n,
        },
    }
}

/// Puts a value to a column, and says whether it fits.
pub fn put(env: &mut Items<Value>, column: Column, value: Value) -> bool
    requires { place column < length env.old }
    ensures fits { result ≡ true → put column value env.old ≡ Some env.new }
    ensures other { result ≡ false → put column value env.old ≡ None }
    ensures len { length env.new ≡ length env.old }
    ensures stays { Stays (column ∷ []) env.old env.new }
    ensures pass { (test : TermValue → Bool) → test value ≡ true → list_all test env.old ≡ true → list_all test env.new ≡ true }
{
    match column {
        Column::New(place) => {
            env.set(place as usize, value);
            true
        }
        Column::Old(place) => is_same(env.as_slice()[place as usize], value),
    }
}

/// Puts the values of a row to columns, and says whether they fit. Where they don't, the places of new
/// columns may hold anything.
pub fn put_row(env: &mut Items<Value>, columns: &[Column], row: &[Value]) -> bool
    requires { All (λ c. place c < length env.old) columns.now }
    ensures fits { result ≡ true → put_row columns.now row.now env.old ≡ Some env.new }
    ensures other { result ≡ false → put_row columns.now row.now env.old ≡ None }
    ensures len { length env.new ≡ length env.old }
    ensures stays { Stays columns.now env.old env.new }
    ensures pass { (test : TermValue → Bool) → list_all test row.now ≡ true → list_all test env.old ≡ true → list_all test env.new ≡ true }
{
    if columns.len() != row.len() {
        return false;
    }
    for at in 0..columns.len() {
        if !put(env, columns[at], row[at]) {
            return false;
        }
    }
    true
}
