//! How atoms stand to one another.
ghost use Rattle.std.specs.Prelude.{◌≡◌};
ghost use Rattle.std.specs.Cmp.Lexicographic.{slice_cmp};
ghost use Rattle.atom_table.specs.Keys.{rank_cmp, key_rank_cmp};

use crate::keys::Key;
use crate::symbolizing::number_at;
use std::cmp::Ordering;
use tel_term::Value;

/// How two values stand to one another: numbers before symbols, numbers by value and symbols by their ranks.
fn compare_values(ranks: &[u32], a: Value, b: Value) -> Ordering
    ensures { result ≡ rank_cmp ranks.now a b }
{
    match a {
        Value::Num(m) => match b {
            Value::Num(n) => m.cmp(&n),
            Value::Sym(_) => Ordering::Less,
        },
        Value::Sym(m) => match b {
            Value::Num(_) => Ordering::Greater,
            Value::Sym(n) => number_at(ranks, m).cmp(&number_at(ranks, n)),
        },
    }
}

/// How two rows stand to one another: by their first values that differ.
fn compare_rows(ranks: &[u32], a: &[Value], b: &[Value]) -> Ordering
    ensures { result ≡ slice_cmp (rank_cmp ranks.now) a.now b.now }
{
    let shared = if a.len() < b.len() { a.len() } else { b.len() };
    for at in 0..shared {
        match compare_values(ranks, a[at], b[at]) {
            Ordering::Equal => {}
            other => return other,
        }
    }
    a.len().cmp(&b.len())
}

/// How two atoms stand to one another: by the ranks of their names, a plain one before a negative one, by how many arguments they have,
/// and by these from left to right.
pub fn compare_keys(ranks: &[u32], numbers: &[u32], a: &Key, b: &Key) -> Ordering
    ensures { result ≡ key_rank_cmp ranks.now numbers.now a.now b.now }
{
    let first = number_at(ranks, number_at(numbers, a.name));
    let second = number_at(ranks, number_at(numbers, b.name));
    match first.cmp(&second) {
        Ordering::Equal => {}
        other => return other,
    }
    match a.negative.cmp(&b.negative) {
        Ordering::Equal => {}
        other => return other,
    }
    let left = a.row.as_slice();
    let right = b.row.as_slice();
    match left.len().cmp(&right.len()) {
        Ordering::Equal => compare_rows(ranks, left, right),
        other => other,
    }
}
