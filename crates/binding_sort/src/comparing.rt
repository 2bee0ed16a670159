//! How bindings stand to one another.
ghost use Rattle.std.specs.Prelude.{◌≡◌, []};
ghost use Rattle.tel_term.specs.declared.terms.Term.TheVariants as terms;
ghost use Rattle.tel_term.specs.Order.{term_cmp, term_at, value_in_range, value_cmp};
ghost use Rattle.live_instances.specs.Bindings.{binding_cmp};

use std::cmp::Ordering;
use tel_term::{Symbols, Term, Value};

/// Whether a value is a number or a symbol of this table.
fn is_known(symbols: &Symbols, value: Value) -> bool
    ensures { result ≡ value_in_range symbols.now value }
{
    match value {
        Value::Num(_) => true,
        Value::Sym(number) => number < symbols.len(),
    }
}

/// How the empty name stands to the term of a value. A symbol that isn't of the table stands for the empty name.
fn compare_empty(symbols: &Symbols, value: Value) -> Ordering
    ensures { result ≡ term_cmp (terms.Name []) (term_at symbols.now value) }
{
    if !is_known(symbols, value) {
        return Ordering::Equal;
    }
    match value {
        Value::Num(_) => Ordering::Greater,
        Value::Sym(_) => match symbols.term(value) {
            Term::Num(_) => Ordering::Greater,
            Term::Name(name) => {
                if name.as_slice().is_empty() {
                    Ordering::Equal
                } else {
                    Ordering::Less
                }
            }
            Term::Str(_) => Ordering::Less,
        },
    }
}

/// How two values stand to one another, by the terms that they stand for.
fn compare_values(symbols: &Symbols, a: Value, b: Value) -> Ordering
    ensures { result ≡ value_cmp symbols.now a b }
{
    if !is_known(symbols, a) {
        return compare_empty(symbols, b);
    }
    if !is_known(symbols, b) {
        return compare_empty(symbols, a).reverse();
    }
    symbols.cmp(a, b)
}

/// How two bindings stand to one another: by their first values that differ.
pub fn compare_bindings(symbols: &Symbols, a: &[Value], b: &[Value]) -> Ordering
    ensures { result ≡ binding_cmp symbols.now a.now b.now }
{
    let shared = if a.len() < b.len() { a.len() } else { b.len() };
    for at in 0..shared {
        match compare_values(symbols, a[at], b[at]) {
            Ordering::Equal => {}
            other => return other,
        }
    }
    a.len().cmp(&b.len())
}
