//! The ranks of symbols: each is compared by its bytes in one sort, and then by its place.
ghost use Rattle.std.specs.Prelude.{◌≡◌, ℕ, ◌^◌, ◌<◌, [], length, slice_index_or, IfOk, IsSorted, Contains};
ghost use Rattle.tel_term.specs.declared.terms.Term.TheVariants as terms;
ghost use Rattle.tel_term.specs.Order.{term_cmp, term_at, value_in_range, value_cmp};
ghost use Rattle.atom_table.specs.Ranks.{symbol_cmp, AreRanks, AreBelow, IsRanked};

use std::alloc::Global;
use std::cmp::Ordering;
use tel_base::Memory;
use tel_term::{Symbols, Term, Value};

/// Whether a value is a number or a symbol of this table.
fn is_known(symbols: &Symbols, value: Value) -> bool
    ensures { result ≡ value_in_range symbols.now value }
{
    match value {
        Value::Num(_) => true,
        Value::Sym(number) => number < symbols.len(),
    }
}

/// How the empty name stands to the term of a value. A symbol that isn't of the table stands for the empty name.
fn compare_empty(symbols: &Symbols, value: Value) -> Ordering
    ensures { result ≡ term_cmp (terms.Name []) (term_at symbols.now value) }
{
    if !is_known(symbols, value) {
        return Ordering::Equal;
    }
    match value {
        Value::Num(_) => Ordering::Greater,
        Value::Sym(_) => match symbols.term(value) {
            Term::Num(_) => Ordering::Greater,
            Term::Name(name) => {
                if name.as_slice().is_empty() {
                    Ordering::Equal
                } else {
                    Ordering::Less
                }
            }
            Term::Str(_) => Ordering::Less,
        },
    }
}

/// How two values stand to one another, by the terms that they stand for.
fn compare_terms(symbols: &Symbols, a: Value, b: Value) -> Ordering
    ensures { result ≡ value_cmp symbols.now a b }
{
    if !is_known(symbols, a) {
        return compare_empty(symbols, b);
    }
    if !is_known(symbols, b) {
        return compare_empty(symbols, a).reverse();
    }
    symbols.cmp(a, b)
}

/// The numbers below this one, each at its place.
fn numbers_below(alloc: Global, count: u32) -> Result<Vec<u32>, Memory>
    ensures { IfOk result (λ numbers. AreBelow count numbers.items) }
{
    let mut numbers = Vec::with_capacity(alloc, count as usize)?;
    for number in 0..count {
        numbers.push(number)?;
    }
    Ok(numbers)
}

/// The numbers of the symbols, in the order of their terms.
fn ordered_symbols(alloc: Global, symbols: &Symbols) -> Result<Vec<u32>, Memory>
    ensures sorted { IfOk result (λ order. IsSorted (symbol_cmp symbols.now) order.items) }
    ensures all { IfOk result (λ order. (number : ℕ) → number < length symbols.now → Contains order.items number) }
    ensures within { IfOk result (λ order. (place : ℕ) → place < length order.items → slice_index_or order.items place 0 < length symbols.now) }
    ensures len { IfOk result (λ order. length order.items ≡ length symbols.now) }
{
    let mut order = numbers_below(alloc, symbols.len())?;
    match order.sort_by(|a, b| compare_terms(symbols, Value::Sym(*a), Value::Sym(*b))) {
        Ok(()) => Ok(order),
        Err(_) => Err(Memory),
    }
}

/// So many zeros.
fn zeros(alloc: Global, count: usize) -> Result<Vec<u32>, Memory>
    ensures { IfOk result (λ zeros. length zeros.items ≡ count) }
{
    let zeros = vec![in alloc; 0; count]?;
    Ok(zeros)
}

/// The place of each number in an order.
fn places_in(alloc: Global, order: &[u32]) -> Result<Vec<u32>, Memory>
    requires few { length order.now < 2 ^ 32 }
    requires within { (place : ℕ) → place < length order.now → slice_index_or order.now place 0 < length order.now }
    ensures { IfOk result (λ ranks. (place : ℕ) → place < length order.now → IsRanked order.now ranks.items (length order.now) (slice_index_or order.now place 0)) }
{
    let mut ranks = zeros(alloc, order.len())?;
    for (place, number) in order.iter().enumerate() {
        ranks[*number as usize] = place as u32;
    }
    Ok(ranks)
}

/// The ranks of the symbols.
pub fn symbol_ranks(alloc: Global, symbols: &Symbols) -> Result<Vec<u32>, Memory>
    ensures { IfOk result (λ ranks. AreRanks symbols.now ranks.items) }
{
    let _count = symbols.len();
    let order = ordered_symbols(alloc, symbols)?;
    let ranks = places_in(alloc, order.as_slice())?;
    Ok(ranks)
}
