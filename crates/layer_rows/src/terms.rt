//! Calls of the layer of terms.

use crate::prefix::put_value;
use crate::shown::shown;
use crate::tokens::text_of;
use crate::trees::whole;
use row_tables::{Cause, Value as Given};
use std::alloc::Global;
use std::cmp::Ordering;
use tel_base::{HashKey, Text};
use tel_term::{EvalFault, Expr, Symbols, Term, Value, eval};

/// A term: a number, a string behind a quote, or else a name.
fn term_of(alloc: Global, given: &Given) -> Result<Term, Cause> {
    let Given::Text(text) = given else {
        return Err(Cause::Values);
    };
    match *text.as_slice() {
        [b'-' | b'0'..=b'9', ..] => match str::from_utf8(text.as_slice()) {
            Ok(digits) => digits.parse().map(Term::Num).map_err(|_| Cause::Range),
            Err(_) => Err(Cause::Utf8),
        },
        [b'"', ..] => Ok(Term::Str(Text::from_slice(alloc, &text[1..])?)),
        _ => Ok(Term::Name(Text::from_slice(alloc, text.as_slice())?)),
    }
}

/// The value of a term, in a table that has room.
fn value_in(alloc: Global, symbols: &mut Symbols, given: &Given) -> Result<Value, Cause> {
    if symbols.len() == u32::MAX {
        return Err(Cause::Range);
    }
    Ok(symbols.value(term_of(alloc, given)?)?)
}

/// Whether a value of the table stands for this term.
fn stands(symbols: &Symbols, value: Value, term: &Term) -> bool {
    match value {
        Value::Sym(number) => number < symbols.len() && symbols.term(value) == term,
        Value::Num(number) => *term == Term::Num(number),
    }
}

/// The value of a term in a table, behind `another` where it stands for another one.
fn numbered_in(alloc: Global, symbols: &mut Symbols, given: &Given) -> Result<Vec<u8>, Cause> {
    let value = value_in(alloc, symbols, given)?;
    let term = term_of(alloc, given)?;
    let mut out = Vec::new(alloc);
    if !stands(symbols, value, &term) {
        out.extend_from_slice(b"another ")?;
    }
    put_value(&mut out, value)?;
    out.push(b' ')?;
    Ok(out)
}

/// The values of terms, one after another in one table, and how many the table has, as `Sym(0) Num(-3) 1`.
pub fn numbered(alloc: Global, given: &[Given]) -> Result<Vec<u8>, Cause> {
    let key = Text::from_slice(alloc, b"a text")?;
    let mut symbols = Symbols::keyed(alloc, HashKey::of(std::slice::from_ref(&key)));
    let mut out = Vec::new(alloc);
    for given in given {
        let value = numbered_in(alloc, &mut symbols, given)?;
        out.extend_from_slice(value.as_slice())?;
    }
    let count = shown(format!(in alloc; "{}", symbols.len()))?;
    out.extend_from_slice(count.as_slice())?;
    Ok(out)
}

/// How two values of the table stand, where it has both.
fn order_of(symbols: &Symbols, first: Value, second: Value) -> Option<Ordering> {
    let has = |value| match value {
        Value::Sym(number) => number < symbols.len(),
        Value::Num(_) => true,
    };
    if has(first) && has(second) {
        Some(symbols.cmp(first, second))
    } else {
        None
    }
}

/// How the first of two values stands to the second, and the second to the first, as `Less Greater`.
fn orders_of(
    alloc: Global,
    symbols: &Symbols,
    first: Value,
    second: Value,
) -> Result<Vec<u8>, Cause> {
    match (
        order_of(symbols, first, second),
        order_of(symbols, second, first),
    ) {
        (Some(forth), Some(back)) => shown(format!(in alloc; "{forth:?} {back:?}")),
        _ => Err(Cause::Range),
    }
}

/// The same of two terms.
pub fn compared(alloc: Global, given: &[Given]) -> Result<Vec<u8>, Cause> {
    let [first, second] = given else {
        return Err(Cause::Values);
    };
    let mut symbols = Symbols::new(alloc);
    let first = value_in(alloc, &mut symbols, first)?;
    let second = value_in(alloc, &mut symbols, second)?;
    orders_of(alloc, &symbols, first, second)
}

/// The values of the terms of a binding.
fn binding_of(alloc: Global, symbols: &mut Symbols, given: &[Given]) -> Result<Vec<Value>, Cause> {
    let mut binding = Vec::new(alloc);
    for given in given {
        binding.push(value_in(alloc, symbols, given)?)?;
    }
    Ok(binding)
}

/// The value of an expression under a binding, or why it has none.
fn value_of(alloc: Global, tree: &Expr, binding: &[Value]) -> Result<Vec<u8>, Cause> {
    match eval(tree, binding) {
        Ok(value) => {
            let mut out = Vec::new(alloc);
            put_value(&mut out, value)?;
            Ok(out)
        }
        Err(EvalFault::Undefined) => Ok(Vec::from_slice(alloc, b"Undefined")?),
        Err(EvalFault::Range) => Ok(Vec::from_slice(alloc, b"Range")?),
    }
}

/// The same of a text and terms. Between the pieces of the expression's text and the terms of the binding stands the number
/// of these.
pub fn evaluated(alloc: Global, given: &[Given]) -> Result<Vec<u8>, Cause> {
    let pieces = given
        .iter()
        .take_while(|value| matches!(value, Given::Text(_)))
        .count();
    let Some((Given::Number(count), terms)) = given[pieces..].split_first() else {
        return Err(Cause::Values);
    };
    if terms.len() as u64 != *count {
        return Err(Cause::Values);
    }
    let text = text_of(alloc, &given[..pieces])?;
    let (tree, mut names) = whole(alloc, text.as_slice())?;
    let binding = binding_of(alloc, &mut names.symbols, terms)?;
    value_of(alloc, &tree, binding.as_slice())
}
