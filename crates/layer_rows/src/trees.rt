//! Calls of the layer of expressions and formulas.
ghost use Rattle.std.specs.Prelude.{◌+◌, ◌^◌, ◌<◌, ◌≤◌, vec_len, length, IfOk};

use crate::prefix::{put_expr, put_formula};
use crate::shown::shown;
use crate::tokens::text_of;
use formula_syntax::{FormulaFault, Names, expr, formula};
use row_tables::{Cause, Value};
use std::alloc::Global;
use tel_lex::{LexFault, Token, tokens};
use tel_term::Expr;

/// The most tokens of a row.
const MOST: usize = 16_777_216;

/// The tokens of a text without a fault.
fn tokens_of<'a>(alloc: Global, text: &'a [u8]) -> Result<Vec<Token<'a>>, Cause>
    requires { length text.now ≤ 16777216 }
    ensures { IfOk result (λ tokens. vec_len tokens ≤ 16777216) }
{
    let tokens = match tokens(alloc, text, 1) {
        Ok(tokens) => tokens,
        Err(LexFault::Memory) => return Err(Cause::Memory),
        Err(_) => return Err(Cause::Values),
    };
    if tokens.len() > MOST {
        return Err(Cause::Range);
    }
    Ok(tokens)
}

/// Where a reading stops, and why.
fn refused(alloc: Global, fault: FormulaFault) -> Result<Vec<u8>, Cause> {
    match fault {
        FormulaFault::Syntax(place) => shown(format!(in alloc; "syntax {place}")),
        FormulaFault::TooDeep(place) => shown(format!(in alloc; "deep {place}")),
        FormulaFault::Memory => Err(Cause::Memory),
    }
}

/// The longest expression at the front of a text, and how many tokens it has, or where the reading stops.
pub fn expression(alloc: Global, given: &[Value]) -> Result<Vec<u8>, Cause> {
    let text = text_of(alloc, given)?;
    let tokens = tokens_of(alloc, text.as_slice())?;
    let mut names = Names::new(alloc);
    match expr(alloc, tokens.as_slice(), 0, &mut names) {
        Ok((tree, end)) => {
            let mut out = shown(format!(in alloc; "{end} "))?;
            put_expr(&mut out, &tree)?;
            Ok(out)
        }
        Err(fault) => refused(alloc, fault),
    }
}

/// The longest formula at the front of a text, and how many tokens it has, or where the reading stops.
pub fn formula_of(alloc: Global, given: &[Value]) -> Result<Vec<u8>, Cause> {
    let text = text_of(alloc, given)?;
    let tokens = tokens_of(alloc, text.as_slice())?;
    let mut names = Names::new(alloc);
    match formula(alloc, tokens.as_slice(), 0, &mut names) {
        Ok((tree, end)) => {
            let mut out = shown(format!(in alloc; "{end} "))?;
            put_formula(&mut out, &tree)?;
            Ok(out)
        }
        Err(fault) => refused(alloc, fault),
    }
}

/// An expression of this text, and the names that it has.
pub fn whole(alloc: Global, text: &[u8]) -> Result<(Expr, Names), Cause>
    requires { length text.now ≤ 16777216 }
{
    let tokens = tokens_of(alloc, text)?;
    let mut names = Names::new(alloc);
    match expr(alloc, tokens.as_slice(), 0, &mut names) {
        Ok((tree, end)) if end == tokens.len() => Ok((tree, names)),
        Err(FormulaFault::Memory) => Err(Cause::Memory),
        _ => Err(Cause::Values),
    }
}
