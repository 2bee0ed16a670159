//! Calls of the layer of tokens.
ghost use Rattle.std.specs.Prelude.{◌<◌, ◌≤◌, IfOk, vec_len};

use row_tables::{Cause, Value, joined};
use std::alloc::{AllocError, Global};
use tel_base::Place;
use tel_lex::{LexFault, Token, TokenKind, lex, tokens};

/// The most bytes of a text.
const LARGEST: usize = 16_777_216;

/// A text that has few enough bytes for its tokens to be numbered.
pub fn text_of(alloc: Global, given: &[Value]) -> Result<Vec<u8>, Cause>
    ensures { IfOk result (λ text. vec_len text ≤ 16777216) }
{
    let text = joined(alloc, given)?;
    if text.len() > LARGEST {
        return Err(Cause::Range);
    }
    Ok(text)
}

fn kind_word(kind: TokenKind) -> &'static str {
    match kind {
        TokenKind::Name => "name",
        TokenKind::Variable => "variable",
        TokenKind::Blank => "blank",
        TokenKind::Number => "number",
        TokenKind::Str => "string",
        TokenKind::Hash => "hash",
        TokenKind::Sign => "sign",
    }
}

/// A word, and the line and the byte of a place.
fn show_place(
    alloc: Global,
    out: &mut Vec<u8>,
    word: &str,
    place: Place,
) -> Result<(), AllocError> {
    let shown = format!(in alloc; "{word}@{}:{}", place.line, place.at)?;
    Ok(out.extend_from_slice(shown.as_bytes())?)
}

/// A token, as `name@1:1=p`.
fn show_token(alloc: Global, out: &mut Vec<u8>, token: &Token<'_>) -> Result<(), AllocError> {
    show_place(alloc, out, kind_word(token.kind), token.place)?;
    out.extend_from_slice(b"=".as_slice())?;
    out.extend_from_slice(token.text)?;
    Ok(out.extend_from_slice(b" ".as_slice())?)
}

fn show_fault(alloc: Global, out: &mut Vec<u8>, fault: LexFault) -> Result<(), Cause> {
    match fault {
        LexFault::BadByte(place) => Ok(show_place(alloc, out, "bad", place)?),
        LexFault::NumberRange(place) => Ok(show_place(alloc, out, "range", place)?),
        LexFault::Memory => Err(Cause::Memory),
    }
}

/// The tokens of a text, its first fault and its end, as `name@1:1=p bad@1:3 end@1:4`.
pub fn lexed(alloc: Global, given: &[Value]) -> Result<Vec<u8>, Cause> {
    let text = text_of(alloc, given)?;
    let mut out = Vec::new(alloc);
    let found = lex(alloc, text.as_slice(), 1)?;
    for token in found.tokens.as_slice() {
        show_token(alloc, &mut out, token)?;
    }
    if let Some(fault) = found.fault {
        show_fault(alloc, &mut out, fault)?;
        out.push(b' ')?;
    }
    show_place(alloc, &mut out, "end", found.end)?;
    Ok(out)
}

/// The tokens of a text, or its first fault.
pub fn listed(alloc: Global, given: &[Value]) -> Result<Vec<u8>, Cause> {
    let text = text_of(alloc, given)?;
    let mut out = Vec::new(alloc);
    match tokens(alloc, text.as_slice(), 3) {
        Ok(found) => {
            for token in found.as_slice() {
                show_token(alloc, &mut out, token)?;
            }
        }
        Err(fault) => show_fault(alloc, &mut out, fault)?,
    }
    Ok(out)
}
