ghost use Rattle.std.specs.Prelude.{◌≡◌, ◌≢◌, ℕ, ◌+◌, ◌-◌, ◌<◌, ◌^◌, ◌++◌, List, Option, Some, None, length, IfOk, IfErr, OnOk};
ghost use Rattle.tel_base.specs.declared.places.Place.{Place};
ghost use Rattle.tel_lex.specs.declared.fault.LexFault.{LexFault};
ghost use Rattle.tel_lex.specs.Places.{start_of};
ghost use Rattle.tel_lex.specs.Tokens.{Lexeme, tokens_of, HasTokens, HasFault, IsLexed, AreSlices};
ghost use Rattle.tel_lex.specs.Reading.{blanks_from};

use crate::fault::LexFault;
use crate::front::{Front, next_front};
use crate::places::place_after;
use crate::token::{Lexed, Token, TokenKind};
use std::alloc::Global;
use tel_base::{Memory, Place};

/// Appends a token for each of these bytes, which are `_`.
fn push_blanks<'a>(
    tokens: &mut Vec<Token<'a>>,
    place: Place,
    blanks: &'a [u8],
) -> Result<(), Memory>
    requires { place.at + length blanks.now < 2 ^ 32 }
    ensures { OnOk result (tokens_of tokens.new.items ≡ tokens_of tokens.old.items ++ blanks_from place blanks.now) }
{
    let mut place = place;
    let mut rest = blanks;
    'blanks: while !rest.is_empty() {
        let kind = TokenKind::Blank;
        let text = &rest[..1];
        if tokens.push(Token { kind, text, place }).is_err() {
            return Err(Memory);
        }
        place.at += 1;
        rest = &rest[1..];
    }
    Ok(())
}

/// The tokens of a file before its first lexical fault, that fault, and the place behind the last byte. The
/// number of the file, from 1, stands in the places. At each place the longest token is taken. White space and
/// comments separate tokens: `%` with the rest of the line, or `%*` and what follows up to the first `*%` behind it.
pub fn lex<'a>(alloc: Global, bytes: &'a [u8], file: u32) -> Result<Lexed<'a>, Memory>
    requires { length bytes.now < 2 ^ 32 - 1 }
    ensures ok { IfOk result (λ found. IsLexed file bytes.now (tokens_of found.tokens.items) found.fault found.end) }
    ensures only { IfOk result (λ found. (tokens : List Lexeme) (fault : Option LexFault) (end : Place) → IsLexed file bytes.now tokens fault end → (tokens ≡ tokens_of found.tokens.items) × (fault ≡ found.fault) × (end ≡ found.end)) }
    ensures slices { IfOk result (λ found. AreSlices (start_of file) bytes.now (tokens_of found.tokens.items)) }
    ensures fault { IfOk result (λ found. found.fault ≢ Some LexFault.Memory) }
{
    let mut tokens = Vec::new(alloc);
    let mut place = Place {
        file,
        line: 1,
        at: 1,
    };
    let mut rest = bytes;
    'reading: while !rest.is_empty() {
        match next_front(rest) {
            Front::Gap(length) => {
                place = place_after(place, &rest[..length]);
                rest = &rest[length..];
            }
            Front::Token(kind, length) => {
                let text = &rest[..length];
                if tokens.push(Token { kind, text, place }).is_err() {
                    return Err(Memory);
                }
                place.at += length as u32;
                rest = &rest[length..];
            }
            Front::Blanks(count) => {
                match push_blanks(&mut tokens, place, &rest[..count]) {
                    Ok(()) => {}
                    Err(fault) => return Err(fault),
                }
                place.at += count as u32;
                rest = &rest[count..];
            }
            Front::Large => {
                let end = place_after(place, rest);
                let fault = Some(LexFault::NumberRange(place));
                return Ok(Lexed { tokens, fault, end });
            }
            Front::Bad => {
                let end = place_after(place, rest);
                let fault = Some(LexFault::BadByte(place));
                return Ok(Lexed { tokens, fault, end });
            }
        }
    }
    Ok(Lexed {
        tokens,
        fault: None,
        end: place,
    })
}

/// The tokens of a file, as `lex` gives them. `BadByte` and `NumberRange` come exactly where the file has a
/// lexical fault, and are its first one. `Memory` is want of memory.
pub fn tokens<'a>(alloc: Global, bytes: &'a [u8], file: u32) -> Result<Vec<Token<'a>>, LexFault>
    requires { length bytes.now < 2 ^ 32 - 1 }
    ensures ok { IfOk result (λ found. HasTokens file bytes.now (tokens_of found.items) None) }
    ensures only { IfOk result (λ found. (tokens : List Lexeme) (fault : Option LexFault) → HasTokens file bytes.now tokens fault → (tokens ≡ tokens_of found.items) × (fault ≡ None)) }
    ensures slices { IfOk result (λ found. AreSlices (start_of file) bytes.now (tokens_of found.items)) }
    ensures fault { IfErr result (λ fault. fault ≢ LexFault.Memory → HasFault file bytes.now fault) }
    ensures fault_only { IfErr result (λ fault. fault ≢ LexFault.Memory → (tokens : List Lexeme) (first : Option LexFault) → HasTokens file bytes.now tokens first → first ≡ Some fault) }
{
    match lex(alloc, bytes, file) {
        Ok(found) => {
            let Lexed {
                tokens,
                fault,
                end: _,
            } = found;
            match fault {
                None => Ok(tokens),
                Some(fault) => Err(fault),
            }
        }
        Err(_) => Err(LexFault::Memory),
    }
}

/// A law: each text has a list of tokens, a first fault or none, and an end, and has them once.
pub fn one_reading()
    ensures once { (file : ℕ) (bytes : List ℕ) (tokens others : List Lexeme) (fault other : Option LexFault) (end last : Place) → IsLexed file bytes tokens fault end → IsLexed file bytes others other last → (others ≡ tokens) × (other ≡ fault) × (last ≡ end) }
    ensures some { (file : ℕ) (bytes : List ℕ) → (tokens : List Lexeme) × (fault : Option LexFault) × (end : Place) × IsLexed file bytes tokens fault end }
{}
