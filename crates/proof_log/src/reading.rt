//! Reads the lines of a log.
ghost use Rattle.std.specs.Prelude.{◌≡◌, ℕ, ◌+◌, ◌≤◌, List, ◌++◌, length, drop, IfOk, IfErr, IfSome, IfNone};
ghost use Rattle.proof_log.specs.Faults.{OnSyntax, IsRead};
ghost use Rattle.proof_log.specs.Lines.{HasForm, line_of, line_text};
ghost use Rattle.proof_log.specs.Parts.{AnyOf, IsOpening, IsTail, letter};
ghost use Rattle.proof_log.specs.Texts.{StandsAt, StopsAt, IsLineAt, IsLineText};
ghost use Rattle.proof_log.specs.declared.line.Line.{Line};
ghost use Rattle.proof_log.specs.declared.reading.Opening.{Opening};
ghost use Rattle.proof_log.specs.declared.reading.Opening.TheVariants as openings;

use crate::line::{Kind, Line, LogFault};
use crate::lists::{read_clause, read_set};
use crate::numbers::{read_byte, read_number};
use std::alloc::Global;
use tel_base::Clause;

/// What kind of line begins.
#[derive(Clone, Copy)]
enum Opening {
    Length,
    End,
    Loop,
    Clause(Kind),
}

/// The kind of line that begins with this letter.
fn opening_of(byte: u8) -> Option<Opening>
    ensures some { IfSome result (λ opening. letter opening ≡ byte) }
    ensures none { IfNone result ((opening : Opening) → letter opening ≡ byte → ⊥) }
{
    match byte {
        b'n' => Some(Opening::Length),
        b'e' => Some(Opening::End),
        b'u' => Some(Opening::Loop),
        b'm' => Some(Opening::Clause(Kind::Module)),
        b'r' => Some(Opening::Clause(Kind::Learnt)),
        b'b' => Some(Opening::Clause(Kind::Block)),
        _ => None,
    }
}

/// Reads the letter of a line and the space behind it.
fn read_opening(bytes: &[u8], at: usize) -> Result<(Opening, usize), usize>
    requires { at ≤ length bytes.now }
    ensures ok { IfOk result (λ found. StandsAt (IsOpening found.0) bytes.now at found.1) }
    ensures err { IfErr result (λ place. StopsAt (AnyOf IsOpening) bytes.now at place) }
{
    if at == bytes.len() {
        return Err(at);
    }
    match opening_of(bytes[at]) {
        Some(opening) => match read_byte(bytes, at + 1, b' ') {
            Ok(after) => Ok((opening, after)),
            Err(place) => Err(place),
        },
        None => Err(at),
    }
}

/// The line that has this clause alone.
fn line_of(kind: Kind, clause: Clause) -> Line
    ensures { result ≡ line_of kind clause }
{
    match kind {
        Kind::Module => Line::Module(clause),
        Kind::Learnt => Line::Learnt(clause),
        Kind::Block => Line::Block(clause),
    }
}

/// Reads the first atom, the set and the clause of a loop.
fn read_loop(alloc: Global, bytes: &[u8], at: usize) -> Result<(Line, usize), LogFault>
    requires { at ≤ length bytes.now }
    ensures ok { IfOk result (λ found. StandsAt (IsTail openings.Loop found.0) bytes.now at found.1) }
    ensures err { IfErr result (λ fault. OnSyntax fault (λ place. StopsAt (AnyOf (IsTail openings.Loop)) bytes.now at place)) }
{
    match read_number(bytes, at, 0, b' ') {
        Ok((number, at_set)) => match read_set(alloc, bytes, at_set) {
            Ok((set, at_clause)) => match read_clause(alloc, bytes, at_clause) {
                Ok((clause, after)) => {
                    let atom = number - 1;
                    Ok((Line::Loop { atom, set, clause }, after))
                }
                Err(fault) => Err(fault),
            },
            Err(fault) => Err(fault),
        },
        Err(place) => Err(LogFault::Syntax(place)),
    }
}

/// Reads what stands behind the opening of a line.
fn read_tail(
    alloc: Global,
    bytes: &[u8],
    at: usize,
    opening: Opening,
) -> Result<(Line, usize), LogFault>
    requires { at ≤ length bytes.now }
    ensures ok { IfOk result (λ found. StandsAt (IsTail opening found.0) bytes.now at found.1) }
    ensures err { IfErr result (λ fault. OnSyntax fault (λ place. StopsAt (AnyOf (IsTail opening)) bytes.now at place)) }
{
    match opening {
        Opening::Length => match read_number(bytes, at, 0, b'\n') {
            Ok((n, after)) => Ok((Line::Length(n), after)),
            Err(place) => Err(LogFault::Syntax(place)),
        },
        Opening::End => match read_number(bytes, at, 0, b'\n') {
            Ok((n, after)) => Ok((Line::End(n), after)),
            Err(place) => Err(LogFault::Syntax(place)),
        },
        Opening::Clause(kind) => match read_clause(alloc, bytes, at) {
            Ok((clause, after)) => Ok((line_of(kind, clause), after)),
            Err(fault) => Err(fault),
        },
        Opening::Loop => read_loop(alloc, bytes, at),
    }
}

/// Reads the line that stands at this place: it, and the place behind it.
///
/// A line is read wherever one stands, whatever follows it. Where none does, `Syntax` has the place of
/// the first byte that no line allows there, or of the end of the bytes, where these begin a line and
/// end before it does. It takes time for the bytes that it reads, and memory for the line.
pub fn read_line(alloc: Global, bytes: &[u8], at: usize) -> Result<(Line, usize), LogFault>
    requires { at ≤ length bytes.now }
    ensures ok { IfOk result (λ found. IsLineAt found.0 bytes.now at found.1) }
    ensures syntax { IfErr result (λ fault. OnSyntax fault (λ place. StopsAt IsLineText bytes.now at place)) }
    ensures again { (line : Line) (rest : List ℕ) → HasForm line → drop at bytes.now ≡ line_text line ++ rest → IsRead line (at + length (line_text line)) result }
{
    match read_opening(bytes, at) {
        Ok((opening, mid)) => match read_tail(alloc, bytes, mid, opening) {
            Ok((line, after)) => Ok((line, after)),
            Err(fault) => Err(fault),
        },
        Err(place) => Err(LogFault::Syntax(place)),
    }
}
