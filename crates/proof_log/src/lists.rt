//! The clauses and sets of a line: entries one after another, up to `0`.
ghost use Rattle.std.specs.Prelude.{◌≡◌, ℕ, ◌+◌, ◌<◌, ◌≤◌, ◌↔◌, true, false, length, map, slice_index, IfOk, IfErr, IsTrue};
ghost use Rattle.tel_base.specs.Literals.{lit_of};
ghost use Rattle.proof_log.specs.Faults.{OnSyntax};
ghost use Rattle.proof_log.specs.Lines.{greatest, lit_number};
ghost use Rattle.proof_log.specs.Parts.{AnyOf, IsNumber, IsEntry, IsList};
ghost use Rattle.proof_log.specs.Texts.{StandsAt, StopsAt};

use crate::line::LogFault;
use crate::numbers::{read_byte, read_number};
use sqlite_items::Items;
use std::alloc::Global;
use tel_base::{Clause, Lit};

/// Whether this byte stands at a place.
fn stands(bytes: &[u8], at: usize, byte: u8) -> bool
    ensures { IsTrue result ↔ ((at < length bytes.now) × (slice_index bytes.now at ≡ byte)) }
{
    at < bytes.len() && bytes[at] == byte
}

/// Reads a number above `low` and the space behind it: the variable of this number, or its negation.
fn read_lit(bytes: &[u8], at: usize, low: u32, positive: bool) -> Result<(Lit, usize), usize>
    requires within { at ≤ length bytes.now }
    requires room { low < greatest }
    ensures sign { IfOk result (λ found. found.0.positive ≡ positive) }
    ensures ok { IfOk result (λ found. StandsAt (IsNumber low 32 (lit_number found.0)) bytes.now at found.1) }
    ensures err { IfErr result (λ place. StopsAt (AnyOf (IsNumber low 32)) bytes.now at place) }
{
    match read_number(bytes, at, low, b' ') {
        Ok((number, after)) => {
            let var = number - 1;
            Ok((Lit { var, positive }, after))
        }
        Err(place) => Err(place),
    }
}

/// Reads an entry of a list behind one with the number `low`, which is 0 where none came before: a
/// literal with a greater number, or the end of the list with the byte `end` behind it.
fn read_entry(
    bytes: &[u8],
    at: usize,
    signed: bool,
    low: u32,
    end: u8,
) -> Result<(Option<Lit>, usize), usize>
    requires within { at ≤ length bytes.now }
    requires end { end < 48 }
    ensures ok { IfOk result (λ found. StandsAt (IsEntry signed low end found.0) bytes.now at found.1) }
    ensures err { IfErr result (λ place. StopsAt (AnyOf (IsEntry signed low end)) bytes.now at place) }
{
    if low > 0 && stands(bytes, at, b'0') {
        match read_byte(bytes, at + 1, end) {
            Ok(after) => return Ok((None, after)),
            Err(place) => return Err(place),
        }
    }
    if low == u32::MAX {
        return Err(at);
    }
    if signed && stands(bytes, at, b'-') {
        match read_lit(bytes, at + 1, low, false) {
            Ok((lit, after)) => return Ok((Some(lit), after)),
            Err(place) => return Err(place),
        }
    }
    match read_lit(bytes, at, low, true) {
        Ok((lit, after)) => Ok((Some(lit), after)),
        Err(place) => Err(place),
    }
}

/// Reads a clause and the line end behind it: the clause, and the place behind them.
pub fn read_clause(alloc: Global, bytes: &[u8], at: usize) -> Result<(Clause, usize), LogFault>
    requires { at ≤ length bytes.now }
    ensures ok { IfOk result (λ found. StandsAt (IsList true 0 10 found.0) bytes.now at found.1) }
    ensures err { IfErr result (λ fault. OnSyntax fault (λ place. StopsAt (AnyOf (IsList true 0 10)) bytes.now at place)) }
{
    let mut lits = Vec::new(alloc);
    let mut low: u32 = 0;
    let mut place = at;
    'entries: loop {
        match read_entry(bytes, place, true, low, b'\n') {
            Ok((Some(lit), after)) => {
                match lits.push(lit) {
                    Ok(()) => {}
                    Err(_) => return Err(LogFault::Memory),
                }
                low = lit.var + 1;
                place = after;
            }
            Ok((None, after)) => return Ok((Clause { lits }, after)),
            Err(place) => return Err(LogFault::Syntax(place)),
        }
    }
}

/// Reads a set and the space behind it: its variables, and the place behind them.
pub fn read_set(alloc: Global, bytes: &[u8], at: usize) -> Result<(Items<u32>, usize), LogFault>
    requires { at ≤ length bytes.now }
    ensures ok { IfOk result (λ found. StandsAt (IsList false 0 32 (map lit_of found.0)) bytes.now at found.1) }
    ensures err { IfErr result (λ fault. OnSyntax fault (λ place. StopsAt (AnyOf (IsList false 0 32)) bytes.now at place)) }
{
    let mut set = Items::new(alloc);
    let mut low: u32 = 0;
    let mut place = at;
    'entries: loop {
        match read_entry(bytes, place, false, low, b' ') {
            Ok((Some(lit), after)) => {
                match set.push(lit.var) {
                    Ok(()) => {}
                    Err(_) => return Err(LogFault::Memory),
                }
                low = lit.var + 1;
                place = after;
            }
            Ok((None, after)) => return Ok((set, after)),
            Err(place) => return Err(LogFault::Syntax(place)),
        }
    }
}
