//! Writes the lines of a log.
ghost use Rattle.std.specs.Prelude.{◌≡◌, ℕ, ◌+◌, ◌++◌, [], ◌∷◌, List, codes, decimal, OnOk, OnErr};
ghost use Rattle.std.specs.List.{flat_map};
ghost use Rattle.tel_base.specs.Bytes.{Appends, AppendsFront};
ghost use Rattle.tel_base.specs.Counts.{HasCause};
ghost use Rattle.proof_log.specs.Lines.{lit_text, clause_text, set_text, line_text, line_of};
ghost use Rattle.proof_log.specs.Waiting.{Puts, Writes};
ghost use Rattle.proof_log.specs.declared.line.Line.TheVariants as lines;
ghost use Rattle.tel_base.specs.declared.literals.Lit.{Lit};

use crate::line::{Kind, Line};
use crate::pieces::{flush, put};
use arrayvec::ArrayVec;
use itoa::Buffer;
use tel_base::{Failed, Lit, Sink};

/// How many bytes wait at most.
const ROOM: usize = 1024;

/// Puts a number in decimal, with what stands before it and after it.
fn put_number<L: Sink, const SIZE: usize>(
    log: &mut L,
    waiting: &mut ArrayVec<u8, SIZE>,
    before: &[u8],
    number: u64,
    after: &[u8],
) -> Result<(), Failed>
    ensures { Puts result (before.now ++ decimal number ++ after.now) (L.bytes log.old) (L.bytes log.new) waiting.old.items waiting.new.items (L.faults log.old) (L.faults log.new) }
{
    match put(log, waiting, before) {
        Ok(()) => {}
        Err(fault) => return Err(fault),
    }
    let mut digits = Buffer::new();
    match put(log, waiting, digits.format(number).as_bytes()) {
        Ok(()) => put(log, waiting, after),
        Err(fault) => Err(fault),
    }
}

/// What stands before the number of a literal.
fn sign(lit: Lit) -> &'static [u8]
    ensures { result.now ++ decimal (lit.var + 1) ≡ lit_text lit }
{
    if lit.positive { b"" } else { b"-" }
}

/// Puts a literal and a space.
fn put_lit<L: Sink, const SIZE: usize>(
    log: &mut L,
    waiting: &mut ArrayVec<u8, SIZE>,
    lit: Lit,
) -> Result<(), Failed>
    ensures { Puts result (lit_text lit ++ codes " ") (L.bytes log.old) (L.bytes log.new) waiting.old.items waiting.new.items (L.faults log.old) (L.faults log.new) }
{
    put_number(log, waiting, sign(lit), u64::from(lit.var) + 1, b" ")
}

/// Puts literals, each with a space behind it.
fn put_lits<L: Sink, const SIZE: usize>(
    log: &mut L,
    waiting: &mut ArrayVec<u8, SIZE>,
    lits: &[Lit],
) -> Result<(), Failed>
    ensures { Puts result (flat_map (λ lit. lit_text lit ++ codes " ") lits.now) (L.bytes log.old) (L.bytes log.new) waiting.old.items waiting.new.items (L.faults log.old) (L.faults log.new) }
{
    for lit in lits {
        match put_lit(log, waiting, *lit) {
            Ok(()) => {}
            Err(fault) => return Err(fault),
        }
    }
    Ok(())
}

/// Puts the number of a variable and a space.
fn put_var<L: Sink, const SIZE: usize>(
    log: &mut L,
    waiting: &mut ArrayVec<u8, SIZE>,
    var: u32,
) -> Result<(), Failed>
    ensures { Puts result (decimal (var + 1) ++ codes " ") (L.bytes log.old) (L.bytes log.new) waiting.old.items waiting.new.items (L.faults log.old) (L.faults log.new) }
{
    put_number(log, waiting, b"", u64::from(var) + 1, b" ")
}

/// Puts the numbers of variables, each with a space behind it.
fn put_vars<L: Sink, const SIZE: usize>(
    log: &mut L,
    waiting: &mut ArrayVec<u8, SIZE>,
    vars: &[u32],
) -> Result<(), Failed>
    ensures { Puts result (flat_map (λ var. decimal (var + 1) ++ codes " ") vars.now) (L.bytes log.old) (L.bytes log.new) waiting.old.items waiting.new.items (L.faults log.old) (L.faults log.new) }
{
    for var in vars {
        match put_var(log, waiting, *var) {
            Ok(()) => {}
            Err(fault) => return Err(fault),
        }
    }
    Ok(())
}

/// Puts a clause, with what stands before it, and the end of the line.
fn put_clause<L: Sink, const SIZE: usize>(
    log: &mut L,
    waiting: &mut ArrayVec<u8, SIZE>,
    before: &[u8],
    clause: &[Lit],
) -> Result<(), Failed>
    ensures { Puts result (before.now ++ clause_text clause.now ++ codes "\n") (L.bytes log.old) (L.bytes log.new) waiting.old.items waiting.new.items (L.faults log.old) (L.faults log.new) }
{
    match put(log, waiting, before) {
        Ok(()) => {}
        Err(fault) => return Err(fault),
    }
    match put_lits(log, waiting, clause) {
        Ok(()) => put(log, waiting, b"0\n"),
        Err(fault) => Err(fault),
    }
}

/// Puts the begin of the line of a loop clause, up to its first atom.
fn put_atom<L: Sink, const SIZE: usize>(
    log: &mut L,
    waiting: &mut ArrayVec<u8, SIZE>,
    atom: u32,
) -> Result<(), Failed>
    ensures { Puts result (codes "u " ++ decimal (atom + 1) ++ codes " ") (L.bytes log.old) (L.bytes log.new) waiting.old.items waiting.new.items (L.faults log.old) (L.faults log.new) }
{
    put_number(log, waiting, b"u ", u64::from(atom) + 1, b" ")
}

/// Puts the line of a loop clause.
fn put_loop<L: Sink, const SIZE: usize>(
    log: &mut L,
    waiting: &mut ArrayVec<u8, SIZE>,
    atom: u32,
    set: &[u32],
    clause: &[Lit],
) -> Result<(), Failed>
    ensures { Puts result (line_text (lines.Loop atom set.now clause.now)) (L.bytes log.old) (L.bytes log.new) waiting.old.items waiting.new.items (L.faults log.old) (L.faults log.new) }
{
    match put_atom(log, waiting, atom) {
        Ok(()) => {}
        Err(fault) => return Err(fault),
    }
    match put_vars(log, waiting, set) {
        Ok(()) => put_clause(log, waiting, b"0 ", clause),
        Err(fault) => Err(fault),
    }
}

/// Writes a number in decimal, with what stands before it and after it.
fn write_number<L: Sink, const SIZE: usize>(
    log: &mut L,
    waiting: &mut ArrayVec<u8, SIZE>,
    before: &[u8],
    number: u64,
) -> Result<(), Failed>
    requires { waiting.old.items ≡ [] }
    ensures { Writes result (before.now ++ decimal number ++ codes "\n") (L.bytes log.old) (L.bytes log.new) (L.faults log.old) (L.faults log.new) }
{
    match put_number(log, waiting, before, number, b"\n") {
        Ok(()) => flush(log, waiting),
        Err(fault) => Err(fault),
    }
}

/// Writes a clause, with what stands before it, and the end of the line.
fn write_lits<L: Sink, const SIZE: usize>(
    log: &mut L,
    waiting: &mut ArrayVec<u8, SIZE>,
    before: &[u8],
    clause: &[Lit],
) -> Result<(), Failed>
    requires { waiting.old.items ≡ [] }
    ensures { Writes result (before.now ++ clause_text clause.now ++ codes "\n") (L.bytes log.old) (L.bytes log.new) (L.faults log.old) (L.faults log.new) }
{
    match put_clause(log, waiting, before, clause) {
        Ok(()) => flush(log, waiting),
        Err(fault) => Err(fault),
    }
}

/// Writes the line of a loop clause.
fn write_parts<L: Sink, const SIZE: usize>(
    log: &mut L,
    waiting: &mut ArrayVec<u8, SIZE>,
    atom: u32,
    set: &[u32],
    clause: &[Lit],
) -> Result<(), Failed>
    requires { waiting.old.items ≡ [] }
    ensures { Writes result (line_text (lines.Loop atom set.now clause.now)) (L.bytes log.old) (L.bytes log.new) (L.faults log.old) (L.faults log.new) }
{
    match put_loop(log, waiting, atom, set, clause) {
        Ok(()) => flush(log, waiting),
        Err(fault) => Err(fault),
    }
}

/// The letter of a line that has a clause alone, and a space.
fn letter_of(kind: Kind) -> &'static [u8]
    ensures { (clause : List Lit) → line_text (line_of kind clause) ≡ result.now ++ clause_text clause ++ codes "\n" }
{
    match kind {
        Kind::Module => b"m ",
        Kind::Learnt => b"r ",
        Kind::Block => b"b ",
    }
}

/// Writes the line that begins length `n`. After an error some front of the line is written.
pub fn write_length<L: Sink>(log: &mut L, n: u32) -> Result<(), Failed>
    ensures ok { OnOk result (Appends (L.bytes log.old) (L.bytes log.new) (line_text (lines.Length n))) }
    ensures err { OnErr result (AppendsFront (L.bytes log.old) (L.bytes log.new) (line_text (lines.Length n))) }
    ensures cause { HasCause (L.faults log.old) (L.faults log.new) result }
{
    let mut waiting: ArrayVec<u8, ROOM> = ArrayVec::new();
    write_number(log, &mut waiting, b"n ", u64::from(n))
}

/// Writes the line of a clause of this kind, its literals as they stand. After an error some front of
/// the line is written.
pub fn write_clause<L: Sink>(log: &mut L, kind: Kind, clause: &[Lit]) -> Result<(), Failed>
    ensures ok { OnOk result (Appends (L.bytes log.old) (L.bytes log.new) (line_text (line_of kind clause.now))) }
    ensures err { OnErr result (AppendsFront (L.bytes log.old) (L.bytes log.new) (line_text (line_of kind clause.now))) }
    ensures cause { HasCause (L.faults log.old) (L.faults log.new) result }
{
    let mut waiting: ArrayVec<u8, ROOM> = ArrayVec::new();
    write_lits(log, &mut waiting, letter_of(kind), clause)
}

/// Writes the line of a loop clause, its first atom, its set and its literals as they stand. After an
/// error some front of the line is written.
pub fn write_loop<L: Sink>(
    log: &mut L,
    atom: u32,
    set: &[u32],
    clause: &[Lit],
) -> Result<(), Failed>
    ensures ok { OnOk result (Appends (L.bytes log.old) (L.bytes log.new) (line_text (lines.Loop atom set.now clause.now))) }
    ensures err { OnErr result (AppendsFront (L.bytes log.old) (L.bytes log.new) (line_text (lines.Loop atom set.now clause.now))) }
    ensures cause { HasCause (L.faults log.old) (L.faults log.new) result }
{
    let mut waiting: ArrayVec<u8, ROOM> = ArrayVec::new();
    write_parts(log, &mut waiting, atom, set, clause)
}

/// Writes the line that says that length `n` is complete. After an error some front of the line is written.
pub fn write_end<L: Sink>(log: &mut L, n: u32) -> Result<(), Failed>
    ensures ok { OnOk result (Appends (L.bytes log.old) (L.bytes log.new) (line_text (lines.End n))) }
    ensures err { OnErr result (AppendsFront (L.bytes log.old) (L.bytes log.new) (line_text (lines.End n))) }
    ensures cause { HasCause (L.faults log.old) (L.faults log.new) result }
{
    let mut waiting: ArrayVec<u8, ROOM> = ArrayVec::new();
    write_number(log, &mut waiting, b"e ", u64::from(n))
}

/// Writes a line, through one buffer and without memory. After an error some front of it is written.
/// A line that has the form of one is read again by `read_line`.
pub fn write_line<L: Sink>(log: &mut L, line: &Line) -> Result<(), Failed>
    ensures ok { OnOk result (Appends (L.bytes log.old) (L.bytes log.new) (line_text line.now)) }
    ensures err { OnErr result (AppendsFront (L.bytes log.old) (L.bytes log.new) (line_text line.now)) }
    ensures cause { HasCause (L.faults log.old) (L.faults log.new) result }
{
    match line {
        Line::Length(n) => write_length(log, *n),
        Line::Module(clause) => write_clause(log, Kind::Module, clause.as_slice()),
        Line::Loop { atom, set, clause } => {
            write_loop(log, *atom, set.as_slice(), clause.as_slice())
        }
        Line::Learnt(clause) => write_clause(log, Kind::Learnt, clause.as_slice()),
        Line::Block(clause) => write_clause(log, Kind::Block, clause.as_slice()),
        Line::End(n) => write_end(log, *n),
    }
}
