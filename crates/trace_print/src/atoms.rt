//! Atoms, piece by piece.
ghost use Rattle.std.specs.Prelude.{◌≡◌, ℕ, ◌<◌, ◌++◌, [], ◌∷◌, codes, length, IsTrue, if◌then◌else◌};
ghost use Rattle.std.specs.List.{flat_map, list_all};
ghost use Rattle.std.specs.Fmt.{signed_decimal};
ghost use Rattle.tel_rule.specs.Atoms.{name_bytes, value_in_range, atom_in_range};
ghost use Rattle.tel_rule.specs.Rising.{numbers_rise};
ghost use Rattle.tel_semantics.specs.Traces.{is_member};
ghost use Rattle.tel_semantics.specs.Print.{escaped, term_text, value_text, next_text, args_text, sign_text, ground_text, numbered_text, is_shown};
ghost use Rattle.trace_print.specs.Waiting.{Puts};

use crate::pieces::put;
use arrayvec::ArrayVec;
use itoa::Buffer;
use tel_base::{Failed, Sink};
use tel_rule::{GroundAtom, Show, Template};
use tel_term::{Symbols, Term, Value};

/// Whether a number is among these, which rise.
fn is_among(numbers: &[u32], number: u32) -> bool
    requires { IsTrue (numbers_rise numbers.now) }
    ensures { result ≡ is_member numbers.now number }
{
    numbers.binary_search(&number).is_ok()
}

/// Whether an atom is shown.
pub fn is_shown(template: &Template, atom: u32) -> bool
    ensures { result ≡ is_shown template.now.show atom }
{
    match &template.show {
        Show::All => true,
        Show::Only(shown) => is_among(shown.as_slice(), atom),
    }
}

/// Puts a number in decimal.
fn put_number<O: Sink, const ROOM: usize>(
    out: &mut O,
    waiting: &mut ArrayVec<u8, ROOM>,
    number: i32,
) -> Result<(), Failed>
    ensures { Puts result (signed_decimal number) (O.bytes out.old) (O.bytes out.new) waiting.old.items waiting.new.items (O.faults out.old) (O.faults out.new) }
{
    let mut digits = Buffer::new();
    put(out, waiting, digits.format(number).as_bytes())
}

/// Puts a byte of a string.
fn put_escaped<O: Sink, const ROOM: usize>(
    out: &mut O,
    waiting: &mut ArrayVec<u8, ROOM>,
    byte: u8,
) -> Result<(), Failed>
    ensures { Puts result (escaped byte) (O.bytes out.old) (O.bytes out.new) waiting.old.items waiting.new.items (O.faults out.old) (O.faults out.new) }
{
    match byte {
        b'\n' => put(out, waiting, b"\\n"),
        b'"' => put(out, waiting, b"\\\""),
        b'\\' => put(out, waiting, b"\\\\"),
        _ => put(out, waiting, &[byte]),
    }
}

/// Puts the bytes of a string.
fn put_each<O: Sink, const ROOM: usize>(
    out: &mut O,
    waiting: &mut ArrayVec<u8, ROOM>,
    bytes: &[u8],
) -> Result<(), Failed>
    ensures { Puts result (flat_map escaped bytes.now) (O.bytes out.old) (O.bytes out.new) waiting.old.items waiting.new.items (O.faults out.old) (O.faults out.new) }
{
    for byte in bytes {
        match put_escaped(out, waiting, *byte) {
            Ok(()) => {}
            Err(fault) => return Err(fault),
        }
    }
    Ok(())
}

/// Puts a string between quotes.
fn put_string<O: Sink, const ROOM: usize>(
    out: &mut O,
    waiting: &mut ArrayVec<u8, ROOM>,
    bytes: &[u8],
) -> Result<(), Failed>
    ensures { Puts result (codes "\"" ++ flat_map escaped bytes.now ++ codes "\"") (O.bytes out.old) (O.bytes out.new) waiting.old.items waiting.new.items (O.faults out.old) (O.faults out.new) }
{
    match put(out, waiting, b"\"") {
        Ok(()) => {}
        Err(fault) => return Err(fault),
    }
    match put_each(out, waiting, bytes) {
        Ok(()) => put(out, waiting, b"\""),
        Err(fault) => Err(fault),
    }
}

/// Puts a term.
fn put_term<O: Sink, const ROOM: usize>(
    out: &mut O,
    waiting: &mut ArrayVec<u8, ROOM>,
    term: &Term,
) -> Result<(), Failed>
    ensures { Puts result (term_text term.now) (O.bytes out.old) (O.bytes out.new) waiting.old.items waiting.new.items (O.faults out.old) (O.faults out.new) }
{
    match term {
        Term::Num(number) => put_number(out, waiting, *number),
        Term::Name(name) => put(out, waiting, name.as_slice()),
        Term::Str(string) => put_string(out, waiting, string.as_slice()),
    }
}

/// Puts what a value stands for.
fn put_value<O: Sink, const ROOM: usize>(
    out: &mut O,
    waiting: &mut ArrayVec<u8, ROOM>,
    symbols: &Symbols,
    value: Value,
) -> Result<(), Failed>
    requires { IsTrue (value_in_range symbols.now value) }
    ensures { Puts result (value_text symbols.now value) (O.bytes out.old) (O.bytes out.new) waiting.old.items waiting.new.items (O.faults out.old) (O.faults out.new) }
{
    match value {
        Value::Num(number) => put_number(out, waiting, number),
        Value::Sym(_) => put_term(out, waiting, symbols.term(value)),
    }
}

/// Puts an argument behind another.
fn put_next<O: Sink, const ROOM: usize>(
    out: &mut O,
    waiting: &mut ArrayVec<u8, ROOM>,
    symbols: &Symbols,
    value: Value,
) -> Result<(), Failed>
    requires { IsTrue (value_in_range symbols.now value) }
    ensures { Puts result (next_text symbols.now value) (O.bytes out.old) (O.bytes out.new) waiting.old.items waiting.new.items (O.faults out.old) (O.faults out.new) }
{
    match put(out, waiting, b",") {
        Ok(()) => put_value(out, waiting, symbols, value),
        Err(fault) => Err(fault),
    }
}

/// Puts the arguments behind the first.
fn put_more<O: Sink, const ROOM: usize>(
    out: &mut O,
    waiting: &mut ArrayVec<u8, ROOM>,
    symbols: &Symbols,
    args: &[Value],
) -> Result<(), Failed>
    requires { IsTrue (list_all (value_in_range symbols.now) args.now) }
    ensures { Puts result (flat_map (next_text symbols.now) args.now) (O.bytes out.old) (O.bytes out.new) waiting.old.items waiting.new.items (O.faults out.old) (O.faults out.new) }
{
    for value in args {
        match put_next(out, waiting, symbols, *value) {
            Ok(()) => {}
            Err(fault) => return Err(fault),
        }
    }
    Ok(())
}

/// Puts the first argument and those behind it, in brackets.
fn put_some<O: Sink, const ROOM: usize>(
    out: &mut O,
    waiting: &mut ArrayVec<u8, ROOM>,
    symbols: &Symbols,
    first: Value,
    more: &[Value],
) -> Result<(), Failed>
    requires first { IsTrue (value_in_range symbols.now first) }
    requires more { IsTrue (list_all (value_in_range symbols.now) more.now) }
    ensures { Puts result (codes "(" ++ value_text symbols.now first ++ flat_map (next_text symbols.now) more.now ++ codes ")") (O.bytes out.old) (O.bytes out.new) waiting.old.items waiting.new.items (O.faults out.old) (O.faults out.new) }
{
    match put(out, waiting, b"(") {
        Ok(()) => {}
        Err(fault) => return Err(fault),
    }
    match put_value(out, waiting, symbols, first) {
        Ok(()) => {}
        Err(fault) => return Err(fault),
    }
    match put_more(out, waiting, symbols, more) {
        Ok(()) => put(out, waiting, b")"),
        Err(fault) => Err(fault),
    }
}

/// Puts arguments in brackets, and of none nothing.
fn put_args<O: Sink, const ROOM: usize>(
    out: &mut O,
    waiting: &mut ArrayVec<u8, ROOM>,
    symbols: &Symbols,
    args: &[Value],
) -> Result<(), Failed>
    requires { IsTrue (list_all (value_in_range symbols.now) args.now) }
    ensures { Puts result (args_text symbols.now args.now) (O.bytes out.old) (O.bytes out.new) waiting.old.items waiting.new.items (O.faults out.old) (O.faults out.new) }
{
    match args {
        [] => Ok(()),
        [first, more @ ..] => put_some(out, waiting, symbols, *first, more),
    }
}

/// The hyphen of a negative atom.
fn sign_of(negative: bool) -> &'static [u8]
    ensures { result.now ≡ sign_text negative }
{
    if negative { b"-" } else { b"" }
}

/// The bytes of a name. A number or a string is none.
fn name_of(term: &Term) -> &[u8]
    ensures { result.now ≡ name_bytes term.now }
{
    match term {
        Term::Name(name) => name.as_slice(),
        Term::Num(_) => &[],
        Term::Str(_) => &[],
    }
}

/// Puts an atom.
fn put_ground<O: Sink, const ROOM: usize>(
    out: &mut O,
    waiting: &mut ArrayVec<u8, ROOM>,
    symbols: &Symbols,
    atom: &GroundAtom,
) -> Result<(), Failed>
    requires { IsTrue (atom_in_range symbols.now atom.now) }
    ensures { Puts result (ground_text symbols.now atom.now) (O.bytes out.old) (O.bytes out.new) waiting.old.items waiting.new.items (O.faults out.old) (O.faults out.new) }
{
    match put(out, waiting, sign_of(atom.negative)) {
        Ok(()) => {}
        Err(fault) => return Err(fault),
    }
    match put(out, waiting, name_of(symbols.term(Value::Sym(atom.name)))) {
        Ok(()) => put_args(out, waiting, symbols, atom.args.as_slice()),
        Err(fault) => Err(fault),
    }
}

/// Puts the atom with this number.
pub fn put_numbered<O: Sink, const ROOM: usize>(
    out: &mut O,
    waiting: &mut ArrayVec<u8, ROOM>,
    template: &Template,
    atom: u32,
) -> Result<(), Failed>
    requires { atom < length template.now.atoms }
    ensures { Puts result (numbered_text template.now atom) (O.bytes out.old) (O.bytes out.new) waiting.old.items waiting.new.items (O.faults out.old) (O.faults out.new) }
{
    match template.atoms.get(atom as usize) {
        Some(found) => put_ground(out, waiting, &template.symbols, found),
        None => unreachable!(),
    }
}
