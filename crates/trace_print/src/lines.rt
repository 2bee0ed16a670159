//! The lines of the output, piece by piece.
ghost use Rattle.std.specs.Prelude.{◌≡◌, ◌<◌, ◌++◌, [], codes, decimal, length, IsTrue};
ghost use Rattle.std.specs.List.{flat_map, list_all};
ghost use Rattle.tel_semantics.specs.Print.{atom_text, state_line, state_lines, trace_lines, how_text};
ghost use Rattle.trace_print.specs.States.{are_below};
ghost use Rattle.trace_print.specs.Waiting.{Puts};

use crate::atoms::{is_shown, put_numbered};
use crate::pieces::put;
use arrayvec::ArrayVec;
use itoa::Buffer;
use sqlite_items::Items;
use tel_base::{Failed, Sink};
use tel_rule::Template;
use tel_semantics::How;

/// Puts a number in decimal, with what stands before it and after it.
pub fn put_counted<O: Sink, const ROOM: usize>(
    out: &mut O,
    waiting: &mut ArrayVec<u8, ROOM>,
    before: &[u8],
    number: u64,
    after: &[u8],
) -> Result<(), Failed>
    ensures { Puts result (before.now ++ decimal number ++ after.now) (O.bytes out.old) (O.bytes out.new) waiting.old.items waiting.new.items (O.faults out.old) (O.faults out.new) }
{
    match put(out, waiting, before) {
        Ok(()) => {}
        Err(fault) => return Err(fault),
    }
    let mut digits = Buffer::new();
    match put(out, waiting, digits.format(number).as_bytes()) {
        Ok(()) => put(out, waiting, after),
        Err(fault) => Err(fault),
    }
}

/// Puts the atom with this number, behind a space, where it is shown.
fn put_atom<O: Sink, const ROOM: usize>(
    out: &mut O,
    waiting: &mut ArrayVec<u8, ROOM>,
    template: &Template,
    atom: u32,
) -> Result<(), Failed>
    requires { atom < length template.now.atoms }
    ensures { Puts result (atom_text template.now atom) (O.bytes out.old) (O.bytes out.new) waiting.old.items waiting.new.items (O.faults out.old) (O.faults out.new) }
{
    if !is_shown(template, atom) {
        return Ok(());
    }
    match put(out, waiting, b" ") {
        Ok(()) => put_numbered(out, waiting, template, atom),
        Err(fault) => Err(fault),
    }
}

/// Puts the atoms of a state that are shown.
fn put_atoms<O: Sink, const ROOM: usize>(
    out: &mut O,
    waiting: &mut ArrayVec<u8, ROOM>,
    template: &Template,
    state: &[u32],
) -> Result<(), Failed>
    requires { IsTrue (are_below (length template.now.atoms) state.now) }
    ensures { Puts result (flat_map (atom_text template.now) state.now) (O.bytes out.old) (O.bytes out.new) waiting.old.items waiting.new.items (O.faults out.old) (O.faults out.new) }
{
    for atom in state {
        match put_atom(out, waiting, template, *atom) {
            Ok(()) => {}
            Err(fault) => return Err(fault),
        }
    }
    Ok(())
}

/// Puts the line of the state at an instant.
fn put_state<O: Sink, const ROOM: usize>(
    out: &mut O,
    waiting: &mut ArrayVec<u8, ROOM>,
    template: &Template,
    instant: usize,
    state: &[u32],
) -> Result<(), Failed>
    requires { IsTrue (are_below (length template.now.atoms) state.now) }
    ensures { Puts result (state_line template.now instant state.now) (O.bytes out.old) (O.bytes out.new) waiting.old.items waiting.new.items (O.faults out.old) (O.faults out.new) }
{
    match put_counted(out, waiting, b"state ", instant as u64, b":") {
        Ok(()) => {}
        Err(fault) => return Err(fault),
    }
    match put_atoms(out, waiting, template, state) {
        Ok(()) => put(out, waiting, b"\n"),
        Err(fault) => Err(fault),
    }
}

/// Puts the lines of these states.
fn put_states<O: Sink, const ROOM: usize>(
    out: &mut O,
    waiting: &mut ArrayVec<u8, ROOM>,
    template: &Template,
    states: &[Items<u32>],
) -> Result<(), Failed>
    requires { IsTrue (list_all (are_below (length template.now.atoms)) states.now) }
    ensures { Puts result (state_lines template.now 0 states.now) (O.bytes out.old) (O.bytes out.new) waiting.old.items waiting.new.items (O.faults out.old) (O.faults out.new) }
{
    for (instant, state) in states.iter().enumerate() {
        match put_state(out, waiting, template, instant, state.as_slice()) {
            Ok(()) => {}
            Err(fault) => return Err(fault),
        }
    }
    Ok(())
}

/// Puts the lines of a trace, given its states.
pub fn put_trace<O: Sink, const ROOM: usize>(
    out: &mut O,
    waiting: &mut ArrayVec<u8, ROOM>,
    template: &Template,
    states: &[Items<u32>],
) -> Result<(), Failed>
    requires { IsTrue (list_all (are_below (length template.now.atoms)) states.now) }
    ensures { Puts result (trace_lines template.now states.now) (O.bytes out.old) (O.bytes out.new) waiting.old.items waiting.new.items (O.faults out.old) (O.faults out.new) }
{
    match put(out, waiting, b"trace\n") {
        Ok(()) => put_states(out, waiting, template, states),
        Err(fault) => Err(fault),
    }
}

/// The closing line of a length up to the count of its traces.
pub fn closing_word(how: How) -> &'static [u8]
    ensures { result.now ≡ codes "end " ++ how_text how ++ codes " " }
{
    match how {
        How::Complete => b"end complete ",
        How::Limit => b"end limit ",
        How::Budget => b"end budget ",
    }
}
