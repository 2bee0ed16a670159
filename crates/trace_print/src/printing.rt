//! The calls that print. Each has written all of its bytes when it returns.
ghost use Rattle.std.specs.Prelude.{◌≡◌, ◌++◌, [], decimal, length, IsTrue, OnOk, OnErr};
ghost use Rattle.std.specs.List.{list_all};
ghost use Rattle.tel_base.specs.Bytes.{Appends, AppendsFront};
ghost use Rattle.tel_base.specs.Counts.{HasCause};
ghost use Rattle.tel_semantics.specs.Print.{header_line, trace_lines, closing_line};
ghost use Rattle.trace_print.specs.States.{are_below};
ghost use Rattle.trace_print.specs.Waiting.{Writes};

use crate::lines::{closing_word, put_counted, put_trace};
use crate::pieces::flush;
use arrayvec::ArrayVec;
use sqlite_items::Items;
use tel_base::{Failed, Sink};
use tel_rule::{Template, Trace};
use tel_semantics::How;

/// How many bytes wait at most.
const ROOM: usize = 1024;

/// Writes a number in decimal, with what stands before it and after it.
fn write_counted<O: Sink, const SIZE: usize>(
    out: &mut O,
    waiting: &mut ArrayVec<u8, SIZE>,
    before: &[u8],
    number: u64,
    after: &[u8],
) -> Result<(), Failed>
    requires { waiting.old.items ≡ [] }
    ensures { Writes result (before.now ++ decimal number ++ after.now) (O.bytes out.old) (O.bytes out.new) (O.faults out.old) (O.faults out.new) }
{
    match put_counted(out, waiting, before, number, after) {
        Ok(()) => flush(out, waiting),
        Err(fault) => Err(fault),
    }
}

/// Writes the lines of a trace, given its states.
fn write_trace<O: Sink, const SIZE: usize>(
    out: &mut O,
    waiting: &mut ArrayVec<u8, SIZE>,
    template: &Template,
    states: &[Items<u32>],
) -> Result<(), Failed>
    requires empty { waiting.old.items ≡ [] }
    requires below { IsTrue (list_all (are_below (length template.now.atoms)) states.now) }
    ensures { Writes result (trace_lines template.now states.now) (O.bytes out.old) (O.bytes out.new) (O.faults out.old) (O.faults out.new) }
{
    match put_trace(out, waiting, template, states) {
        Ok(()) => flush(out, waiting),
        Err(fault) => Err(fault),
    }
}

/// Prints the header of a length, `length n`. After an error some front of the line is written.
pub fn print_length<O: Sink>(out: &mut O, n: u32) -> Result<(), Failed>
    ensures ok { OnOk result (Appends (O.bytes out.old) (O.bytes out.new) (header_line n)) }
    ensures err { OnErr result (AppendsFront (O.bytes out.old) (O.bytes out.new) (header_line n)) }
    ensures cause { HasCause (O.faults out.old) (O.faults out.new) result }
{
    let mut waiting: ArrayVec<u8, ROOM> = ArrayVec::new();
    write_counted(out, &mut waiting, b"length ", u64::from(n), b"\n")
}

/// Prints a trace over the atoms of the template: the line `trace`, and a line for each of its states
/// with the shown atoms that are true there. After an error some front of the lines is written.
pub fn print_trace<O: Sink>(out: &mut O, template: &Template, trace: &Trace) -> Result<(), Failed>
    requires { IsTrue (list_all (are_below (length template.now.atoms)) trace.now) }
    ensures ok { OnOk result (Appends (O.bytes out.old) (O.bytes out.new) (trace_lines template.now trace.now)) }
    ensures err { OnErr result (AppendsFront (O.bytes out.old) (O.bytes out.new) (trace_lines template.now trace.now)) }
    ensures cause { HasCause (O.faults out.old) (O.faults out.new) result }
{
    let mut waiting: ArrayVec<u8, ROOM> = ArrayVec::new();
    write_trace(out, &mut waiting, template, trace.states.as_slice())
}

/// Prints the closing line of a length: how its listing ended, and how many traces were printed.
/// After an error some front of the line is written.
pub fn print_end<O: Sink>(out: &mut O, how: How, traces: u64) -> Result<(), Failed>
    ensures ok { OnOk result (Appends (O.bytes out.old) (O.bytes out.new) (closing_line how traces)) }
    ensures err { OnErr result (AppendsFront (O.bytes out.old) (O.bytes out.new) (closing_line how traces)) }
    ensures cause { HasCause (O.faults out.old) (O.faults out.new) result }
{
    let mut waiting: ArrayVec<u8, ROOM> = ArrayVec::new();
    write_counted(out, &mut waiting, closing_word(how), traces, b"\n")
}
