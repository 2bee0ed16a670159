//! The one line of each refusal, with its place. It goes out in one piece, but for one with a name, which may have any length.
ghost use Rattle.std.specs.Prelude.{◌≡◌, ℕ, ◌+◌, ◌^◌, ◌<◌, ◌≤◌, ◌++◌, [], length, codes, decimal, OnOk, OnErr};
ghost use Rattle.text_answer.specs.Delivery.{code_of, Delivers, TellsFaults};
ghost use Rattle.tel_base.specs.Bytes.{Appends, AppendsFront};
ghost use Rattle.tel_base.specs.Counts.{HasCause};
ghost use Rattle.text_answer.specs.Verdict.{usage_line, large_line, line_at, end_at, read_line, place_text, position_text};

use crate::status::Status;
use arrayvec::ArrayVec;
use itoa::Buffer;
use tel_base::{Failed, Place, Sink, write_whole};

/// How many bytes a line has at most.
const ROOM: usize = 128;

/// Adds a piece to a line.
fn push<const SIZE: usize>(line: &mut ArrayVec<u8, SIZE>, piece: &[u8])
    requires { length line.old.items + length piece.now ≤ SIZE }
    ensures { line.new.items ≡ line.old.items ++ piece.now }
{
    match line.try_extend_from_slice(piece) {
        Ok(()) => {}
        Err(_) => unreachable!(),
    }
}

/// Adds a number in decimal digits.
fn push_number<const SIZE: usize>(line: &mut ArrayVec<u8, SIZE>, number: u64)
    requires { length line.old.items + 20 ≤ SIZE }
    ensures digits { line.new.items ≡ line.old.items ++ decimal number }
    ensures short { length line.new.items ≤ length line.old.items + 20 }
{
    let mut digits = Buffer::new();
    push(line, digits.format(number).as_bytes());
}

/// Adds the line and the byte of a place.
fn push_position<const SIZE: usize>(line: &mut ArrayVec<u8, SIZE>, place: Place)
    requires { length line.old.items + 41 ≤ SIZE }
    ensures position { line.new.items ≡ line.old.items ++ position_text place }
    ensures short { length line.new.items ≤ length line.old.items + 41 }
{
    push_number(line, u64::from(place.line));
    push(line, b":");
    push_number(line, u64::from(place.at));
}

/// Adds a place.
fn push_place<const SIZE: usize>(line: &mut ArrayVec<u8, SIZE>, place: Place)
    requires { length line.old.items + 62 ≤ SIZE }
    ensures place { line.new.items ≡ line.old.items ++ place_text place }
    ensures short { length line.new.items ≤ length line.old.items + 62 }
{
    push_number(line, u64::from(place.file));
    push(line, b":");
    push_position(line, place);
}

/// Adds the end of a line, which says a place.
fn push_end<const SIZE: usize>(line: &mut ArrayVec<u8, SIZE>, place: Place)
    requires { length line.old.items + 67 ≤ SIZE }
    ensures { line.new.items ≡ line.old.items ++ end_at place }
{
    push(line, b" at ");
    push_place(line, place);
    push(line, b"\n");
}

/// Fills a line with a cause and a place.
fn fill_at<const SIZE: usize>(line: &mut ArrayVec<u8, SIZE>, cause: &[u8], place: Place)
    requires empty { line.old.items ≡ [] }
    requires room { length cause.now + 74 ≤ SIZE }
    ensures { line.new.items ≡ line_at cause.now place }
{
    push(line, b"error: ");
    push(line, cause);
    push_end(line, place);
}

/// Fills a line for a failed read of the file word at this place, from 0.
fn fill_read<const SIZE: usize>(line: &mut ArrayVec<u8, SIZE>, place: usize)
    requires empty { line.old.items ≡ [] }
    requires room { 33 ≤ SIZE }
    requires place { place < 2 ^ 63 }
    ensures { line.new.items ≡ read_line place }
{
    push(line, b"error: read ");
    push_number(line, place as u64 + 1);
    push(line, b"\n");
}

/// Writes a line, and answers this status or that of a failed write.
fn refuse<O: Sink>(out: &mut O, line: &[u8], status: Status) -> Status
    requires { code_of status < 71 }
    ensures delivers { Delivers (code_of result) (code_of status) line.now (O.bytes out.old) (O.bytes out.new) }
    ensures faults { TellsFaults (code_of result) (O.faults out.old) (O.faults out.new) }
{
    match write_whole(out, line) {
        Ok(()) => status,
        Err(_) => Status::Write,
    }
}

/// Answers words that are no line of the command.
pub fn refuse_usage<O: Sink>(out: &mut O) -> Status
    ensures delivers { Delivers (code_of result) 64 usage_line (O.bytes out.old) (O.bytes out.new) }
    ensures faults { TellsFaults (code_of result) (O.faults out.old) (O.faults out.new) }
{
    refuse(out, b"error: usage\n", Status::Usage)
}

/// Answers texts that have too many bytes, or whose program has too many names for the greatest length.
pub fn refuse_large<O: Sink>(out: &mut O) -> Status
    ensures delivers { Delivers (code_of result) 69 large_line (O.bytes out.old) (O.bytes out.new) }
    ensures faults { TellsFaults (code_of result) (O.faults out.old) (O.faults out.new) }
{
    refuse(out, b"error: large\n", Status::Large)
}

/// Answers texts that are refused for this cause, at this place.
pub fn refuse_at<O: Sink>(out: &mut O, cause: &[u8], place: Place) -> Status
    requires { length cause.now ≤ 16 }
    ensures delivers { Delivers (code_of result) 65 (line_at cause.now place) (O.bytes out.old) (O.bytes out.new) }
    ensures faults { TellsFaults (code_of result) (O.faults out.old) (O.faults out.new) }
{
    let mut line: ArrayVec<u8, ROOM> = ArrayVec::new();
    fill_at(&mut line, cause, place);
    refuse(out, line.as_slice(), Status::Refused)
}

/// Answers a failed read of the file word at this place, from 0.
pub fn refuse_read<O: Sink>(out: &mut O, place: usize) -> Status
    requires { place < 2 ^ 63 }
    ensures delivers { Delivers (code_of result) 66 (read_line place) (O.bytes out.old) (O.bytes out.new) }
    ensures faults { TellsFaults (code_of result) (O.faults out.old) (O.faults out.new) }
{
    let mut line: ArrayVec<u8, ROOM> = ArrayVec::new();
    fill_read(&mut line, place);
    refuse(out, line.as_slice(), Status::Read)
}

/// Writes three pieces one after another.
fn write_three<O: Sink>(
    out: &mut O,
    first: &[u8],
    second: &[u8],
    third: &[u8],
) -> Result<(), Failed>
    ensures ok { OnOk result (Appends (O.bytes out.old) (O.bytes out.new) (first.now ++ (second.now ++ third.now))) }
    ensures err { OnErr result (AppendsFront (O.bytes out.old) (O.bytes out.new) (first.now ++ (second.now ++ third.now))) }
    ensures cause { HasCause (O.faults out.old) (O.faults out.new) result }
{
    write_whole(out, first)?;
    write_two(out, second, third)
}

/// Writes two pieces one after the other.
fn write_two<O: Sink>(out: &mut O, first: &[u8], second: &[u8]) -> Result<(), Failed>
    ensures ok { OnOk result (Appends (O.bytes out.old) (O.bytes out.new) (first.now ++ second.now)) }
    ensures err { OnErr result (AppendsFront (O.bytes out.old) (O.bytes out.new) (first.now ++ second.now)) }
    ensures cause { HasCause (O.faults out.old) (O.faults out.new) result }
{
    write_whole(out, first)?;
    write_whole(out, second)
}

/// Answers texts that are refused for a cause that has a name, of whatever length, at this place. `cause` is the front of the line.
pub fn refuse_named<O: Sink>(out: &mut O, cause: &[u8], name: &[u8], place: Place) -> Status
    ensures delivers { Delivers (code_of result) 65 (cause.now ++ (name.now ++ end_at place)) (O.bytes out.old) (O.bytes out.new) }
    ensures faults { TellsFaults (code_of result) (O.faults out.old) (O.faults out.new) }
{
    let mut end: ArrayVec<u8, ROOM> = ArrayVec::new();
    push_end(&mut end, place);
    match write_three(out, cause, name, end.as_slice()) {
        Ok(()) => Status::Refused,
        Err(_) => Status::Write,
    }
}
