//! The lines of the walker, one behind another.
ghost use Rattle.std.specs.Prelude.{◌≡◌, ◌≤◌, ◌++◌, codes, decimal, length, IfOk, OnOk};
ghost use Rattle.walker_text.specs.Walker.{walker_text};

use itoa::Buffer;
use std::alloc::Global;
use tel_base::{Memory, Text};

/// How many bytes are taken at first: 289 for the lines and 10 for each of six numbers fit in.
const ROOM: usize = 384;

/// Puts a line.
fn put_line(text: &mut Vec<u8>, line: &[u8]) -> Result<(), Memory>
    ensures { OnOk result (text.new.items ≡ text.old.items ++ line.now ++ codes "\n") }
{
    text.extend_from_slice(line)?;
    text.extend_from_slice(b"\n")?;
    Ok(())
}

/// Puts a line with a number in it, in decimal.
fn put_counted(text: &mut Vec<u8>, before: &[u8], number: u32, after: &[u8]) -> Result<(), Memory>
    ensures { OnOk result (text.new.items ≡ text.old.items ++ (before.now ++ decimal number ++ after.now) ++ codes "\n") }
{
    let mut digits = Buffer::new();
    text.extend_from_slice(before)?;
    text.extend_from_slice(digits.format(number).as_bytes())?;
    put_line(text, after)?;
    Ok(())
}

/// Puts the lines of the walker with this many cells.
fn put_walker(text: &mut Vec<u8>, cells: u32) -> Result<(), Memory>
    ensures { OnOk result (text.new.items ≡ text.old.items ++ walker_text cells) }
{
    put_line(text, b"#program always.")?;
    put_counted(text, b"cell(1..", cells, b").")?;
    put_line(text, b"#program initial.")?;
    put_line(text, b"at(1).")?;
    put_line(text, b"{mark(X)} :- cell(X).")?;
    put_line(text, b"{x}. {y}.")?;
    put_counted(text, b":- x, y, not &tel { >> at(", cells, b") }.")?;
    put_counted(text, b":- x, not y, not &tel { >> at(", cells, b") }.")?;
    put_counted(text, b":- not x, y, not &tel { >> at(", cells, b") }.")?;
    put_counted(text, b":- not x, not y, not &tel { >> at(", cells, b") }.")?;
    put_line(text, b"#program dynamic.")?;
    put_counted(text, b"at(X+1) :- 'at(X), cell(X), X < ", cells, b".")?;
    put_line(text, b"#show at/1.")?;
    Ok(())
}

/// The text of the walker with this many cells, a program of the temporal language.
///
/// The walker stands at cell k + 1 in state k, counted from 0, for as long as there is such a cell,
/// and then nowhere. Whether each cell is marked, and whether x and y hold, is free in the first state
/// and changes nothing of that. For each choice of x and y it is to stand at the last cell in the last
/// state. So with at least one cell the length `cells` has one trace for each choice of the marks, of x
/// and of y, which are 2 to the power of `cells + 2`, and each other length has none. With 0 cells no
/// length has a trace.
///
/// The text has at most 349 bytes. A number above 2147483647, the greatest of the language, gives a
/// text that is no program.
///
/// # Errors
///
/// `Memory` for want of memory, and for nothing else.
pub fn generate(alloc: Global, cells: u32) -> Result<Text, Memory>
    ensures text { IfOk result (λ text. text ≡ walker_text cells) }
    ensures small { IfOk result (λ text. length text ≤ 349) }
{
    let mut text = Vec::with_capacity(alloc, ROOM)?;
    put_walker(&mut text, cells)?;
    Ok(Text::from_vec(text))
}
