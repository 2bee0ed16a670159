//! Pieces that wait in a buffer until it is full, and are written together.
ghost use Rattle.std.specs.Prelude.{◌≡◌, [], OnOk};
ghost use Rattle.proof_log.specs.Waiting.{Puts, Writes};

use arrayvec::ArrayVec;
use tel_base::{Failed, Sink, write_whole};

/// Writes the bytes that wait. Then none waits.
pub fn flush<O: Sink, const ROOM: usize>(
    out: &mut O,
    waiting: &mut ArrayVec<u8, ROOM>,
) -> Result<(), Failed>
    ensures writes { Writes result waiting.old.items (O.bytes out.old) (O.bytes out.new) (O.faults out.old) (O.faults out.new) }
    ensures empty { OnOk result (waiting.new.items ≡ []) }
{
    match write_whole(out, waiting.as_slice()) {
        Ok(()) => {
            waiting.clear();
            Ok(())
        }
        Err(fault) => Err(fault),
    }
}

/// Puts a piece behind the bytes that wait, of which there are none. One that is longer than the
/// buffer is written at once.
fn put_first<O: Sink, const ROOM: usize>(
    out: &mut O,
    waiting: &mut ArrayVec<u8, ROOM>,
    piece: &[u8],
) -> Result<(), Failed>
    requires { waiting.old.items ≡ [] }
    ensures { Puts result piece.now (O.bytes out.old) (O.bytes out.new) waiting.old.items waiting.new.items (O.faults out.old) (O.faults out.new) }
{
    match waiting.try_extend_from_slice(piece) {
        Ok(()) => Ok(()),
        Err(_) => write_whole(out, piece),
    }
}

/// Writes the bytes that wait, and then puts a piece.
fn put_anew<O: Sink, const ROOM: usize>(
    out: &mut O,
    waiting: &mut ArrayVec<u8, ROOM>,
    piece: &[u8],
) -> Result<(), Failed>
    ensures { Puts result piece.now (O.bytes out.old) (O.bytes out.new) waiting.old.items waiting.new.items (O.faults out.old) (O.faults out.new) }
{
    match flush(out, waiting) {
        Ok(()) => put_first(out, waiting, piece),
        Err(fault) => Err(fault),
    }
}

/// Puts a piece behind the bytes that wait, which are written before where it doesn't fit.
pub fn put<O: Sink, const ROOM: usize>(
    out: &mut O,
    waiting: &mut ArrayVec<u8, ROOM>,
    piece: &[u8],
) -> Result<(), Failed>
    ensures { Puts result piece.now (O.bytes out.old) (O.bytes out.new) waiting.old.items waiting.new.items (O.faults out.old) (O.faults out.new) }
{
    match waiting.try_extend_from_slice(piece) {
        Ok(()) => Ok(()),
        Err(_) => put_anew(out, waiting, piece),
    }
}
