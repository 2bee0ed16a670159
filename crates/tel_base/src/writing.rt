ghost use Rattle.std.specs.Prelude.{OnOk, OnErr};
ghost use Rattle.tel_base.specs.Counts.{HasCause};
ghost use Rattle.tel_base.specs.Bytes.{Appends, AppendsFront};

use crate::outside::{Failed, Sink};

/// Writes the whole piece, in as many calls as the sink needs. After an error some front of the
/// piece is written, and no call follows the one that failed. An empty piece makes no call.
pub fn write_whole<O: Sink>(sink: &mut O, piece: &[u8]) -> Result<(), Failed>
    ensures ok { OnOk result (Appends (O.bytes sink.old) (O.bytes sink.new) piece.now) }
    ensures err { OnErr result (AppendsFront (O.bytes sink.old) (O.bytes sink.new) piece.now) }
    ensures cause { HasCause (O.faults sink.old) (O.faults sink.new) result }
{
    let mut done: usize = 0;
    'writing: while done < piece.len() {
        match sink.write(&piece[done..]) {
            Ok(count) => done += count,
            Err(fault) => return Err(fault),
        }
    }
    Ok(())
}
