ghost use Rattle.std.specs.Prelude.{◌≡◌, ℕ, ◌+◌, ◌-◌, ◌^◌, ◌<◌, ◌≤◌, List, Option, length, take, drop, IfOk, IfSome, OnOk, OnErr};
ghost use Rattle.tel_base.specs.Counts.{HasCause};
ghost use Rattle.tel_base.specs.Bytes.{Appends};

use std::alloc::{AllocError, AllocFailed};
use thiserror::Error;

/// A call of a source or a sink gave nothing. The count of faults of that object tells of it.
#[derive(Clone, Copy, Debug, PartialEq, Eq, Error)]
#[error("a call to the outside failed")]
pub struct Failed;

/// Want of memory. No contract ties it to a cause.
#[derive(Clone, Copy, Debug, PartialEq, Eq, Error)]
#[error("out of memory")]
pub struct Memory;

impl From<AllocError> for Memory {
    fn from(_: AllocError) -> Memory {
        Memory
    }
}

impl<T: Drop> From<AllocFailed<T>> for Memory {
    fn from(_: AllocFailed<T>) -> Memory {
        Memory
    }
}

/// Where texts come from: each name has a text, which is read in pieces.
pub trait Source {
    /// The bytes of the text of a name, where they are told. No call changes them.
    ghost text: { Self → List ℕ → Option (List ℕ) };

    /// How many calls have failed. It never falls.
    ghost faults: { Self → ℕ };

    /// The name of the last failed call, where it is told.
    ghost failed: { Self → Option (List ℕ) };

    /// Reads bytes of the text of `name`, from place `from` on, into the front of `into`, and says
    /// how many. 0 for an `into` with room is the end of the text.
    fn read(&mut self, name: &str, from: u64, into: &mut [u8]) -> Result<usize, Failed>
        requires { IfSome (text self.old name.now) (λ bytes. from ≤ length bytes) }
        ensures room { IfOk result (λ count. count ≤ length into.new) }
        ensures bytes { IfOk result (λ count. IfSome (text self.old name.now)
            (λ bytes. take count into.new ≡ take count (drop from bytes))) }
        ensures end { IfOk result (λ count. IfSome (text self.old name.now)
            (λ bytes. count ≡ 0 → 0 < length into.new → from ≡ length bytes)) }
        ensures texts { (word : List ℕ) → text self.new word ≡ text self.old word }
        ensures cause { HasCause (faults self.old) (faults self.new) result }
        ensures named { OnErr result (IfSome (failed self.new) (λ word. word ≡ name.now)) };
}

/// Where bytes go to.
pub trait Sink {
    /// All the bytes that were taken, where they are told.
    ghost bytes: { Self → Option (List ℕ) };

    /// How many calls have failed. It never falls.
    ghost faults: { Self → ℕ };

    /// Takes a front of the piece, and says how many bytes: at least one, where there is one.
    fn write(&mut self, piece: &[u8]) -> Result<usize, Failed>
        ensures room { IfOk result (λ count. count ≤ length piece.now) }
        ensures some { IfOk result (λ count. 0 < length piece.now → 0 < count) }
        ensures taken { IfOk result (λ count. Appends (bytes self.old) (bytes self.new) (take count piece.now)) }
        ensures nothing { OnErr result (bytes self.new ≡ bytes self.old) }
        ensures cause { HasCause (faults self.old) (faults self.new) result };
}
