//! A sink in memory, for tests and for callers that want the bytes themselves, and one that lets go
//! of all it takes.
ghost use Rattle.std.specs.Prelude.{◌≡◌, ◌<◌, ◌≤◌, [], Some, None, length, take, IfOk, OnErr};
ghost use Rattle.std.specs.Result.{is_err};
ghost use Rattle.tel_base.specs.Counts.{HasCause};
ghost use Rattle.tel_base.specs.Bytes.{Appends};
ghost use Rattle.tel_base.specs.Taken.{write_fails, after_write, accepted};

use crate::outside::{Failed, Memory, Sink};
use std::alloc::Global;
use std::marker::Model;

/// Bytes that are taken into memory, up to a room that is taken at once. The calls whose numbers are
/// listed fail, counted from 1, and so do calls with a byte for which there is no room.
#[derive(Drop)]
pub struct MemSink {
    bytes: Vec<u8>,
    room: usize,
    most: usize,
    fails: Vec<u64>,
    calls: u64,
    faults: u64,
}

impl Model for MemSink {
    ghost use Rattle.std.specs.Prelude.{◌≤◌, vec_len, vec_capacity};
    ghost use Rattle.tel_base.specs.Taken.{Taken};

    ghost Value = { Taken };

    ghost view = { λ sink. record {
      bytes = sink.bytes.items;
      room = sink.room;
      most = sink.most;
      fails = sink.fails.items;
      calls = sink.calls;
      faults = sink.faults;
    } };

    ghost invariant = { λ sink. (1 ≤ sink.most) × (vec_len sink.bytes ≤ sink.room) × (sink.room ≤ vec_capacity sink.bytes) };
}

impl MemSink {
    /// A sink with room for `room` bytes, which takes at most `most` in one call. The calls whose
    /// numbers are in `fails` fail, the first call has number 1.
    pub fn new(alloc: Global, room: usize, most: usize, fails: Vec<u64>) -> Result<MemSink, Memory>
        requires { 1 ≤ most }
        ensures { IfOk result (λ sink. sink ≡ record {
          bytes = [];
          room = room;
          most = most;
          fails = fails.items;
          calls = 0;
          faults = 0;
        }) }
    {
        let bytes = Vec::with_capacity(alloc, room)?;
        Ok(MemSink {
            bytes,
            room,
            most,
            fails,
            calls: 0,
            faults: 0,
        })
    }

    /// The bytes that were taken.
    pub fn bytes(&self) -> &[u8]
        ensures { result.now ≡ self.now.bytes }
    {
        self.bytes.as_slice()
    }
}

impl Sink for MemSink {
    ghost bytes = { λ sink. Some sink.bytes };

    ghost faults = { λ sink. sink.faults };

    fn write(&mut self, piece: &[u8]) -> Result<usize, Failed>
        ensures room { IfOk result (λ count. count ≤ length piece.now) }
        ensures some { IfOk result (λ count. 0 < length piece.now → 0 < count) }
        ensures taken { IfOk result (λ count. Appends (Some self.old.bytes) (Some self.new.bytes) (take count piece.now)) }
        ensures nothing { OnErr result (Some self.new.bytes ≡ Some self.old.bytes) }
        ensures cause { HasCause self.old.faults self.new.faults result }
        ensures fails { is_err result ≡ write_fails self.old piece.now }
        ensures after { self.new ≡ after_write self.old piece.now }
        ensures count { IfOk result (λ count. count ≡ accepted self.old piece.now) }
    {
        let left = self.room - self.bytes.len();
        self.calls = self.calls.saturating_add(1);
        if self.fails.contains(&self.calls) || (!piece.is_empty() && left == 0) {
            self.faults = self.faults.saturating_add(1);
            return Err(Failed);
        }
        let count = piece.len().min(self.most.min(left));
        match self.bytes.extend_from_slice(&piece[..count]) {
            Ok(()) => Ok(count),
            Err(_) => unreachable!(),
        }
    }
}

/// Takes everything and keeps nothing. No call fails.
#[derive(Clone, Copy, Debug)]
pub struct NullSink;

impl Sink for NullSink {
    ghost bytes = { λ sink. None };

    ghost faults = { λ sink. 0 };

    fn write(&mut self, piece: &[u8]) -> Result<usize, Failed>
        ensures { result ≡ Ok (length piece.now) }
    {
        Ok(piece.len())
    }
}
