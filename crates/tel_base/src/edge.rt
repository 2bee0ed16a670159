//! The files and streams of the system. What they hold no contract can tell, so as a source and a sink
//! they tell no bytes. They are proved against the streams inside them, as far as those tell theirs, and
//! against the counts of failed calls.
ghost use Rattle.std.specs.Prelude.{◌≡◌, ℕ, ◌+◌, ◌<◌, ◌≤◌, true, false, List, Option, Some, None, length, take, min, IfOk, OnOk, OnErr, if◌then◌else◌};
ghost use Rattle.std.specs.Result.{is_err};
ghost use Rattle.std.specs.Io.KnownBytes.{Consumes, IsAtEnd, ReadConsumes, WriteAppends};
ghost use Rattle.tel_base.specs.Counts.{HasCause, counted, last_count};
ghost use Rattle.tel_base.specs.Opened.{is_input, reads_on, is_read_to, after_given, after_failed};

use crate::outside::{Failed, Sink, Source};
use std::alloc::Global;
use std::io::Read;
use std::marker::Model;
use std::rt::Files;
use std::{fs, io};

/// Files by their names, and standard input by the name `-`.
///
/// A call at place 0 opens the file anew, and a call for the same file at the place where the last
/// one ended reads on. Standard input can't be opened anew. Every other call fails, and after a call
/// that failed a file has to be opened anew.
#[derive(Drop)]
pub struct FileSource<R: Files + Input> {
    runtime: R,
    alloc: Global,
    input: R::Reader,
    taken: u64,
    reading: Option<Reading<R::File>>,
    faults: u64,
}

// A file that is read, its name, and the place up to which it was read.
#[derive(Drop)]
struct Reading<F> {
    name: String,
    file: F,
    place: u64,
}

impl<R: Files + Input> Model for FileSource<R> {
    ghost use Rattle.std.specs.Prelude.{string_bytes};
    ghost use Rattle.std.specs.Option.{option_map, option_and_then};
    ghost use Rattle.tel_base.specs.Opened.{Incoming};

    ghost Value = { Incoming };

    ghost view = { λ source. record {
      opened = record {
        input = source.taken;
        file = option_map (λ reading. (string_bytes reading.name, reading.place)) source.reading;
        faults = source.faults;
      };
      input_left = R.Reader.remaining source.input;
      file_left = option_and_then (λ reading. R.File.remaining reading.file) source.reading;
    } };
}

impl<R: Files + Input> FileSource<R> {
    /// A source over the files and the standard input of this runtime.
    pub fn new(alloc: Global, runtime: R) -> FileSource<R>
        ensures { result.opened ≡ record { input = 0; file = None; faults = 0 } }
    {
        let input = runtime.reader();
        FileSource {
            runtime,
            alloc,
            input,
            taken: 0,
            reading: None,
            faults: 0,
        }
    }

    // Reads as `read` does, and doesn't count.
    fn give(&mut self, name: &str, from: u64, into: &mut [u8]) -> Result<usize, Failed>
        ensures room { IfOk result (λ count. count ≤ length into.new) }
        ensures place { OnOk result (reads_on self.old.opened name.now from ≡ true) }
        ensures after { IfOk result (λ count. self.new.opened ≡ after_given self.old.opened name.now from count) }
        ensures err { OnErr result ((self.new.opened.input ≡ self.old.opened.input) × (self.new.opened.faults ≡ self.old.opened.faults)) }
        ensures input { is_input name.now ≡ true → ReadConsumes self.old.input_left self.new.input_left result into.new }
        ensures aside { is_input name.now ≡ false → self.new.input_left ≡ self.old.input_left }
        ensures file { is_input name.now ≡ false → 0 < from
            → IfOk result (λ count. Consumes self.old.file_left self.new.file_left (take count into.new)) }
        ensures end { is_input name.now ≡ false
            → IfOk result (λ count. count ≡ 0 → 0 < length into.new → IsAtEnd self.new.file_left) }
    {
        if name == "-" {
            return self.give_input(from, into);
        }
        if from == 0 && self.open(name).is_err() {
            return Err(Failed);
        }
        self.read_on(name, from, into)
    }

    // Reads standard input on from this place.
    fn give_input(&mut self, from: u64, into: &mut [u8]) -> Result<usize, Failed>
        ensures room { IfOk result (λ count. count ≤ length into.new) }
        ensures place { OnOk result (from ≡ self.old.opened.input) }
        ensures after { IfOk result (λ count. self.new.opened ≡ record self.old.opened { input = min (from + count) last_count }) }
        ensures err { OnErr result (self.new.opened ≡ self.old.opened) }
        ensures stream { ReadConsumes self.old.input_left self.new.input_left result into.new }
    {
        if from != self.taken {
            return Err(Failed);
        }
        match self.input.read(into) {
            Ok(count) => {
                self.taken = from.saturating_add(count as u64);
                Ok(count)
            }
            Err(_) => Err(Failed),
        }
    }

    // Opens the file of this name, in place of the one that was read.
    fn open(&mut self, name: &str) -> Result<(), Failed>
        ensures ok { OnOk result (self.new.opened ≡ record self.old.opened { file = Some (name.now, 0) }) }
        ensures err { OnErr result (self.new.opened ≡ record self.old.opened { file = None }) }
        ensures aside { self.new.input_left ≡ self.old.input_left }
    {
        self.reading = None;
        let Ok(file) = fs::open(&self.runtime, name) else {
            return Err(Failed);
        };
        let Ok(name) = String::from_str(self.alloc, name) else {
            return Err(Failed);
        };
        self.reading = Some(Reading {
            name,
            file,
            place: 0,
        });
        Ok(())
    }

    // Reads the open file on from this place.
    fn read_on(&mut self, name: &str, from: u64, into: &mut [u8]) -> Result<usize, Failed>
        ensures room { IfOk result (λ count. count ≤ length into.new) }
        ensures place { OnOk result (is_read_to self.old.opened.file name.now from ≡ true) }
        ensures after { IfOk result (λ count. self.new.opened ≡ record self.old.opened { file = Some (name.now, min (from + count) last_count) }) }
        ensures err { OnErr result (self.new.opened ≡ self.old.opened) }
        ensures stream { ReadConsumes self.old.file_left self.new.file_left result into.new }
        ensures aside { self.new.input_left ≡ self.old.input_left }
    {
        match &mut self.reading {
            Some(reading) if reading.name.as_str() == name && reading.place == from => {
                reading.give(into)
            }
            _ => Err(Failed),
        }
    }
}

impl<F: Read> Reading<F> {
    // Reads on, and counts the place up.
    fn give(&mut self, into: &mut [u8]) -> Result<usize, Failed>
        ensures room { IfOk result (λ count. count ≤ length into.new) }
        ensures name { self.new.name ≡ self.old.name }
        ensures place { IfOk result (λ count. self.new.place ≡ min (self.old.place + count) last_count) }
        ensures err { OnErr result (self.new.place ≡ self.old.place) }
        ensures stream { ReadConsumes (F.remaining self.old.file) (F.remaining self.new.file) result into.new }
    {
        match self.file.read(into) {
            Ok(count) => {
                self.place = self.place.saturating_add(count as u64);
                Ok(count)
            }
            Err(_) => Err(Failed),
        }
    }
}

impl<R: Files + Input> Source for FileSource<R> {
    ghost text = { λ source name. None };

    ghost faults = { λ source. source.opened.faults };

    ghost failed = { λ source. None };

    fn read(&mut self, name: &str, from: u64, into: &mut [u8]) -> Result<usize, Failed>
        ensures room { IfOk result (λ count. count ≤ length into.new) }
        ensures place { OnOk result (reads_on self.old.opened name.now from ≡ true) }
        ensures after { IfOk result (λ count. self.new.opened ≡ after_given self.old.opened name.now from count) }
        ensures err { OnErr result (self.new.opened ≡ after_failed self.old.opened) }
        ensures cause { HasCause self.old.opened.faults self.new.opened.faults result }
        ensures input { is_input name.now ≡ true → ReadConsumes self.old.input_left self.new.input_left result into.new }
        ensures aside { is_input name.now ≡ false → self.new.input_left ≡ self.old.input_left }
        ensures file { is_input name.now ≡ false → 0 < from
            → IfOk result (λ count. Consumes self.old.file_left self.new.file_left (take count into.new)) }
        ensures end { is_input name.now ≡ false
            → IfOk result (λ count. count ≡ 0 → 0 < length into.new → IsAtEnd self.new.file_left) }
    {
        match self.give(name, from, into) {
            Ok(count) => Ok(count),
            Err(fault) => {
                self.reading = None;
                self.faults = self.faults.saturating_add(1);
                Err(fault)
            }
        }
    }
}

/// A stream of the system, as standard output. Each write goes out at once. A write that takes none
/// of the bytes that it is given fails. Contracts see what the stream holds, where it tells that, and the
/// count of failed calls.
#[derive(Drop)]
pub struct OutSink<W: io::Write> {
    out: W,
    faults: u64,
}

impl<W: io::Write> Model for OutSink<W> {
    ghost use Rattle.tel_base.specs.Taken.{Outgoing};

    ghost Value = { Outgoing };

    ghost view = { λ sink. record { held = W.contents sink.out; faults = sink.faults } };
}

impl<W: io::Write> OutSink<W> {
    /// A sink that writes to this stream.
    pub fn new(out: W) -> OutSink<W>
        ensures { result ≡ record { held = W.contents out; faults = 0 } }
    {
        OutSink { out, faults: 0 }
    }
}

impl<W: io::Write> Sink for OutSink<W> {
    ghost bytes = { λ sink. None };

    ghost faults = { λ sink. sink.faults };

    fn write(&mut self, piece: &[u8]) -> Result<usize, Failed>
        ensures room { IfOk result (λ count. count ≤ length piece.now) }
        ensures some { IfOk result (λ count. 0 < length piece.now → 0 < count) }
        ensures cause { HasCause self.old.faults self.new.faults result }
        ensures after { self.new.faults ≡ (if is_err result then counted self.old.faults else self.old.faults) }
        ensures stream { WriteAppends self.old.held self.new.held result piece.now }
    {
        match self.out.write(piece) {
            Ok(count) if count > 0 || piece.is_empty() => Ok(count),
            _ => {
                self.faults = self.faults.saturating_add(1);
                Err(Failed)
            }
        }
    }
}
