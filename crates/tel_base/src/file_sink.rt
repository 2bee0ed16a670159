//! A file of the system that is written. What it holds no contract can tell, so as a sink it tells no
//! bytes. It is proved against the file inside, as far as that tells its bytes, and against the count of
//! failed calls.
ghost use Rattle.std.specs.Prelude.{◌≡◌, ◌+◌, ◌<◌, ◌≤◌, true, None, length, take, IfOk, OnOk, if◌then◌else◌};
ghost use Rattle.std.specs.Result.{is_err};
ghost use Rattle.std.specs.Io.KnownBytes.{Appends};
ghost use Rattle.tel_base.specs.Counts.{HasCause, counted};

use crate::outside::{Failed, Sink};
use std::fs::File;
use std::io::Write;
use std::marker::Model;
use std::rt::Files;

/// A file that is written from its start, as a log. One that can't be made is a sink whose every write
/// fails. Each write goes out at once. A write that takes none of the bytes that it is given fails.
/// Contracts see what the file holds, where it tells that, and the count of failed calls.
#[derive(Drop)]
pub struct FileSink<R: Files> {
    file: Option<R::File>,
    faults: u64,
}

impl<R: Files> Model for FileSink<R> {
    ghost use Rattle.std.specs.Option.{is_some, option_and_then};
    ghost use Rattle.tel_base.specs.Taken.{Written};

    ghost Value = { Written };

    ghost view = { λ sink. record {
      made = is_some sink.file;
      held = option_and_then (λ file. R.File.contents file) sink.file;
      faults = sink.faults;
    } };
}

impl<R: Files> FileSink<R> {
    /// A sink that writes to the file of this name, which is made anew.
    pub fn new(runtime: &R, name: &str) -> FileSink<R>
        ensures { result.faults ≡ 0 }
    {
        FileSink {
            file: File::create(runtime, name).ok(),
            faults: 0,
        }
    }

    // Writes as `write` does, and doesn't count.
    fn put(&mut self, piece: &[u8]) -> Result<usize, Failed>
        ensures room { IfOk result (λ count. count ≤ length piece.now) }
        ensures some { IfOk result (λ count. 0 < length piece.now → 0 < count) }
        ensures made { OnOk result (self.old.made ≡ true) }
        ensures kept { self.new.made ≡ self.old.made }
        ensures faults { self.new.faults ≡ self.old.faults }
        ensures file { IfOk result (λ count. Appends self.old.held self.new.held (take count piece.now)) }
    {
        match &mut self.file {
            Some(file) => match file.write(piece) {
                Ok(count) if count > 0 || piece.is_empty() => Ok(count),
                _ => Err(Failed),
            },
            None => Err(Failed),
        }
    }
}

impl<R: Files> Sink for FileSink<R> {
    ghost bytes = { λ sink. None };

    ghost faults = { λ sink. sink.faults };

    fn write(&mut self, piece: &[u8]) -> Result<usize, Failed>
        ensures room { IfOk result (λ count. count ≤ length piece.now) }
        ensures some { IfOk result (λ count. 0 < length piece.now → 0 < count) }
        ensures cause { HasCause self.old.faults self.new.faults result }
        ensures made { OnOk result (self.old.made ≡ true) }
        ensures kept { self.new.made ≡ self.old.made }
        ensures after { self.new.faults ≡ (if is_err result then counted self.old.faults else self.old.faults) }
        ensures file { IfOk result (λ count. Appends self.old.held self.new.held (take count piece.now)) }
    {
        let written = self.put(piece);
        if written.is_err() {
            self.faults = self.faults.saturating_add(1);
        }
        written
    }
}
