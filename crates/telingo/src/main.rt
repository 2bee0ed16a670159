//! `telingo`: the temporal equilibrium models of a logic program over time, printed.
#![tactic(auto)]

use std::alloc::Global;
use std::process::ExitCode;
use std::{env, io};
use tel_base::{FileSource, NullSink, OutSink};
use telingo_cli::{Status, telingo};

/// The words after the program's name.
fn words(rt: &HostRuntime) -> io::Result<Vec<String>> {
    let mut words = Vec::new(rt.alloc());
    for word in env::args(rt)?.skip(1) {
        words.push(word)?;
    }
    Ok(words)
}

/// Runs on the files and the streams of the system.
fn run(rt: &HostRuntime, words: &[String]) -> u8 {
    let alloc: Global = rt.alloc();
    let mut texts = FileSource::new(alloc, rt);
    let mut out = OutSink::new(io::writer(rt));
    telingo(alloc, words, &mut texts, &mut out, &mut NullSink)
}

/// Ends with the answer of `telingo`. Words that are no text are no line of the command.
fn main(rt: HostRuntime) -> ExitCode {
    let code = match words(&rt) {
        Ok(words) => run(&rt, &words),
        Err(error) if error.kind() == io::ErrorKind::OutOfMemory => Status::Memory.code(),
        Err(_) => run(&rt, &[]),
    };
    ExitCode::from(code)
}
