//! Calls of the layer of settings.

use crate::shown::shown;
use row_tables::{Cause, Value, words};
use std::alloc::{AllocError, Global};
use tel_semantics::How;
use tel_settings::{Input, Settings, SettingsFault, Stop, printed_lengths, settings, stops};

/// The settings of these words, where they are a line of the command.
fn settings_of(alloc: Global, given: &[Value]) -> Result<Option<Settings>, Cause> {
    let words = words(alloc, given)?;
    match settings(alloc, words.as_slice()) {
        Ok(settings) => Ok(Some(settings)),
        Err(SettingsFault::Usage) => Ok(None),
        Err(SettingsFault::Memory) => Err(Cause::Memory),
    }
}

/// The rule's name.
fn stop_name(stop: Stop) -> &'static str {
    match stop {
        Stop::Sat => "Sat",
        Stop::Unsat => "Unsat",
        Stop::Unknown => "Unknown",
    }
}

/// A budget of conflicts, as `none` or its number.
fn budget(alloc: Global, conflicts: Option<u64>) -> Result<String, AllocError> {
    match conflicts {
        Some(most) => format!(in alloc; "{most}"),
        None => format!(in alloc; "none"),
    }
}

/// The number of files, or `generate` and the number of the text.
fn source(alloc: Global, input: &Input) -> Result<String, AllocError> {
    match input {
        Input::Files(files) => format!(in alloc; "{}", files.len()),
        Input::Number(number) => format!(in alloc; "generate {number}"),
    }
}

/// The least and the greatest length, the rule, how many traces at most, the budget and the input of these
/// words, as `0 20 Sat 0 none 1`.
pub fn settled(alloc: Global, given: &[Value]) -> Result<Vec<u8>, Cause> {
    let Some(settings) = settings_of(alloc, given)? else {
        return Ok(Vec::from_slice(alloc, b"usage")?);
    };
    let budget = budget(alloc, settings.conflicts)?;
    let source = source(alloc, &settings.input)?;
    let stop = stop_name(settings.stop);
    shown(format!(in alloc;
        "{} {} {stop} {} {budget} {source}",
        settings.imin, settings.imax, settings.models
    ))
}

/// A number of a length or of traces.
fn count(value: &Value) -> Result<u32, Cause> {
    match value {
        Value::Number(number) => u32::try_from(*number).map_err(|_| Cause::Range),
        Value::Text(_) => Err(Cause::Values),
    }
}

/// How a length ended, by its word.
fn ending(value: &Value) -> Result<How, Cause> {
    let Value::Text(word) = value else {
        return Err(Cause::Values);
    };
    match word.as_slice() {
        b"complete" => Ok(How::Complete),
        b"limit" => Ok(How::Limit),
        b"budget" => Ok(How::Budget),
        _ => Err(Cause::Values),
    }
}

/// Whether a run with the settings of these words stops after this length, which ended so with so many traces.
fn stops_at(
    alloc: Global,
    words: &[Value],
    length: u32,
    how: How,
    traces: u32,
) -> Result<Vec<u8>, Cause> {
    printed_lengths();
    let Some(settings) = settings_of(alloc, words)? else {
        return Err(Cause::Values);
    };
    let stop = stops(&settings, length, how, u64::from(traces));
    shown(format!(in alloc; "{stop}"))
}

/// The same, where the length, how it ended and the number of traces stand behind the words.
pub fn stopped(alloc: Global, given: &[Value]) -> Result<Vec<u8>, Cause> {
    let [words @ .., length, how, traces] = given else {
        return Err(Cause::Values);
    };
    stops_at(alloc, words, count(length)?, ending(how)?, count(traces)?)
}
