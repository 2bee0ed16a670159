ghost use Rattle.std.specs.Prelude.{◌≡◌, ◌<◌, ◌≤◌, None, Some, false, length, map, string_bytes, IfOk, IfErr};
ghost use Rattle.std.specs.Option.{option_to_list};
ghost use Rattle.clap.specs.Words.{app_of, first_value, found_of, rule_of};
ghost use Rattle.tel_settings.specs.Command.{settings_of, IsWithinLimits};
ghost use Rattle.tel_settings.specs.Given.{app, option_rule, files_found, settings_found, settings_given};
ghost use Rattle.tel_settings.specs.Parts.{input_of};

use crate::fields::{Input, Settings, SettingsFault, Word};
use crate::values::{conflicts_or_none, limit_or, models_or_all, number_or_none, stop_or_sat};
use clap::error::ErrorKind;
use clap::{Arg, ArgAction, ArgMatches, Command};
use sqlite_items::Items;
use std::alloc::{AllocError, Global};

/// The most files of a line.
const MOST_FILES: usize = 16;

/// An option that stands at most once, with one value.
fn option<'a>(alloc: Global, name: &'a str) -> Arg<'a>
    ensures rule { rule_of result ≡ option_rule name.entry.now }
    ensures local { result.global ≡ false }
{
    Arg::new(alloc, name).long(name).action(ArgAction::Set)
}

/// The command: its options, and the files.
fn telingo<'a>(alloc: Global) -> Result<Command<'a>, AllocError>
    ensures { IfOk result (λ command. app_of command ≡ app) }
{
    let files = Arg::new(alloc, "files").action(ArgAction::Append);
    Command::new(alloc, "telingo")
        .no_binary_name(true)
        .disable_help_flag(true)
        .arg(option(alloc, "imin"))?
        .arg(option(alloc, "imax"))?
        .arg(option(alloc, "istop"))?
        .arg(option(alloc, "models"))?
        .arg(option(alloc, "conflicts"))?
        .arg(option(alloc, "generate"))?
        .arg(files)
}

/// Copies the names of at most 16 files.
fn copied(alloc: Global, names: &[&str]) -> Result<Items<Word>, SettingsFault>
    ensures ok { IfOk result (λ files. (files ≡ map (λ name. name.now) names.now) × (length files ≤ 16)) }
    ensures usage { IfErr result (λ fault. fault ≡ SettingsFault.Usage → 16 < length names.now) }
{
    if names.len() > MOST_FILES {
        return Err(SettingsFault::Usage);
    }
    let mut files = Items::new(alloc);
    for name in names {
        let Ok(word) = Word::from_str(alloc, name) else {
            return Err(SettingsFault::Memory);
        };
        let Ok(()) = files.push(word) else {
            return Err(SettingsFault::Memory);
        };
    }
    Ok(files)
}

/// The files of the matches.
fn files_of(alloc: Global, matches: &ArgMatches) -> Result<Items<Word>, SettingsFault>
    ensures ok { IfOk result (λ files. (files ≡ files_found (found_of matches.now)) × (length files ≤ 16)) }
    ensures usage { IfErr result (λ fault. fault ≡ SettingsFault.Usage → 16 < length (files_found (found_of matches.now))) }
{
    copied(alloc, matches.get_raw("files").unwrap_or(&[]))
}

/// Where the texts come from: from the one number, or from the files.
fn input_of(number: Option<u32>, files: Items<Word>) -> Option<Input>
    ensures { length files ≤ 16 → result ≡ input_of (option_to_list number) files }
{
    match number {
        Some(number) => {
            if files.is_empty() {
                Some(Input::Number(number))
            } else {
                None
            }
        }
        None => {
            if files.is_empty() {
                None
            } else {
                Some(Input::Files(files))
            }
        }
    }
}

/// The settings that the values of the options give with these files.
fn settings_given(matches: &ArgMatches, files: Items<Word>) -> Option<Settings>
    ensures { length files ≤ 16 → result ≡ settings_given (first_value (found_of matches.now)) files }
{
    let imin = limit_or(0, matches.get_str("imin"))?;
    let imax = limit_or(20, matches.get_str("imax"))?;
    let stop = stop_or_sat(matches.get_str("istop"))?;
    let models = models_or_all(matches.get_str("models"))?;
    let conflicts = conflicts_or_none(matches.get_str("conflicts"))?;
    let number = number_or_none(matches.get_str("generate"))?;
    let input = input_of(number, files)?;
    Some(Settings {
        imin,
        imax,
        stop,
        models,
        conflicts,
        log: None,
        input,
    })
}

/// The matches of the words.
fn matches_of<'a>(alloc: Global, words: &'a [String]) -> Result<ArgMatches<'a>, SettingsFault>
    ensures ok { IfOk result (λ matches. settings_of (map string_bytes words.entry.now) ≡ settings_found (found_of matches)) }
    ensures usage { IfErr result (λ fault. fault ≡ SettingsFault.Usage → settings_of (map string_bytes words.entry.now) ≡ None) }
{
    let Ok(command) = telingo(alloc) else {
        return Err(SettingsFault::Memory);
    };
    match command.try_get_matches_from(words) {
        Ok(matches) => Ok(matches),
        Err(error) => match error.kind() {
            ErrorKind::OutOfMemory => Err(SettingsFault::Memory),
            _ => Err(SettingsFault::Usage),
        },
    }
}

/// The settings of the words after the program's name.
///
/// An option is `--name=value`, or `--name` and the next word, which is `-` or doesn't begin with `-`.
/// The options are `--imin` and `--imax` with 0 to 1000, `--istop` with `sat`, `unsat` or `unknown`,
/// `--models` with 0 to 18446744073709551615, `--conflicts` with the same or `none`, and `--generate`
/// with 1 to 1000, each at most once and in any place; a number has 1 to 20 decimal digits. The word `-`
/// and each that doesn't begin with `-` is a file, and so is every word after the first `--` that is no
/// value. A line has `--generate` and no file, or 1 to 16 files. Every other list of words is `Usage`.
pub fn settings(alloc: Global, words: &[String]) -> Result<Settings, SettingsFault>
    ensures ok { IfOk result (λ settings. settings_of (map string_bytes words.now) ≡ Some settings) }
    ensures limits { IfOk result (λ settings. IsWithinLimits settings) }
    ensures usage { IfErr result (λ fault. fault ≡ SettingsFault.Usage → settings_of (map string_bytes words.now) ≡ None) }
{
    let matches = matches_of(alloc, words)?;
    let files = match files_of(alloc, &matches) {
        Ok(files) => files,
        Err(fault) => return Err(fault),
    };
    match settings_given(&matches, files) {
        Some(settings) => Ok(settings),
        None => Err(SettingsFault::Usage),
    }
}
