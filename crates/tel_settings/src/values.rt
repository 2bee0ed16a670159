//! What the values of the options say.
ghost use Rattle.std.specs.Prelude.{◌≡◌, ◌<◌, ◌≤◌, ◌^◌, true, None, IfSome, IfNone};
ghost use Rattle.std.specs.List.{list_all};
ghost use Rattle.std.specs.Char.{is_ascii_digit};
ghost use Rattle.tel_base.specs.Digits.{decimal};
ghost use Rattle.std.specs.Option.{option_map};
ghost use Rattle.tel_settings.specs.Words.{number_from, stop_of, conflicts_of, most_count};
ghost use Rattle.tel_settings.specs.Given.{given_or, generated_of};

use crate::fields::Stop;

/// The greatest value of a limit.
const MOST: u64 = 1000;

/// The value of decimal digits, unless a byte is none or the value doesn't fit.
fn value_of(digits: &[u8]) -> Option<u64>
    ensures some { IfSome result (λ value. (list_all is_ascii_digit digits.now ≡ true) × (value ≡ decimal digits.now)) }
    ensures none { IfNone result (list_all is_ascii_digit digits.now ≡ true → 2 ^ 64 ≤ decimal digits.now) }
{
    let mut value: u64 = 0;
    for digit in digits {
        if !digit.is_ascii_digit() {
            return None;
        }
        let Some(tens) = value.checked_mul(10) else {
            return None;
        };
        let Some(sum) = tens.checked_add(u64::from(*digit - b'0')) else {
            return None;
        };
        value = sum;
    }
    Some(value)
}

/// The value of a number of 1 to 20 digits, where it is `least` to `most`.
fn number_from(least: u64, most: u64, digits: &[u8]) -> Option<u64>
    ensures value { result ≡ number_from least most digits.now }
    ensures bound { IfSome result (λ value. value ≤ most) }
{
    if digits.is_empty() || digits.len() > 20 {
        return None;
    }
    match value_of(digits) {
        Some(value) if least <= value && value <= most => Some(value),
        _ => None,
    }
}

/// The same, of a limit.
fn limit_from(least: u64, digits: &[u8]) -> Option<u32>
    ensures { result ≡ number_from least 1000 digits.now }
{
    match number_from(least, MOST, digits) {
        Some(value) => Some(value as u32),
        None => None,
    }
}

/// The stop rule of this name.
fn stop_of(name: &[u8]) -> Option<Stop>
    ensures { result ≡ stop_of name.now }
{
    if name == b"sat".as_slice() {
        Some(Stop::Sat)
    } else if name == b"unsat".as_slice() {
        Some(Stop::Unsat)
    } else if name == b"unknown".as_slice() {
        Some(Stop::Unknown)
    } else {
        None
    }
}

/// The budget of conflicts that this value says.
fn conflicts_of(value: &[u8]) -> Option<Option<u64>>
    ensures { result ≡ conflicts_of value.now }
{
    if value == b"none".as_slice() {
        return Some(None);
    }
    match number_from(0, u64::MAX, value) {
        Some(number) => Some(Some(number)),
        None => None,
    }
}

/// The limit that this value says, or the default where there is no value.
pub fn limit_or(default: u32, value: Option<&str>) -> Option<u32>
    ensures { result ≡ given_or (number_from 0 1000) default (option_map (λ s. s.now) value.entry) }
{
    match value {
        Some(value) => limit_from(0, value.as_bytes()),
        None => Some(default),
    }
}

/// The stop rule that this value says, or `sat`.
pub fn stop_or_sat(value: Option<&str>) -> Option<Stop>
    ensures { result ≡ given_or stop_of Stop.Sat (option_map (λ s. s.now) value.entry) }
{
    match value {
        Some(value) => stop_of(value.as_bytes()),
        None => Some(Stop::Sat),
    }
}

/// How many traces this value says, or 0 for all.
pub fn models_or_all(value: Option<&str>) -> Option<u64>
    ensures { result ≡ given_or (number_from 0 most_count) 0 (option_map (λ s. s.now) value.entry) }
{
    match value {
        Some(value) => number_from(0, u64::MAX, value.as_bytes()),
        None => Some(0),
    }
}

/// The budget that this value says, or none.
pub fn conflicts_or_none(value: Option<&str>) -> Option<Option<u64>>
    ensures { result ≡ given_or conflicts_of None (option_map (λ s. s.now) value.entry) }
{
    match value {
        Some(value) => conflicts_of(value.as_bytes()),
        None => Some(None),
    }
}

/// The number of the generated text that this value says, or none.
pub fn number_or_none(value: Option<&str>) -> Option<Option<u32>>
    ensures { result ≡ given_or generated_of None (option_map (λ s. s.now) value.entry) }
{
    match value {
        Some(value) => limit_from(1, value.as_bytes()).map(Some),
        None => Some(None),
    }
}
