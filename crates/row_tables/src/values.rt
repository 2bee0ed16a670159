//! The values of a field: numbers, and texts in quotes, which may stand many times.
ghost use Rattle.std.specs.Prelude.{◌≡◌, ◌+◌, ◌*◌, ◌<◌, ◌≤◌, length, IfOk, IfSome, vec_len};

use crate::fault::Cause;
use std::alloc::Global;

/// The most bytes that a text with a number before it may have.
const LARGEST: u64 = 16_777_216;

/// A value of a field.
#[derive(Drop)]
pub enum Value {
    Number(u64),
    Text(Vec<u8>),
}

/// Something that was read, and how many bytes spell it.
#[derive(Drop)]
struct Read<T> {
    value: T,
    length: usize,
}

/// The value of a digit to the base 16.
fn hex_digit(byte: u8) -> Option<u8>
    ensures { IfSome result (λ digit. digit < 16) }
{
    match byte {
        b'0'..=b'9' => Some(byte - b'0'),
        b'a'..=b'f' => Some(byte - b'a' + 10),
        _ => None,
    }
}

/// The byte that stands for the escape behind a backslash.
fn escape(bytes: &[u8]) -> Option<Read<u8>>
    ensures { IfSome result (λ read. (0 < read.length) × (read.length ≤ length bytes.now)) }
{
    let (value, length) = match *bytes {
        [b'n', ..] => (b'\n', 1),
        [b't', ..] => (b'\t', 1),
        [b'r', ..] => (b'\r', 1),
        [b'"', ..] => (b'"', 1),
        [b'\\', ..] => (b'\\', 1),
        [b'x', high, low, ..] => (hex_digit(high)? * 16 + hex_digit(low)?, 3),
        _ => return None,
    };
    Some(Read { value, length })
}

/// The text behind a quote, up to the next one, which counts to its length.
fn text(alloc: Global, bytes: &[u8]) -> Result<Read<Vec<u8>>, Cause>
    ensures { IfOk result (λ read. read.length ≤ length bytes.now) }
{
    let mut value = Vec::new(alloc);
    let mut at = 0;
    'text: while at < bytes.len() {
        match bytes[at] {
            b'"' => {
                return Ok(Read {
                    value,
                    length: at + 1,
                });
            }
            b'\\' => match escape(&bytes[at + 1..]) {
                Some(read) => {
                    value.push(read.value)?;
                    at += 1 + read.length;
                }
                None => return Err(Cause::Escape),
            },
            byte => {
                value.push(byte)?;
                at += 1;
            }
        }
    }
    Err(Cause::Quote)
}

/// The number that these digits spell.
fn number(digits: &[u8]) -> Result<u64, Cause> {
    let Ok(digits) = str::from_utf8(digits) else {
        return Err(Cause::Value);
    };
    match digits.parse() {
        Ok(number) => Ok(number),
        Err(_) => Err(Cause::Range),
    }
}

/// This text so many times.
fn repeated(alloc: Global, times: u64, text: &[u8]) -> Result<Vec<u8>, Cause>
    ensures { IfOk result (λ all. vec_len all ≡ times * length text.now) }
{
    match times.checked_mul(text.len() as u64) {
        Some(length) if length <= LARGEST && times <= LARGEST => {}
        _ => return Err(Cause::Range),
    }
    let mut all = Vec::new(alloc);
    'repeating: for _ in 0..times {
        all.extend_from_slice(text)?;
    }
    Ok(all)
}

/// A number, or the text behind it so many times.
fn counted(alloc: Global, bytes: &[u8]) -> Result<Read<Value>, Cause>
    ensures { IfOk result (λ read. (0 < read.length) × (read.length ≤ length bytes.now)) }
{
    let end = bytes
        .iter()
        .take_while(|byte| byte.is_ascii_digit())
        .count();
    if end == 0 {
        return Err(Cause::Value);
    }
    let number = number(&bytes[..end])?;
    let behind = &bytes[end..];
    match *behind {
        [b'*', b'"', ..] => {
            let read = text(alloc, &behind[2..])?;
            Ok(Read {
                value: Value::Text(repeated(alloc, number, read.value.as_slice())?),
                length: end + 2 + read.length,
            })
        }
        _ => Ok(Read {
            value: Value::Number(number),
            length: end,
        }),
    }
}

/// The value at the front of these bytes.
fn first_value(alloc: Global, bytes: &[u8]) -> Result<Read<Value>, Cause>
    ensures { IfOk result (λ read. (0 < read.length) × (read.length ≤ length bytes.now)) }
{
    match *bytes {
        [b'"', ..] => {
            let read = text(alloc, &bytes[1..])?;
            Ok(Read {
                value: Value::Text(read.value),
                length: 1 + read.length,
            })
        }
        _ => counted(alloc, bytes),
    }
}

/// How many blanks these bytes begin with.
fn blanks(bytes: &[u8]) -> usize
    ensures { result ≤ length bytes.now }
{
    bytes
        .iter()
        .take_while(|byte| byte.is_ascii_whitespace())
        .count()
}

/// Adds the values of a line, or of its rest, to these.
pub fn add_values(alloc: Global, values: &mut Vec<Value>, line: &[u8]) -> Result<(), Cause> {
    let mut at = blanks(line);
    'values: while at < line.len() {
        let read = first_value(alloc, &line[at..])?;
        values.push(read.value)?;
        at += read.length;
        at += blanks(&line[at..]);
    }
    Ok(())
}
