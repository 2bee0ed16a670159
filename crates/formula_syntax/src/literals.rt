ghost use Rattle.std.specs.Prelude.{◌≡◌, pos, length, Some, None, IfOk};
ghost use Rattle.std.specs.List.{list_all};
ghost use Rattle.std.specs.Option.{option_map};
ghost use Rattle.formula_syntax.specs.Senses as spec;
ghost use Rattle.formula_syntax.specs.Given.{bytes_of, IsShorter};

use std::alloc::{AllocError, Global};
use tel_base::Text;

/// The number that digits are, where it is at most 2147483647.
pub fn number_of(text: &[u8]) -> Option<i32>
    ensures { result ≡ option_map pos (spec.number_of text.now) }
{
    let mut value: u32 = 0;
    for byte in text {
        if !byte.is_ascii_digit() {
            return None;
        }
        let digit = u32::from(*byte - b'0');
        if value > (i32::MAX as u32 - digit) / 10 {
            return None;
        }
        value = 10 * value + digit;
    }
    Some(value as i32)
}

/// The byte that stands behind a backslash for this one.
fn escaped(byte: u8) -> Option<u8>
    ensures { result ≡ spec.escaped byte }
{
    match byte {
        b'"' => Some(b'"'),
        b'\\' => Some(b'\\'),
        b'n' => Some(b'\n'),
        _ => None,
    }
}

/// What stands at the front of a string, behind its first quote.
enum Inner<'a> {
    /// The quote at the end, and nothing behind it.
    End,
    /// A byte, and what is behind it.
    Byte(u8, &'a [u8]),
    /// Nothing that a string may have.
    Wrong,
}

#[tactic(auto, unfolding(crate::specs::Senses::inner_of))]
fn step(text: &[u8]) -> Inner<'_>
    ensures bytes { bytes_of result ≡ spec.inner_of text.now }
    ensures shorter { IsShorter result (length text.now) }
{
    match text {
        [b'"'] => Inner::End,
        [b'\\', next, more @ ..] => match escaped(*next) {
            Some(byte) => Inner::Byte(byte, more),
            None => Inner::Wrong,
        },
        [b'"', ..] => Inner::Wrong,
        [byte, more @ ..] => Inner::Byte(*byte, more),
        [] => Inner::Wrong,
    }
}

/// The bytes of a string, from behind its first quote.
fn inner_bytes(alloc: Global, text: &[u8]) -> Result<Option<Vec<u8>>, AllocError>
    ensures { IfOk result (λ bytes. option_map (λ v. v.items) bytes ≡ spec.inner_of text.now) }
{
    let mut bytes = Vec::new(alloc);
    let mut rest = text;
    'reading: loop {
        match step(rest) {
            Inner::End => return Ok(Some(bytes)),
            Inner::Wrong => return Ok(None),
            Inner::Byte(byte, more) => {
                bytes.push(byte)?;
                rest = more;
            }
        }
    }
}

/// The bytes of the string that is written so.
pub fn string_of(alloc: Global, text: &[u8]) -> Result<Option<Text>, AllocError>
    ensures { IfOk result (λ bytes. bytes ≡ spec.string_of text.now) }
{
    match text {
        [b'"', more @ ..] => match inner_bytes(alloc, more)? {
            Some(bytes) => Ok(Some(Text::from_vec(bytes))),
            None => Ok(None),
        },
        _ => Ok(None),
    }
}
