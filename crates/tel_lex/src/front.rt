ghost use Rattle.std.specs.Prelude.{◌≡◌, ◌<◌, ◌≤◌, ◌^◌, ◌∷◌, true, length, IfSome};
ghost use Rattle.std.specs.List.{prefix_len};
ghost use Rattle.tel_lex.specs.Spelling.{is_hash};
ghost use Rattle.tel_lex.specs.Tokens.{begins, is_percent, is_in_line, is_in_range};
ghost use Rattle.tel_lex.specs.Reading.{capital_len, variable_len, begins_escape, string_len, close_len, variable_of, str_of, gap_of, comment_front, hash_front, number_front, mark_front, sign_front, other_front, front_of, StandsAt};
ghost use Rattle.tel_lex.specs.declared.token.TokenKind.TheVariants.{Number};

use crate::bytes::{
    digits_len, is_digit, is_escape, is_low_line, is_lower, is_mark, is_pair, is_upper, is_white,
    low_lines_len, word_len,
};
use crate::token::TokenKind;
use memchr::{memchr, memchr3};

/// The greatest number that may be written.
const GREATEST: u64 = 2147483647;

/// What stands at the front of a text.
#[derive(Clone, Copy)]
pub enum Front {
    /// White space or a comment, of so many bytes.
    Gap(usize),
    /// A token, of so many bytes.
    Token(TokenKind, usize),
    /// So many tokens of one `_` each.
    Blanks(usize),
    /// A number that is too large.
    Large,
    /// Neither a token nor a separator.
    Bad,
}

/// How long a variable without a `_` before it is.
fn capital_len(bytes: &[u8]) -> Option<usize>
    ensures len { result ≡ capital_len bytes.now }
    ensures within { IfSome result (λ n. n ≤ length bytes.now) }
{
    let [first, more @ ..] = bytes else {
        return None;
    };
    if is_upper(*first) {
        Some(1 + word_len(more))
    } else {
        None
    }
}

/// How long the variable at the front is.
fn variable_len(bytes: &[u8]) -> Option<usize>
    ensures { result ≡ variable_len bytes.now }
{
    let before = low_lines_len(bytes);
    match capital_len(&bytes[before..]) {
        Some(length) => Some(before + length),
        None => None,
    }
}

/// What stands where `_` or an upper-case letter does.
fn variable_front(bytes: &[u8]) -> Front
    ensures { result ≡ variable_of (variable_len bytes.now) bytes.now }
{
    match variable_len(bytes) {
        Some(length) => Front::Token(TokenKind::Variable, length),
        None => Front::Blanks(low_lines_len(bytes)),
    }
}

/// Whether the bytes begin with an escape.
fn begins_escape(bytes: &[u8]) -> bool
    ensures value { result ≡ begins_escape bytes.now }
    ensures within { result ≡ true → 2 ≤ length bytes.now }
{
    match bytes {
        [first, second, ..] => *first == b'\\' && is_escape(*second),
        _ => false,
    }
}

/// Whether the bytes begin with `%`.
fn begins_percent(bytes: &[u8]) -> bool
    ensures value { result ≡ begins is_percent bytes.now }
    ensures within { result ≡ true → 1 ≤ length bytes.now }
{
    match bytes {
        [first, ..] => *first == b'%',
        [] => false,
    }
}

/// How many bytes of a string stand behind its first quote, with the last one.
fn string_len(bytes: &[u8]) -> Option<usize>
    ensures len { result ≡ string_len bytes.now }
    ensures within { IfSome result (λ n. n ≤ length bytes.now) }
{
    let mut at = 0;
    'reading: while let Some(plain) = memchr3(b'"', b'\\', b'\n', &bytes[at..]) {
        at += plain;
        if bytes[at] == b'"' {
            return Some(at + 1);
        }
        if !begins_escape(&bytes[at..]) {
            return None;
        }
        at += 2;
    }
    None
}

/// How many bytes of a block comment stand behind its first two, with the last two.
fn close_len(bytes: &[u8]) -> Option<usize>
    ensures len { result ≡ close_len bytes.now }
    ensures within { IfSome result (λ n. n ≤ length bytes.now) }
{
    let mut at = 0;
    'reading: while let Some(other) = memchr(b'*', &bytes[at..]) {
        at += other + 1;
        if begins_percent(&bytes[at..]) {
            return Some(at + 1);
        }
    }
    None
}

/// How many bytes stand before the end of the line.
fn line_len(bytes: &[u8]) -> usize
    ensures len { result ≡ prefix_len is_in_line bytes.now }
    ensures within { result ≤ length bytes.now }
{
    match memchr(b'\n', bytes) {
        Some(length) => length,
        None => bytes.len(),
    }
}

/// What stands where `%` does, before these bytes.
fn comment_front(bytes: &[u8]) -> Front
    requires { length bytes.now < 2 ^ 63 }
    ensures { result ≡ comment_front bytes.now }
{
    match bytes {
        [] => Front::Gap(1),
        [b'*', text @ ..] => match close_len(text) {
            Some(length) => Front::Gap(2 + length),
            None => Front::Bad,
        },
        _ => Front::Gap(1 + line_len(bytes)),
    }
}

/// What stands where a quote does, before these bytes.
fn str_front(bytes: &[u8]) -> Front
    requires { length bytes.now < 2 ^ 63 }
    ensures { result ≡ str_of (string_len bytes.now) }
{
    match string_len(bytes) {
        Some(length) => Front::Token(TokenKind::Str, 1 + length),
        None => Front::Bad,
    }
}

/// Whether the word behind a `#` makes it a token.
fn is_hash_word(word: &[u8]) -> bool
    ensures { result ≡ is_hash (35 ∷ word.now) }
{
    word == b"program".as_slice() || word == b"const".as_slice() || word == b"show".as_slice()
}

/// What stands where `#` does, before these bytes.
fn hash_front(bytes: &[u8]) -> Front
    requires { length bytes.now < 2 ^ 63 }
    ensures { result ≡ hash_front bytes.now }
{
    let length = word_len(bytes);
    if is_hash_word(&bytes[..length]) {
        Front::Token(TokenKind::Hash, 1 + length)
    } else {
        Front::Bad
    }
}

/// Whether the value of the digits is that of a number.
fn is_in_range(digits: &[u8]) -> bool
    ensures { result ≡ is_in_range Number digits.now }
{
    let mut value = 0;
    for digit in digits {
        value = 10 * value + u64::from(digit.saturating_sub(b'0'));
        if value > GREATEST {
            return false;
        }
    }
    true
}

/// What stands where a digit does.
fn number_front(bytes: &[u8]) -> Front
    ensures { result ≡ number_front bytes.now }
{
    let length = digits_len(bytes);
    if is_in_range(&bytes[..length]) {
        Front::Token(TokenKind::Number, length)
    } else {
        Front::Large
    }
}

/// What stands where no token but a sign of one byte can begin.
fn mark_front(byte: u8) -> Front
    ensures { result ≡ mark_front byte }
{
    if is_mark(byte) {
        Front::Token(TokenKind::Sign, 1)
    } else {
        Front::Bad
    }
}

/// What stands where no token but a sign can begin, before these bytes.
fn sign_front(byte: u8, bytes: &[u8]) -> Front
    ensures { result ≡ sign_front byte bytes.now }
{
    match bytes {
        [next, ..] if is_pair(byte, *next) => Front::Token(TokenKind::Sign, 2),
        _ => mark_front(byte),
    }
}

/// What stands where neither white space, a comment nor a word does, before these bytes.
fn other_front(byte: u8, bytes: &[u8]) -> Front
    requires { length bytes.now < 2 ^ 63 }
    ensures { result ≡ other_front byte bytes.now }
{
    if byte == b'"' {
        str_front(bytes)
    } else if byte == b'#' {
        hash_front(bytes)
    } else {
        sign_front(byte, bytes)
    }
}

/// What stands at the front, by its first byte.
#[tactic(auto, unfolding(crate::specs::Reading::front_of))]
fn front_of(bytes: &[u8]) -> Front
    requires { length bytes.now < 2 ^ 63 }
    ensures { result ≡ front_of bytes.now }
{
    let [byte, more @ ..] = bytes else {
        return Front::Bad;
    };
    if is_white(*byte) {
        Front::Gap(1)
    } else if is_lower(*byte) {
        Front::Token(TokenKind::Name, 1 + word_len(more))
    } else if is_upper(*byte) || is_low_line(*byte) {
        variable_front(bytes)
    } else if is_digit(*byte) {
        number_front(bytes)
    } else if *byte == b'%' {
        comment_front(more)
    } else {
        other_front(*byte, more)
    }
}

/// What stands at the front.
pub fn next_front(bytes: &[u8]) -> Front
    requires some { 0 < length bytes.now }
    requires few { length bytes.now < 2 ^ 63 }
    ensures { StandsAt bytes.now result }
{
    front_of(bytes)
}
