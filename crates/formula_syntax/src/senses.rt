ghost use Rattle.std.specs.Prelude.{◌≡◌, length, Some, None, codes};
ghost use Rattle.std.specs.Str.{bytes_eq};
ghost use Rattle.formula_syntax.specs.Points.{word_of};
ghost use Rattle.formula_syntax.specs.Senses as spec;
ghost use Rattle.formula_syntax.specs.Given.{said};

use crate::marks::Mark;
use tel_lex::{Token, TokenKind};

/// What a token says: a name, but for `not`; a variable, by its name; a number and a string, by how
/// they are written; a sign, which `not` and the directives are too; or none of the language.
#[derive(Clone, Copy)]
pub enum Sense<'a> {
    Name(&'a [u8]),
    Variable(&'a [u8]),
    /// `_`
    Blank,
    Number(&'a [u8]),
    Str(&'a [u8]),
    Sign(Mark),
    Other,
}

/// The sign of one byte.
fn single(byte: u8) -> Option<Mark>
    ensures { result ≡ spec.single byte }
{
    match byte {
        b'.' => Some(Mark::Stop),
        b',' => Some(Mark::Comma),
        b';' => Some(Mark::Semicolon),
        b'(' => Some(Mark::Open),
        b')' => Some(Mark::Close),
        b'{' => Some(Mark::OpenBrace),
        b'}' => Some(Mark::CloseBrace),
        b'\'' => Some(Mark::Prime),
        b'~' => Some(Mark::Tilde),
        b'&' => Some(Mark::Ampersand),
        b'|' => Some(Mark::Bar),
        b'<' => Some(Mark::Less),
        b'>' => Some(Mark::Greater),
        b'=' => Some(Mark::Equal),
        b'+' => Some(Mark::Plus),
        b'-' => Some(Mark::Minus),
        b'*' => Some(Mark::Star),
        b'/' => Some(Mark::Slash),
        b'\\' => Some(Mark::Backslash),
        _ => None,
    }
}

/// The sign of two bytes.
fn double(first: u8, second: u8) -> Option<Mark>
    ensures { result ≡ spec.double first second }
{
    match (first, second) {
        (b':', b'-') => Some(Mark::If),
        (b'.', b'.') => Some(Mark::Dots),
        (b'-', b'>') => Some(Mark::RightArrow),
        (b'<', b'-') => Some(Mark::LeftArrow),
        (b'<', b'>') => Some(Mark::BothArrow),
        (b'<', b'*') => Some(Mark::LessStar),
        (b'<', b'?') => Some(Mark::LessQuery),
        (b'<', b':') => Some(Mark::LessColon),
        (b'<', b'<') => Some(Mark::LessLess),
        (b'<', b'=') => Some(Mark::LessEqual),
        (b'>', b'*') => Some(Mark::GreaterStar),
        (b'>', b'?') => Some(Mark::GreaterQuery),
        (b'>', b':') => Some(Mark::GreaterColon),
        (b'>', b'>') => Some(Mark::GreaterGreater),
        (b'>', b'=') => Some(Mark::GreaterEqual),
        (b'!', b'=') => Some(Mark::Unequal),
        _ => None,
    }
}

/// The sign of these bytes.
fn mark_of(text: &[u8]) -> Option<Mark>
    ensures { result ≡ spec.mark_of text.now }
{
    match text {
        [byte] => single(*byte),
        [first, second] => double(*first, *second),
        _ => None,
    }
}

/// What the word behind `#` says.
fn directive(text: &[u8]) -> Sense<'_>
    ensures { said result ≡ spec.directive_sense text.now }
{
    if text == b"#program".as_slice() {
        Sense::Sign(Mark::Program)
    } else if text == b"#const".as_slice() {
        Sense::Sign(Mark::Const)
    } else if text == b"#show".as_slice() {
        Sense::Sign(Mark::Show)
    } else {
        Sense::Other
    }
}

/// What a sign says.
fn sign(text: &[u8]) -> Sense<'_>
    ensures { said result ≡ spec.sign_sense (spec.mark_of text.now) }
{
    match mark_of(text) {
        Some(mark) => Sense::Sign(mark),
        None => Sense::Other,
    }
}

/// What a token says, by its kind and its bytes.
pub fn sense_of<'a>(token: &Token<'a>) -> Sense<'a>
    ensures { said result ≡ spec.sense (word_of token.now) }
{
    let text = token.text;
    match token.kind {
        TokenKind::Name => {
            if text == b"not".as_slice() {
                Sense::Sign(Mark::Not)
            } else {
                Sense::Name(text)
            }
        }
        TokenKind::Variable => Sense::Variable(text),
        TokenKind::Blank => Sense::Blank,
        TokenKind::Number => Sense::Number(text),
        TokenKind::Str => Sense::Str(text),
        TokenKind::Hash => directive(text),
        TokenKind::Sign => sign(text),
    }
}
