ghost use Rattle.std.specs.Prelude.{◌≡◌, ◌≤◌, ◌∷◌, [], length};
ghost use Rattle.std.specs.List.{prefix_len};
ghost use Rattle.tel_lex.specs.Spelling.{is_white, is_lower, is_upper, is_digit, is_word_byte, is_escape, is_sign};
ghost use Rattle.tel_lex.specs.Reading.{is_low_line};

pub fn is_white(byte: u8) -> bool
    ensures { result ≡ is_white byte }
{
    matches!(byte, b' ' | b'\t' | b'\r' | b'\n')
}

pub fn is_lower(byte: u8) -> bool
    ensures { result ≡ is_lower byte }
{
    matches!(byte, b'a'..=b'z')
}

pub fn is_upper(byte: u8) -> bool
    ensures { result ≡ is_upper byte }
{
    matches!(byte, b'A'..=b'Z')
}

pub fn is_digit(byte: u8) -> bool
    ensures { result ≡ is_digit byte }
{
    matches!(byte, b'0'..=b'9')
}

pub fn is_low_line(byte: u8) -> bool
    ensures { result ≡ is_low_line byte }
{
    byte == b'_'
}

fn is_word_byte(byte: u8) -> bool
    ensures { result ≡ is_word_byte byte }
{
    matches!(byte, b'a'..=b'z' | b'A'..=b'Z' | b'0'..=b'9' | b'_')
}

/// Whether the byte may stand behind a backslash in a string.
pub fn is_escape(byte: u8) -> bool
    ensures { result ≡ is_escape byte }
{
    matches!(byte, b'"' | b'\\' | b'n')
}

/// How many letters, digits and `_` stand at the front.
pub fn word_len(bytes: &[u8]) -> usize
    ensures len { result ≡ prefix_len is_word_byte bytes.now }
    ensures within { result ≤ length bytes.now }
{
    for (place, byte) in bytes.iter().enumerate() {
        if !is_word_byte(*byte) {
            return place;
        }
    }
    bytes.len()
}

/// How many digits stand at the front.
pub fn digits_len(bytes: &[u8]) -> usize
    ensures len { result ≡ prefix_len is_digit bytes.now }
    ensures within { result ≤ length bytes.now }
{
    for (place, byte) in bytes.iter().enumerate() {
        if !is_digit(*byte) {
            return place;
        }
    }
    bytes.len()
}

/// How many `_` stand at the front.
pub fn low_lines_len(bytes: &[u8]) -> usize
    ensures len { result ≡ prefix_len is_low_line bytes.now }
    ensures within { result ≤ length bytes.now }
{
    for (place, byte) in bytes.iter().enumerate() {
        if !is_low_line(*byte) {
            return place;
        }
    }
    bytes.len()
}

/// Whether the byte is a sign.
pub fn is_mark(byte: u8) -> bool
    ensures { result ≡ is_sign (byte ∷ []) }
{
    matches!(
        byte,
        b'.' | b','
            | b';'
            | b'('
            | b')'
            | b'{'
            | b'}'
            | b'\''
            | b'~'
            | b'&'
            | b'|'
            | b'<'
            | b'>'
            | b'='
            | b'+'
            | b'-'
            | b'*'
            | b'/'
            | b'\\'
    )
}

/// Whether the two bytes are a sign.
pub fn is_pair(first: u8, second: u8) -> bool
    ensures { result ≡ is_sign (first ∷ second ∷ []) }
{
    match first {
        b':' => second == b'-',
        b'.' => second == b'.',
        b'-' => second == b'>',
        b'<' => matches!(second, b'-' | b'>' | b'*' | b'?' | b':' | b'<' | b'='),
        b'>' => matches!(second, b'*' | b'?' | b':' | b'>' | b'='),
        b'!' => second == b'=',
        _ => false,
    }
}
