//! Bytes in quotes, as a table has them.

use std::alloc::{AllocError, Global};

/// Adds a byte as a text in quotes has it.
fn push_byte(alloc: Global, text: &mut String, byte: u8) -> Result<(), AllocError> {
    match byte {
        b'\n' => text.push_str("\\n"),
        b'"' => text.push_str("\\\""),
        b'\\' => text.push_str("\\\\"),
        b' '..=b'~' => text.push(char::from(byte)),
        _ => {
            let escape = format!(in alloc; "\\x{byte:02x}")?;
            text.push_str(escape.as_str())
        }
    }
}

/// These bytes in quotes.
pub fn quoted(alloc: Global, bytes: &[u8]) -> Result<String, AllocError> {
    let mut text = String::from_str(alloc, "\"")?;
    for byte in bytes {
        push_byte(alloc, &mut text, *byte)?;
    }
    text.push_str("\"")?;
    Ok(text)
}
