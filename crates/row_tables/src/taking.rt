//! What the values of a field are taken as.

use crate::fault::Cause;
use crate::values::Value;
use std::alloc::Global;

/// The only value, which is a number.
pub fn number(values: &[Value]) -> Result<u64, Cause> {
    match values {
        [Value::Number(number)] => Ok(*number),
        _ => Err(Cause::Values),
    }
}

/// The values, which are numbers.
pub fn numbers(alloc: Global, values: &[Value]) -> Result<Vec<u64>, Cause> {
    let mut all = Vec::new(alloc);
    for value in values {
        match value {
            Value::Number(number) => all.push(*number)?,
            Value::Text(_) => return Err(Cause::Values),
        }
    }
    Ok(all)
}

/// The values, which are texts, one behind the other.
pub fn joined(alloc: Global, values: &[Value]) -> Result<Vec<u8>, Cause> {
    let mut all = Vec::new(alloc);
    for value in values {
        match value {
            Value::Text(text) => all.extend_from_slice(text.as_slice())?,
            Value::Number(_) => return Err(Cause::Values),
        }
    }
    Ok(all)
}

/// A text as a word of a command or the name of a file.
pub fn word(alloc: Global, value: &Value) -> Result<String, Cause> {
    match value {
        Value::Text(text) => match str::from_utf8(text.as_slice()) {
            Ok(word) => Ok(String::from_str(alloc, word)?),
            Err(_) => Err(Cause::Utf8),
        },
        Value::Number(_) => Err(Cause::Values),
    }
}

/// The values, which are words.
pub fn words(alloc: Global, values: &[Value]) -> Result<Vec<String>, Cause> {
    let mut all = Vec::new(alloc);
    for value in values {
        all.push(word(alloc, value)?)?;
    }
    Ok(all)
}
