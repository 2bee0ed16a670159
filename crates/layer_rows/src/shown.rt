//! What a call says, as the bytes that a row is compared with.

use row_tables::Cause;
use std::alloc::AllocError;

/// The bytes of a text that was written out.
pub fn shown(text: Result<String, AllocError>) -> Result<Vec<u8>, Cause> {
    match text {
        Ok(text) => Ok(text.into_bytes()),
        Err(_) => Err(Cause::Memory),
    }
}
