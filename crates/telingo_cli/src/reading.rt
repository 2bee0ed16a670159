ghost use Rattle.std.specs.Prelude.{◌≡◌, true, false, ℕ, ◌+◌, ◌<◌, ◌≤◌, List, ◌++◌, length, take, drop, IfOk, IfSome, OnOk, OnErr, IfErr, vec_len};
ghost use Rattle.std.specs.Result.{IsErrOf};
ghost use Rattle.tel_base.specs.Counts.{Rose, HasCause};
ghost use Rattle.telingo_cli.specs.Reading.{IsFrontOf, IsTold, HasMore};

use std::alloc::{AllocError, Global};
use tel_base::{Source, Text};

/// Why a text wasn't read.
#[derive(Clone, Copy, PartialEq, Eq)]
pub enum TextFault {
    /// It has more bytes than it may have.
    Large,
    /// A read failed.
    Read,
    /// There was no memory for it.
    Memory,
}

/// How many bytes are asked for at a time.
const PIECE: usize = 32768;

/// Reads the next piece of the text of `name`, after the bytes that are there, and adds it to them.
/// It says whether there was one; none is the end of the text.
fn read_piece<S: Source>(
    texts: &mut S,
    name: &str,
    bytes: &mut Vec<u8>,
    piece: &mut [u8],
) -> Result<bool, TextFault>
    requires front { IsFrontOf (S.text texts.old name.now) bytes.old.items }
    requires room { 0 < length piece.old }
    ensures front { OnOk result (IsFrontOf (S.text texts.old name.now) bytes.new.items) }
    ensures more { IfOk result (λ more. more ≡ true → vec_len bytes.old < vec_len bytes.new) }
    ensures end { IfOk result (λ more. more ≡ false → (bytes.new.items ≡ bytes.old.items) × IsTold (S.text texts.old name.now) bytes.new.items) }
    ensures read_only { result ≡ Err TextFault.Read → Rose (S.faults texts.old) (S.faults texts.new) }
    ensures read_named { result ≡ Err TextFault.Read → IfSome (S.failed texts.new) (λ word. word ≡ name.now) }
    ensures stands { (result ≡ Err TextFault.Read → ⊥) → S.faults texts.new ≡ S.faults texts.old }
    ensures never_large { result ≡ Err TextFault.Large → ⊥ }
    ensures falls_never { S.faults texts.old ≤ S.faults texts.new }
    ensures texts { (word : List ℕ) → S.text texts.new word ≡ S.text texts.old word }
{
    let from = bytes.len() as u64;
    match texts.read(name, from, piece) {
        Err(_) => Err(TextFault::Read),
        Ok(count) => {
            match bytes.extend_from_slice(&piece[..count]) {
                Err(_) => Err(TextFault::Memory),
                Ok(()) => Ok(count != 0),
            }
        }
    }
}

/// A buffer for the pieces.
pub fn piece_buffer(alloc: Global) -> Result<Vec<u8>, AllocError>
    ensures { IfOk result (λ buffer. 0 < vec_len buffer) }
{
    buffer_of(alloc, PIECE)
}

/// A buffer of this many bytes.
fn buffer_of(alloc: Global, len: usize) -> Result<Vec<u8>, AllocError>
    ensures { IfOk result (λ buffer. vec_len buffer ≡ len) }
{
    vec![in alloc; 0; len]
}

/// Reads the whole text of `name`, which may have at most `most` bytes, in pieces of the size of
/// `piece`.
pub fn read_text<S: Source>(
    alloc: Global,
    texts: &mut S,
    name: &str,
    most: usize,
    piece: &mut [u8],
) -> Result<Text, TextFault>
    requires { 0 < length piece.old }
    ensures whole { IfOk result (λ text. IsTold (S.text texts.old name.now) text) }
    ensures small { IfOk result (λ text. length text ≤ most) }
    ensures large { result ≡ Err TextFault.Large → HasMore (S.text texts.old name.now) most }
    ensures read_only { result ≡ Err TextFault.Read → Rose (S.faults texts.old) (S.faults texts.new) }
    ensures read_named { result ≡ Err TextFault.Read → IfSome (S.failed texts.new) (λ word. word ≡ name.now) }
    ensures stands { (result ≡ Err TextFault.Read → ⊥) → S.faults texts.new ≡ S.faults texts.old }
    ensures texts { (word : List ℕ) → S.text texts.new word ≡ S.text texts.old word }
{
    let mut bytes = Vec::new(alloc);
    'reading: while bytes.len() <= most {
        match read_piece(texts, name, &mut bytes, piece) {
            Err(fault) => return Err(fault),
            Ok(false) => return Ok(Text::from_vec(bytes)),
            Ok(true) => {}
        }
    }
    Err(TextFault::Large)
}
