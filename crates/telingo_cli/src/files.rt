//! The texts of the file words, read in order.
ghost use Rattle.std.specs.Prelude.{◌≡◌, ℕ, ◌+◌, ◌^◌, ◌<◌, ◌≤◌, List, [], ◌∷◌, length, IfOk, IfErr, IfSome};
ghost use Rattle.std.specs.List.{position};
ghost use Rattle.std.specs.Str.{bytes_eq};
ghost use Rattle.part_syntax.specs.Programs.{total_bytes};
ghost use Rattle.text_answer.specs.Verdict.{largest_text};
ghost use Rattle.walker_text.specs.Walker.{walker_text};
ghost use Rattle.telingo_cli.specs.Texts.{AreTold, HaveLargeTexts, FailedAt, first_place};
ghost use Rattle.telingo_cli.specs.Files.{KeepsCount};

use crate::reading::{TextFault, piece_buffer, read_text};
use std::alloc::Global;
use tel_base::{Memory, Source, Text};
use tel_settings::Word;
use walker_text::generate;

/// Why the texts weren't read.
#[derive(Clone, Copy, PartialEq, Eq)]
pub enum FilesFault {
    /// They have together more bytes than they may have.
    Large,
    /// A read failed, of the text of the word at this place, the first of its name.
    Read(usize),
    /// There was no memory for them.
    Memory,
}

/// The most bytes that all texts together may have.
const LARGEST_TEXT: usize = 1048576;

/// The place of the first of these words that is this one.
fn first_place(words: &[Word], name: &str) -> usize
    ensures place { result ≡ first_place words.now name.now }
    ensures small { result < 2 ^ 63 }
{
    match find_word(words, name) {
        Some(place) => place,
        None => 0,
    }
}

/// The place of the first of these words that is this one, if there is one.
fn find_word(words: &[Word], name: &str) -> Option<usize>
    ensures place { result ≡ position (bytes_eq name.now) words.now }
    ensures within { IfSome result (λ place. place < length words.now) }
{
    words.iter().position(|word| name == word.as_str())
}

/// Reads the whole texts of these words, in order.
pub fn read_files<S: Source>(
    alloc: Global,
    texts: &mut S,
    words: &[Word],
) -> Result<Vec<Text>, FilesFault>
    ensures whole { IfOk result (λ read. AreTold (S.text texts.old) words.now read.items) }
    ensures small { IfOk result (λ read. total_bytes read.items ≤ largest_text) }
    ensures large { IfErr result (λ fault. fault ≡ FilesFault.Large → HaveLargeTexts (S.text texts.old) words.now) }
    ensures read_only { IfErr result (λ fault. (place : ℕ) → fault ≡ FilesFault.Read place → FailedAt words.now (S.text texts.old) (S.failed texts.new) (S.faults texts.old) (S.faults texts.new) place) }
    ensures read_place { IfErr result (λ fault. (place : ℕ) → fault ≡ FilesFault.Read place → place < 2 ^ 63) }
    ensures stands { KeepsCount result (S.faults texts.old) (S.faults texts.new) }
    ensures texts { (word : List ℕ) → S.text texts.new word ≡ S.text texts.old word }
{
    let Ok(mut piece) = piece_buffer(alloc) else {
        return Err(FilesFault::Memory);
    };
    let mut read = Vec::new(alloc);
    let mut total = 0;
    for word in words {
        let text = match read_text(
            alloc,
            texts,
            word.as_str(),
            LARGEST_TEXT - total,
            &mut piece,
        ) {
            Ok(text) => text,
            Err(TextFault::Large) => return Err(FilesFault::Large),
            Err(TextFault::Read) => return Err(FilesFault::Read(first_place(words, word.as_str()))),
            Err(TextFault::Memory) => return Err(FilesFault::Memory),
        };
        total += text.len();
        if read.push(text).is_err() {
            return Err(FilesFault::Memory);
        }
    }
    Ok(read)
}

/// The generated text of this number, alone.
pub fn walker_texts(alloc: Global, number: u32) -> Result<Vec<Text>, Memory>
    ensures whole { IfOk result (λ read. read.items ≡ walker_text number ∷ []) }
    ensures small { IfOk result (λ read. total_bytes read.items ≤ largest_text) }
{
    let text = generate(alloc, number)?;
    let mut read = Vec::new(alloc);
    read.push(text)?;
    Ok(read)
}
