//! Sources in memory, for tests and for callers that have their texts at hand.
ghost use Rattle.std.specs.Prelude.{◌≡◌, ℕ, ◌<◌, ◌≤◌, List, Some, None, length, take, drop, IfOk, IfSome, OnErr, MatchOption, map, string_bytes};
ghost use Rattle.std.specs.Result.{is_err};
ghost use Rattle.std.specs.List.{slice_get};
ghost use Rattle.std.specs.Option.{option_map};
ghost use Rattle.tel_base.specs.Counts.{HasCause};
ghost use Rattle.tel_base.specs.Given.{text_of, read_fails, after_read, piece_length};

use crate::outside::{Failed, Source};
use std::marker::Model;

/// Named texts in memory. The calls whose numbers are listed fail, counted from 1, and so do calls
/// for names that aren't there.
#[derive(Drop)]
pub struct MemSource {
    texts: Vec<(String, Vec<u8>)>,
    fails: Vec<u64>,
    calls: u64,
    faults: u64,
    failed: Option<usize>,
}

impl Model for MemSource {
    ghost use Rattle.std.specs.Prelude.{map, string_bytes};
    ghost use Rattle.std.specs.List.{slice_get};
    ghost use Rattle.std.specs.Option.{option_map, option_and_then};
    ghost use Rattle.tel_base.specs.Given.{Given};

    ghost Value = { Given };

    ghost view = { λ source. record {
      texts = map (λ entry. (string_bytes entry.0, entry.1.items)) source.texts.items;
      fails = source.fails.items;
      calls = source.calls;
      faults = source.faults;
      failed = option_and_then (λ place. option_map (λ entry. string_bytes entry.0) (slice_get source.texts.items place)) source.failed;
    } };
}

impl MemSource {
    /// A source of these texts, each under its name: of several texts of one name the first counts.
    /// The calls whose numbers are in `fails` fail, the first call has number 1.
    pub fn new(texts: Vec<(String, Vec<u8>)>, fails: Vec<u64>) -> MemSource
        ensures { result ≡ record {
          texts = map (λ entry. (string_bytes entry.0, entry.1.items)) texts.items;
          fails = fails.items;
          calls = 0;
          faults = 0;
          failed = None;
        } }
    {
        MemSource {
            texts,
            fails,
            calls: 0,
            faults: 0,
            failed: None,
        }
    }
}

impl Source for MemSource {
    ghost text = { λ source name. text_of source.texts name };

    ghost faults = { λ source. source.faults };

    ghost failed = { λ source. source.failed };

    fn read(&mut self, name: &str, from: u64, into: &mut [u8]) -> Result<usize, Failed>
        requires { IfSome (text_of self.old.texts name.now) (λ bytes. from ≤ length bytes) }
        ensures room { IfOk result (λ count. count ≤ length into.new) }
        ensures bytes { IfOk result (λ count. IfSome (text_of self.old.texts name.now)
            (λ bytes. take count into.new ≡ take count (drop from bytes))) }
        ensures end { IfOk result (λ count. IfSome (text_of self.old.texts name.now)
            (λ bytes. count ≡ 0 → 0 < length into.new → from ≡ length bytes)) }
        ensures texts { (word : List ℕ) → text_of self.new.texts word ≡ text_of self.old.texts word }
        ensures cause { HasCause self.old.faults self.new.faults result }
        ensures named { OnErr result (IfSome self.new.failed (λ word. word ≡ name.now)) }
        ensures fails { is_err result ≡ read_fails self.old name.now }
        ensures after { self.new ≡ after_read self.old name.now }
        ensures count { IfOk result (λ count. IfSome (text_of self.old.texts name.now)
            (λ bytes. count ≡ piece_length (length into.old) from bytes)) }
        ensures rest { IfOk result (λ count. drop count into.new ≡ drop count into.old) }
    {
        let place = place_of(self.texts.as_slice(), name);
        self.calls = self.calls.saturating_add(1);
        let listed = self.fails.contains(&self.calls);
        match place {
            Some(at) if !listed => Ok(copy_rest(self.texts[at].1.as_slice(), from, into)),
            _ => {
                self.faults = self.faults.saturating_add(1);
                self.failed = place;
                Err(Failed)
            }
        }
    }
}

/// One text in memory, which every name has. No call fails.
#[derive(Drop)]
pub struct PlainSource {
    text: Vec<u8>,
}

impl Model for PlainSource {
    ghost use Rattle.std.specs.Prelude.{List, ℕ};

    ghost Value = { List ℕ };

    ghost view = { λ source. source.text.items };
}

impl PlainSource {
    /// A source that gives this text under every name.
    pub fn new(text: Vec<u8>) -> PlainSource
        ensures { result ≡ text.items }
    {
        PlainSource { text }
    }
}

impl Source for PlainSource {
    ghost text = { λ source name. Some source };

    ghost faults = { λ source. 0 };

    ghost failed = { λ source. None };

    fn read(&mut self, _name: &str, from: u64, into: &mut [u8]) -> Result<usize, Failed>
        requires { from ≤ length self.old }
        ensures bytes { IfOk result (λ count. take count into.new ≡ take count (drop from self.old)) }
        ensures count { result ≡ Ok (piece_length (length into.old) from self.old) }
        ensures after { self.new ≡ self.old }
        ensures rest { IfOk result (λ count. drop count into.new ≡ drop count into.old) }
    {
        Ok(copy_rest(self.text.as_slice(), from, into))
    }
}

// The place of the first text of this name.
fn place_of(texts: &[(String, Vec<u8>)], name: &str) -> Option<usize>
    ensures { MatchOption result
        (text_of (map (λ entry. (string_bytes entry.0, entry.1.items)) texts.now) name.now ≡ None)
        (λ place. (place < length texts.now)
        × (option_map (λ entry. string_bytes entry.0) (slice_get texts.now place) ≡ Some name.now)
        × (option_map (λ entry. entry.1.items) (slice_get texts.now place)
        ≡ text_of (map (λ entry. (string_bytes entry.0, entry.1.items)) texts.now) name.now)) }
{
    for (place, entry) in texts.iter().enumerate() {
        if entry.0.as_str() == name {
            return Some(place);
        }
    }
    None
}

// Copies the bytes from place `from` on into the front of `into`, as many as it has room for, and
// says how many.
fn copy_rest(bytes: &[u8], from: u64, into: &mut [u8]) -> usize
    ensures count { result ≡ piece_length (length into.old) from bytes.now }
    ensures front { take result into.new ≡ take result (drop from bytes.now) }
    ensures rest { drop result into.new ≡ drop result into.old }
{
    let start = from.min(bytes.len() as u64) as usize;
    let left = &bytes[start..];
    let count = left.len().min(into.len());
    into[..count].copy_from_slice(&left[..count]);
    count
}
