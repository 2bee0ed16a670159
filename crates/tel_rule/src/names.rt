//! Names in the order of their bytes.
ghost use Rattle.std.specs.Prelude.{◌≡◌, ◌+◌, ◌≤◌, length, insert, OnOk, OnErr, IfSome, MatchOption, vec_len};
ghost use Rattle.tel_rule.specs.Rising.{with_name};

use std::alloc::Global;
use std::cmp::Ordering;
use tel_base::{Memory, Text};

/// Where a name is to be put among names that rise, and `None` where it is there.
pub fn place_of(names: &[Text], name: &[u8]) -> Option<usize>
    ensures within { IfSome result (λ place. place ≤ length names.now) }
    ensures place { MatchOption result (with_name name.now names.now ≡ names.now)
        (λ place. with_name name.now names.now ≡ insert names.now place name.now) }
{
    for (place, other) in names.iter().enumerate() {
        match name.cmp(other.as_slice()) {
            Ordering::Less => return Some(place),
            Ordering::Equal => return None,
            Ordering::Greater => {}
        }
    }
    Some(names.len())
}

/// Puts a new name at a place. Want of memory changes nothing.
pub fn insert_name(
    alloc: Global,
    names: &mut Vec<Text>,
    place: usize,
    name: &[u8],
) -> Result<(), Memory>
    requires { place ≤ vec_len names.old }
    ensures names { OnOk result (names.new.items ≡ insert names.old.items place name.now) }
    ensures len { OnOk result (vec_len names.new ≡ vec_len names.old + 1) }
    ensures err { OnErr result (names.new.items ≡ names.old.items) }
{
    let name = Text::from_slice(alloc, name)?;
    names.insert(place, name)?;
    Ok(())
}
