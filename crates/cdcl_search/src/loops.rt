//! The sets of loop clauses.

ghost use Rattle.std.specs.Prelude.{◌≡◌, ◌<◌, ◌≤◌, [], ◌∷◌, ◌++◌, length, vec_capacity};
ghost use Rattle.std.specs.Option.{option_copied};
ghost use Rattle.cdcl_search.specs.Steps.{loop_set};

use clause_store::ClauseId;
use unfounded_sets::LoopNogood;

/// The unfounded set of a loop clause that is held, and the atom of the clause.
#[derive(Drop)]
pub struct LoopSet {
    /// The number of the clause.
    pub clause: usize,
    pub atom: u32,
    /// The variables of the set, rising.
    pub set: Vec<u32>,
}

/// Puts the set of a loop clause at the end, where there is room.
pub(crate) fn push_loop(loops: &mut Vec<LoopSet>, id: ClauseId, nogood: LoopNogood)
    requires { length loops.old.items < vec_capacity loops.old }
    ensures { loops.new.items ≡ loops.old.items ++ record { clause = id.place; atom = nogood.atom; set = nogood.set } ∷ [] }
{
    let one = LoopSet {
        clause: id.place,
        atom: nogood.atom,
        set: nogood.set,
    };
    match loops.push(one) {
        Ok(()) => {}
        Err(_) => unreachable!(),
    }
}

/// Puts the length of a clause at the end, where there is room.
pub(crate) fn push_length(lengths: &mut Vec<u32>, n: u32)
    requires { length lengths.old.items < vec_capacity lengths.old }
    ensures items { lengths.new.items ≡ lengths.old.items ++ n ∷ [] }
    ensures room { vec_capacity lengths.old ≤ vec_capacity lengths.new }
{
    match lengths.push(n) {
        Ok(()) => {}
        Err(_) => unreachable!(),
    }
}

/// The last entry of a clause.
pub(crate) fn last_with(loops: &[LoopSet], clause: usize) -> Option<&LoopSet>
    ensures { option_copied result ≡ loop_set loops.now clause }
{
    let mut at = loops.len();
    'looking: while at > 0 {
        at -= 1;
        if loops[at].clause == clause {
            return Some(&loops[at]);
        }
    }
    None
}
