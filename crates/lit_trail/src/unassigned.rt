//! The first visible variable without a value.

ghost use Rattle.std.specs.Prelude.{◌≡◌, ◌+◌, ◌≤◌, min};
ghost use Rattle.std.specs.List.{find};
ghost use Rattle.lit_trail.specs.Unassigned.{is_open, visible_at, visible_below};

use crate::assignment::Assignment;
use atom_space::AtomSpace;

/// The first visible variable of a state that has no value.
fn first_at(assignment: &Assignment, space: &AtomSpace, t: u32) -> Option<u32>
    requires { t ≤ space.now.greatest }
    ensures { result ≡ find (is_open assignment.now.entries) (visible_at space.now.counts t) }
{
    for atom in 0..space.atoms {
        let var = space.visible(atom, t);
        if assignment.spot(var).is_none() {
            return Some(var);
        }
    }
    None
}

/// The first visible variable of so many states that has no value.
pub fn first_from(assignment: &Assignment, space: &AtomSpace, states: u32) -> Option<u32>
    requires { states ≤ space.now.greatest + 1 }
    ensures { result ≡ find (is_open assignment.now.entries) (visible_below space.now.counts states) }
{
    let width = space.width() as usize;
    let start = assignment.settled() / width;
    for t in start..states as usize {
        if let Some(var) = first_at(assignment, space, t as u32) {
            return Some(var);
        }
    }
    None
}

/// How many states below `n` there are.
pub fn states_below(space: &AtomSpace, n: u32) -> u32
    ensures { result ≡ min n (space.now.greatest + 1) }
{
    if space.greatest < n {
        space.greatest + 1
    } else {
        n
    }
}
