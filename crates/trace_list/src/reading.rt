//! The trace of a trail.

ghost use Rattle.std.specs.Prelude.{◌≡◌, ◌+◌, ◌++◌, ◌∷◌, [], ◌≤◌, if◌then◌else◌, IfOk, OnOk};
ghost use Rattle.lit_trail.specs.Sound.{holds};
ghost use Rattle.trace_list.specs.Reading.{state_of, trace_of};

use atom_space::AtomSpace;
use lit_trail::Trail;
use sqlite_items::Items;
use std::alloc::Global;
use tel_base::{Lit, Memory};
use tel_rule::Trace;

/// Whether a literal holds.
fn holds(trail: &Trail, lit: Lit) -> bool
    ensures { result ≡ holds trail.now.entries lit }
{
    match trail.value(lit) {
        Some(value) => value,
        None => false,
    }
}

/// Adds an atom, where it is true.
fn push_true(state: &mut Items<u32>, atom: u32, is_true: bool) -> Result<(), Memory>
    ensures { OnOk result (state.new ≡ state.old ++ (if is_true then atom ∷ [] else [])) }
{
    if is_true {
        state.push(atom)?;
    }
    Ok(())
}

/// The atoms that are true at a state.
fn read_state(alloc: Global, trail: &Trail, space: &AtomSpace, t: u32) -> Result<Items<u32>, Memory>
    requires { t ≤ space.now.greatest }
    ensures { IfOk result (λ state. state ≡ state_of trail.now.entries space.now.counts t) }
{
    let mut state = Items::new(alloc);
    for atom in 0..space.atoms {
        let is_true = holds(trail, Lit::of(space.visible(atom, t)));
        push_true(&mut state, atom, is_true)?;
    }
    Ok(state)
}

/// The first `n` states.
fn read_states(
    alloc: Global,
    trail: &Trail,
    space: &AtomSpace,
    n: u32,
) -> Result<Items<Items<u32>>, Memory>
    requires { n ≤ space.now.greatest + 1 }
    ensures { IfOk result (λ states. states ≡ trace_of trail.now.entries space.now.counts n) }
{
    let mut states = Items::new(alloc);
    for t in 0..n {
        states.push(read_state(alloc, trail, space, t)?)?;
    }
    Ok(states)
}

/// The trace of the atoms that are true at the first `n` states. The one error is want of memory.
pub fn read_trace(alloc: Global, trail: &Trail, space: &AtomSpace, n: u32) -> Result<Trace, Memory>
    requires { n ≤ space.now.greatest + 1 }
    ensures { IfOk result (λ trace. trace ≡ trace_of trail.now.entries space.now.counts n) }
{
    let states = read_states(alloc, trail, space, n)?;
    Ok(Trace { states })
}
