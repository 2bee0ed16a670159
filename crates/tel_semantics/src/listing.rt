//! The temporal equilibrium models of a length, found by trying all traces.

ghost use Rattle.std.specs.Prelude.{◌≡◌, ◌*◌, ◌<◌, ◌≤◌, ◌^◌, length, IfOk, IsTrue, not, ◌||◌};
ghost use Rattle.std.specs.List.{list_all};
ghost use Rattle.tel_rule.specs.Rising.{numbers_rise};
ghost use Rattle.tel_semantics.specs.Traces.{test_of, is_below, each_below};
ghost use Rattle.tel_semantics.specs.Equilibrium.{is_minimal, tem, list_of};

use crate::candidates::{State, all_traces_of, traces_below_of};
use crate::walking::{HtTrace, World, is_true_at};
use sqlite_items::Items;
use std::alloc::Global;
use tel_base::Memory;
use tel_rule::{Template, Trace};

/// Whether what is true in `large` at the instant is true in `small`.
fn has_all_at(small: &[State], large: &[State], count: u32, k: usize) -> bool
    ensures { result ≡ each_below count (λ atom.
        not (test_of large.now k atom) || test_of small.now k atom) }
{
    for atom in 0..count {
        if is_true_at(large, k, atom) && !is_true_at(small, k, atom) {
            return false;
        }
    }
    true
}

/// Whether what is true in `large` is true in `small`.
fn has_all(small: &[State], large: &[State], count: u32, length: usize) -> bool
    ensures { result ≡ is_below length count (test_of large.now) (test_of small.now) }
{
    for k in 0..length {
        if !has_all_at(small, large, count, k) {
            return false;
        }
    }
    true
}

/// Whether each trace below `trace` that is a model with it has all of it.
fn is_minimal_in(
    alloc: Global,
    template: &Template,
    n: usize,
    trace: &[State],
) -> Result<bool, Memory>
    requires { length template.now.atoms < 2 ^ 32 }
    ensures { IfOk result (λ minimal. minimal ≡ is_minimal template.now n trace.now) }
{
    let count = template.atoms.len() as u32;
    let below = traces_below_of(alloc, trace)?;
    for smaller in below.as_slice() {
        let pair = HtTrace {
            length: n,
            here: smaller.as_slice(),
            there: trace,
            world: World::Here,
        };
        if pair.is_model_of(template) && !has_all(smaller.as_slice(), trace, count, n) {
            return Ok(false);
        }
    }
    Ok(true)
}

/// Whether the trace is a temporal equilibrium model.
fn is_equilibrium(
    alloc: Global,
    template: &Template,
    n: usize,
    trace: &[State],
) -> Result<bool, Memory>
    requires { length template.now.atoms < 2 ^ 32 }
    ensures { IfOk result (λ kept. kept ≡ tem template.now n trace.now) }
{
    let pair = HtTrace {
        length: n,
        here: trace,
        there: trace,
        world: World::There,
    };
    if pair.is_model_of(template) {
        is_minimal_in(alloc, template, n, trace)
    } else {
        Ok(false)
    }
}

/// The trace of these states.
fn trace_of(alloc: Global, states: &[State]) -> Result<Trace, Memory>
    requires { IsTrue (list_all numbers_rise states.now) }
    ensures { IfOk result (λ trace. trace ≡ states.now) }
{
    let mut copies = Items::new(alloc);
    for state in states {
        copies.push(Items::from_slice(alloc, state.as_slice())?)?;
    }
    Ok(Trace { states: copies })
}

/// The temporal equilibrium models of length `n`, in the order of traces.
///
/// It tries all traces, and below each all smaller ones, so it is made for tiny programs: `n` times
/// the number of atoms is at most 12. The only error is want of memory.
pub fn plain_list(alloc: Global, template: &Template, n: u32) -> Result<Vec<Trace>, Memory>
    requires { length template.now.atoms * n ≤ 12 }
    ensures { IfOk result (λ traces. traces.items ≡ list_of template.now n) }
{
    let mut kept = Vec::new(alloc);
    if n == 0 {
        return Ok(kept);
    }
    let n = n as usize;
    let candidates = all_traces_of(alloc, template.atoms.len() as u32, n)?;
    for states in candidates.as_slice() {
        if is_equilibrium(alloc, template, n, states.as_slice())? {
            kept.push(trace_of(alloc, states.as_slice())?)?;
        }
    }
    Ok(kept)
}
