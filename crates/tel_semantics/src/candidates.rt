//! All states and all traces below a given one, in the order of traces.

ghost use Rattle.std.specs.Prelude.{◌≡◌, [], ◌∷◌, map, IfOk};
ghost use Rattle.std.specs.List.{flat_map, range_with_len};
ghost use Rattle.tel_semantics.specs.Lists.{subsets, traces_below, full_trace, all_traces};

use sqlite_items::Items;
use std::alloc::{AllocError, Global};
use tel_base::Memory;

/// The atoms that are true at an instant, rising.
pub type State = Items<u32>;

/// The states of a trace, from instant 0 on.
pub type States = Items<State>;

/// The state with one more atom in front.
fn atom_before(alloc: Global, atom: u32, state: &[u32]) -> Result<State, Memory>
    ensures { IfOk result (λ more. more ≡ atom ∷ state.now) }
{
    let mut atoms = Vec::with_capacity(alloc, state.len() + 1)?;
    atoms.push(atom)?;
    atoms.extend_from_slice(state)?;
    Ok(Items::from_vec(atoms))
}

/// Each of the states with one more atom in front.
fn atom_before_each(alloc: Global, atom: u32, states: &[State]) -> Result<States, Memory>
    ensures { IfOk result (λ more. more ≡ map (λ state. atom ∷ state) states.now) }
{
    let mut more = Items::new(alloc);
    for state in states {
        more.push(atom_before(alloc, atom, state.as_slice())?)?;
    }
    Ok(more)
}

/// The subsets of these atoms, those without the first atom first.
fn subsets_of(alloc: Global, atoms: &[u32]) -> Result<States, Memory>
    ensures { IfOk result (λ states. states ≡ subsets atoms.now) }
{
    match atoms {
        [] => one_empty(alloc),
        [first, rest @ ..] => {
            let mut states = subsets_of(alloc, rest)?;
            let more = atom_before_each(alloc, *first, states.as_slice())?;
            states.append(more)?;
            Ok(states)
        }
    }
}

/// The list of one empty list.
fn one_empty<T: Drop>(alloc: Global) -> Result<Items<Items<T>>, Memory>
    ensures { IfOk result (λ lists. lists ≡ [] ∷ []) }
{
    let mut lists = Items::new(alloc);
    lists.push(Items::new(alloc))?;
    Ok(lists)
}

/// The states with one more in front.
fn state_before(alloc: Global, state: &[u32], rest: &[State]) -> Result<States, Memory>
    ensures { IfOk result (λ states. states ≡ state.now ∷ rest.now) }
{
    let mut states = Vec::with_capacity(alloc, rest.len() + 1)?;
    states.push(Items::from_slice(alloc, state)?)?;
    for state in rest {
        states.push(Items::from_slice(alloc, state.as_slice())?)?;
    }
    Ok(Items::from_vec(states))
}

/// Each of the traces with one more state in front.
fn state_before_each(
    alloc: Global,
    state: &State,
    traces: &[States],
) -> Result<Items<States>, Memory>
    ensures { IfOk result (λ more. more ≡ map (λ trace. state.now ∷ trace) traces.now) }
{
    let mut more = Items::new(alloc);
    for trace in traces {
        more.push(state_before(alloc, state.as_slice(), trace.as_slice())?)?;
    }
    Ok(more)
}

/// Each of the states before each of the traces, the states outermost.
fn each_before_each(
    alloc: Global,
    states: &[State],
    traces: &[States],
) -> Result<Items<States>, Memory>
    ensures { IfOk result (λ more.
        more ≡ flat_map (λ state. map (λ trace. state ∷ trace) traces.now) states.now) }
{
    let mut more = Items::new(alloc);
    for state in states {
        let with_state = state_before_each(alloc, state, traces)?;
        more.append(with_state)?;
    }
    Ok(more)
}

/// The traces below this one: each state is a subset of its state.
pub fn traces_below_of(alloc: Global, trace: &[State]) -> Result<Items<States>, Memory>
    ensures { IfOk result (λ traces. traces ≡ traces_below trace.now) }
{
    let mut traces = one_empty(alloc)?;
    let mut at = trace.len();
    while at > 0 {
        at -= 1;
        let state = &trace[at];
        let states = subsets_of(alloc, state.as_slice())?;
        traces = each_before_each(alloc, states.as_slice(), traces.as_slice())?;
    }
    Ok(traces)
}

/// The atoms below the count.
fn all_atoms(alloc: Global, count: u32) -> Result<Vec<u32>, AllocError>
    ensures { IfOk result (λ atoms. atoms.items ≡ range_with_len 0 count) }
{
    (0..count).collect(alloc)
}

/// The trace in which each of the atoms is true at each instant.
fn full_trace_of(alloc: Global, count: u32, length: usize) -> Result<States, Memory>
    ensures { IfOk result (λ trace. trace ≡ full_trace count length) }
{
    let mut trace = Items::new(alloc);
    for _ in 0..length {
        let state = all_atoms(alloc, count)?;
        trace.push(Items::from_vec(state))?;
    }
    Ok(trace)
}

/// All traces of a length over the atoms below the count.
pub fn all_traces_of(alloc: Global, count: u32, length: usize) -> Result<Items<States>, Memory>
    ensures { IfOk result (λ traces. traces ≡ all_traces count length) }
{
    let full = full_trace_of(alloc, count, length)?;
    traces_below_of(alloc, full.as_slice())
}
