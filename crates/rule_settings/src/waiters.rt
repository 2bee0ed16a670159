//! Candidates that wait for a variable.
ghost use Rattle.std.specs.Prelude.{◌≡◌, ◌≤◌, ◌<◌, ◌++◌, ◌∷◌, ◌==◌, [], ℕ, IfOk, OnOk, vec_len, if◌then◌else◌};
ghost use Rattle.rule_settings.specs.Said.{all_said};
ghost use Rattle.rule_settings.specs.Waiting.{waiting_at, waiters_from};

use crate::candidates::Setting;
use rule_binding::collect_variables;
use sqlite_items::Items;
use std::alloc::Global;
use std::mem;
use tel_base::Memory;

/// A candidate, by its number, and variables that have to be bound before it can set its own one.
#[derive(Drop)]
pub struct Waiter {
    pub number: usize,
    pub needs: Items<u32>,
}

/// The candidates, each with all variables of its other side.
pub fn all_waiters(alloc: Global, candidates: &[Setting<'_>]) -> Result<Items<Waiter>, Memory>
    ensures { IfOk result (λ waiters. waiters ≡ waiters_from 0 (all_said candidates.now)) }
{
    let mut waiters = Items::new(alloc);
    for (number, candidate) in candidates.iter().enumerate() {
        let mut needs = Items::new(alloc);
        collect_variables(candidate.value, &mut needs)?;
        waiters.push(Waiter { number, needs })?;
    }
    Ok(waiters)
}

/// Makes room for candidates that wait for so many variables.
fn reach_waiting(alloc: Global, waiting: &mut Vec<Items<Waiter>>, len: usize) -> Result<(), Memory>
    ensures same { OnOk result ((v : ℕ) → waiting_at waiting.new.items v ≡ waiting_at waiting.old.items v) }
    ensures len { OnOk result (len ≤ vec_len waiting.new) }
{
    'room: while waiting.len() < len {
        waiting.push(Items::new(alloc))?;
    }
    Ok(())
}

/// Adds a waiter at a place.
fn put_waiter(waiting: &mut Vec<Items<Waiter>>, v: u32, waiter: Waiter) -> Result<(), Memory>
    requires { v < vec_len waiting.old }
    ensures { OnOk result ((u : ℕ) → waiting_at waiting.new.items u ≡ waiting_at waiting.old.items u ++ (if v == u then waiter ∷ [] else [])) }
{
    waiting[v as usize].push(waiter)?;
    Ok(())
}

/// A candidate waits for a variable.
pub fn wait(
    alloc: Global,
    waiting: &mut Vec<Items<Waiter>>,
    v: u32,
    waiter: Waiter,
) -> Result<(), Memory>
    ensures { OnOk result ((u : ℕ) → waiting_at waiting.new.items u ≡ waiting_at waiting.old.items u ++ (if v == u then waiter ∷ [] else [])) }
{
    reach_waiting(alloc, waiting, v as usize + 1)?;
    put_waiter(waiting, v, waiter)?;
    Ok(())
}

/// Takes away the candidates that wait for a variable.
pub fn wake(alloc: Global, waiting: &mut Vec<Items<Waiter>>, v: u32) -> Items<Waiter>
    ensures woken { result ≡ waiting_at waiting.old.items v }
    ensures waiting { (u : ℕ) → waiting_at waiting.new.items u ≡ (if v == u then [] else waiting_at waiting.old.items u) }
{
    if (v as usize) < waiting.len() {
        mem::replace(&mut waiting[v as usize], Items::new(alloc))
    } else {
        Items::new(alloc)
    }
}
