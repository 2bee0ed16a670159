//! Which variables are bound, which candidates are ready, and which wait for variables.
ghost use Rattle.std.specs.Prelude.{◌≡◌, ◌++◌, ◌∷◌, [], List, IfOk, OnOk, MatchOption};
ghost use Rattle.rule_binding.specs.Binding as binding;
ghost use Rattle.rule_binding.specs.Closure.{marked};
ghost use Rattle.rule_settings.specs.Said.{said, all_said};
ghost use Rattle.rule_settings.specs.Numbers.{is_in};
ghost use Rattle.rule_settings.specs.Waiting.{waiters_from, NoneOpen, IsNext, StateIs, IsStep};
ghost use Rattle.rule_settings.specs.declared.waiters.Waiter.{Waiter};

use crate::candidates::Setting;
use crate::marks::{copy_marks, is_marked, mark, open_need};
use crate::numbers::{add_number, no_numbers, take_least};
use crate::waiters::{Waiter, wait, wake};
use sqlite_items::Items;
use std::alloc::Global;
use std::collections::BTreeSet;
use tel_base::Memory;

/// The variables that are bound, the candidates that wait for each variable, and the numbers of those
/// whose other side has no unbound variable.
#[derive(Drop)]
pub struct State {
    bound: Vec<bool>,
    waiting: Vec<Items<Waiter>>,
    ready: BTreeSet<usize>,
}

/// The first ready candidate whose variable is unbound, where there is one. Those before it are no
/// longer kept.
fn next_open<'a>(
    ready: &mut BTreeSet<usize>,
    candidates: &[Setting<'a>],
    bound: &[bool],
) -> Option<Setting<'a>>
    ensures { MatchOption result
        (NoneOpen (marked bound.now) (all_said candidates.now) (is_in ready.old))
        (λ found. IsNext (marked bound.now) (all_said candidates.now) (is_in ready.old) (is_in ready.new) (said found)) }
{
    'numbers: while let Some(number) = take_least(ready) {
        if let Some(candidate) = candidates.get(number) {
            if !is_marked(bound, candidate.var) {
                return Some(*candidate);
            }
        }
    }
    None
}

impl State {
    /// These variables are bound, and no candidate was looked at yet.
    pub fn start(alloc: Global, bound: &[bool]) -> Result<State, Memory>
        ensures state { IfOk result (λ state. (cs : List binding.Setting) → StateIs cs state (waiters_from 0 cs)) }
        ensures bound { IfOk result (λ state. state.bound.items ≡ bound.now) }
    {
        let bound = copy_marks(alloc, bound)?;
        Ok(State {
            bound,
            waiting: Vec::new(alloc),
            ready: no_numbers(alloc),
        })
    }

    /// Takes in a candidate: it is ready, or waits for a variable.
    fn settle(&mut self, alloc: Global, waiter: Waiter) -> Result<(), Memory>
        ensures state { OnOk result ((cs : List binding.Setting) (rest : List Waiter) → StateIs cs self.old (rest ++ waiter ∷ []) → StateIs cs self.new rest) }
        ensures bound { self.new.bound ≡ self.old.bound }
    {
        let Waiter { number, mut needs } = waiter;
        match open_need(&mut needs, self.bound.as_slice()) {
            Some(v) => {
                wait(alloc, &mut self.waiting, v, Waiter { number, needs })?;
                Ok(())
            }
            None => {
                add_number(&mut self.ready, number)?;
                Ok(())
            }
        }
    }

    /// Takes in candidates.
    pub fn settle_all(&mut self, alloc: Global, waiters: Items<Waiter>) -> Result<(), Memory>
        ensures state { OnOk result ((cs : List binding.Setting) → StateIs cs self.old waiters → StateIs cs self.new []) }
        ensures bound { self.new.bound ≡ self.old.bound }
    {
        let mut rest = waiters;
        'waiters: while let Some(waiter) = rest.pop() {
            self.settle(alloc, waiter)?;
        }
        Ok(())
    }

    /// Binds the variable of the next setting equation, where there is one.
    pub fn step<'a>(
        &mut self,
        alloc: Global,
        candidates: &[Setting<'a>],
    ) -> Result<Option<Setting<'a>>, Memory>
        ensures { IfOk result (λ found. StateIs (all_said candidates.now) self.old [] → IsStep (all_said candidates.now) self.old self.new found) }
    {
        match next_open(&mut self.ready, candidates, self.bound.as_slice()) {
            Some(setting) => {
                mark(&mut self.bound, setting.var)?;
                let woken = wake(alloc, &mut self.waiting, setting.var);
                self.settle_all(alloc, woken)?;
                Ok(Some(setting))
            }
            None => Ok(None),
        }
    }
}
