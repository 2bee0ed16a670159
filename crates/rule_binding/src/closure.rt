//! The least set of variables that keeps rules of binding, in time linear in the rules (Dowling and
//! Gallier, "Linear-time algorithms for testing the satisfiability of propositional Horn formulae",
//! 1984). A rule waits at one variable that it needs and that isn't bound.

ghost use Rattle.std.specs.Prelude.{◌≡◌, ◌≤◌, [], ℕ, replicate, false, nat_lt, IsTrue, IfOk, vec_len};
ghost use Rattle.std.specs.List.{list_all};
ghost use Rattle.rule_binding.specs.Closure.{marked, IsLeast};
ghost use Rattle.rule_binding.specs.Waiting.{waiting_at, are_below};

use crate::rules::BindingRule;
use crate::state::State;
use sqlite_items::Items;
use std::alloc::Global;
use tel_base::Memory;

/// A number above these variables, and not below another one.
fn above(vars: &[u32], least: usize) -> usize
    ensures vars { IsTrue (list_all (λ v. nat_lt v result) vars.now) }
    ensures least { least ≤ result }
{
    let mut size = least;
    for v in vars {
        size = size.max(*v as usize + 1);
    }
    size
}

/// A number above the variables of these rules.
fn above_rules(rules: &[BindingRule]) -> usize
    ensures { IsTrue (are_below result rules.now) }
{
    let mut size: usize = 0;
    for rule in rules {
        size = above(rule.needs.as_slice(), size.max(rule.var as usize + 1));
    }
    size
}

/// No rule waits for any of so many variables.
fn none_waiting(alloc: Global, size: usize) -> Result<Vec<Items<BindingRule>>, Memory>
    ensures len { IfOk result (λ waiting. vec_len waiting ≡ size) }
    ensures none { IfOk result (λ waiting. (v : ℕ) → waiting_at waiting.items v ≡ []) }
{
    let mut waiting = Vec::new(alloc);
    for _ in 0..size {
        waiting.push(Items::new(alloc))?;
    }
    Ok(waiting)
}

/// No variable is bound yet.
fn none_bound(alloc: Global, size: usize) -> Result<Vec<bool>, Memory>
    ensures { IfOk result (λ marks. marks.items ≡ replicate size false) }
{
    let marks = vec![in alloc; false; size]?;
    Ok(marks)
}

/// Marks of the least set of variables that keeps these rules.
pub fn closure(alloc: Global, rules: Items<BindingRule>) -> Result<Vec<bool>, Memory>
    ensures { IfOk result (λ marks. IsLeast rules (marked marks.items)) }
{
    let size = above_rules(rules.as_slice());
    let bound = none_bound(alloc, size)?;
    let waiting = none_waiting(alloc, size)?;
    let mut state = State {
        bound,
        waiting,
        queue: Items::new(alloc),
    };
    state.settle_all(rules)?;
    'waking: while let Some(woken) = state.wake(alloc) {
        state.settle_all(woken)?;
    }
    let State { bound, .. } = state;
    Ok(bound)
}
