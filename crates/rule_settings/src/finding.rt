//! The setting equations of a body.
ghost use Rattle.std.specs.Prelude.{ℕ, List, IfOk};
ghost use Rattle.rule_binding.specs.Binding.{equations_of, AreSettings};
ghost use Rattle.rule_settings.specs.Said.{all_said};
ghost use Rattle.rule_settings.specs.Candidates.{AreMarked};

use crate::candidates::{Setting, find_candidates, push_setting};
use crate::state::State;
use crate::waiters::all_waiters;
use std::alloc::Global;
use tel_base::Memory;
use tel_rule::Literal;

/// The setting equations of a body, in their order, where the variables with a mark are bound already; a
/// variable past the marks has none.
///
/// Again and again the leftmost `=` that has an unbound variable alone on one side, and no unbound
/// variable on the other, binds this variable. The time is linear in the body, but for a factor
/// logarithmic in its equations; the memory is linear in the body and in the greatest variable.
pub fn find_settings<'a>(
    alloc: Global,
    bound: &[bool],
    body: &'a [Literal],
) -> Result<Vec<Setting<'a>>, Memory>
    ensures { IfOk result (λ settings. (vars : List ℕ) → AreMarked bound.now vars → AreSettings (equations_of body.now) vars (all_said settings.items)) }
{
    let candidates = find_candidates(alloc, body)?;
    let waiters = all_waiters(alloc, candidates.as_slice())?;
    let mut state = State::start(alloc, bound)?;
    state.settle_all(alloc, waiters)?;
    let mut settings = Vec::new(alloc);
    'setting: while let Some(setting) = state.step(alloc, candidates.as_slice())? {
        push_setting(&mut settings, setting)?;
    }
    Ok(settings)
}
