//! Goals that are left, offered one after another.
ghost use Rattle.std.specs.Prelude.{◌≡◌, ◌<◌, ℕ, length, slice_get, Some, IfOk};
ghost use Rattle.tel_base.specs.Members.{In};
ghost use Rattle.plan_order.specs.declared.goals.Goal.{Goal as PlanGoal};
ghost use Rattle.plan_order.specs.Goals.{IsSound};
ghost use Rattle.plan_order.specs.Passing.{AreInside, AreUnready, Passes, Drafts};

use crate::goals::Goal;
use crate::taking::offer;
use plan_search::Step;
use sqlite_items::Items;
use std::alloc::Global;
use tel_base::Memory;

/// The goal with a number.
fn goal_at<'g, 'a>(goals: &'g [Goal<'a>], number: usize) -> &'g Goal<'a>
    requires { number < length goals.now }
    ensures { slice_get goals.now number ≡ Some result.now }
{
    &goals[number]
}

/// Offers the goals that are left, one after another, and says which are left then.
fn pass<'a>(
    alloc: Global,
    goals: &[Goal<'a>],
    left: &[usize],
    known: &mut Items<bool>,
    steps: &mut Vec<Step<'a>>,
) -> Result<Items<usize>, Memory>
    requires sound { (goal : PlanGoal) → In goal goals.now → IsSound (length known.old) goal }
    requires inside { AreInside goals.now left.now }
    ensures { IfOk result (λ next. Passes goals.now left.now next known.old known.new steps.old.items steps.new.items) }
{
    let mut next = Items::new(alloc);
    for index in 0..left.len() {
        let number = left[index];
        let goal = goal_at(goals, number);
        if !offer(alloc, goal, known, steps)? {
            next.push(number)?;
        }
    }
    Ok(next)
}

/// Takes goals until none that is left is ready, and says which are left.
pub fn finish<'a>(
    alloc: Global,
    goals: &[Goal<'a>],
    left: Items<usize>,
    known: &mut Items<bool>,
    steps: &mut Vec<Step<'a>>,
) -> Result<Items<usize>, Memory>
    requires sound { (goal : PlanGoal) → In goal goals.now → IsSound (length known.old) goal }
    requires inside { AreInside goals.now left }
    ensures drafts { IfOk result (λ next. Drafts goals.now left next known.old known.new steps.old.items steps.new.items) }
    ensures unready { IfOk result (λ next. AreUnready goals.now next known.new) }
{
    let mut left = left;
    'rounds: while left.len() > 0 {
        let next = pass(alloc, goals, left.as_slice(), known, steps)?;
        if next.len() == left.len() {
            return Ok(next);
        }
        left = next;
    }
    Ok(left)
}
