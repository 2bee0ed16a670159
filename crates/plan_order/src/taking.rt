//! Goals as steps.
ghost use Rattle.std.specs.Prelude.{◌≡◌, length, IfOk, IsTrue};
ghost use Rattle.plan_order.specs.Goals.{ready, IsSound};
ghost use Rattle.plan_order.specs.Taking.{Takes, Offers};

use crate::goals::Goal;
use crate::marks::{all_known, column, columns};
use plan_search::Step;
use sqlite_items::Items;
use std::alloc::Global;
use tel_base::Memory;

/// Whether what a goal reads has values.
fn is_ready(goal: &Goal<'_>, known: &[bool]) -> bool
    ensures { result ≡ ready known.now goal.now }
{
    match goal {
        Goal::Row(_, _) => true,
        Goal::Equal(_, _, reads) => all_known(known, reads.as_slice()),
        Goal::Compare(_, _, _, reads) => all_known(known, reads.as_slice()),
    }
}

/// The step that asks for a goal whose reads have values.
fn take<'a>(alloc: Global, goal: &Goal<'a>, known: &mut Items<bool>) -> Result<Step<'a>, Memory>
    requires sound { IsSound (length known.old) goal.now }
    requires ready { IsTrue (ready known.old goal.now) }
    ensures { IfOk result (λ step. Takes goal.now known.old known.new step) }
{
    match goal {
        Goal::Row(predicate, places) => {
            let columns = columns(alloc, known, places.as_slice())?;
            Ok(Step::Row(*predicate, columns))
        }
        Goal::Equal(place, expr, _) => Ok(Step::Equal(column(known, *place), *expr)),
        Goal::Compare(relation, left, right, _) => Ok(Step::Compare(*relation, *left, *right)),
    }
}

/// Takes a goal if what it reads has values, and says whether it did.
pub fn offer<'a>(
    alloc: Global,
    goal: &Goal<'a>,
    known: &mut Items<bool>,
    steps: &mut Vec<Step<'a>>,
) -> Result<bool, Memory>
    requires sound { IsSound (length known.old) goal.now }
    ensures { IfOk result (λ took. Offers goal.now took known.old known.new steps.old.items steps.new.items) }
{
    if !is_ready(goal, known.as_slice()) {
        return Ok(false);
    }
    let step = take(alloc, goal, known)?;
    steps.push(step)?;
    Ok(true)
}
