//! The order of all goals.
ghost use Rattle.std.specs.Prelude.{◌≡◌, ◌↔◌, ◌<◌, ℕ, List, false, replicate, IfOk, MatchOption};
ghost use Rattle.std.specs.List.{list_all};
ghost use Rattle.tel_base.specs.Members.{In};
ghost use Rattle.tel_term.specs.declared.terms.Term.{Term};
ghost use Rattle.plan_search.specs.Steps.{Tables as RowTables};
ghost use Rattle.plan_order.specs.declared.goals.Goal.{Goal as PlanGoal};
ghost use Rattle.plan_order.specs.Goals.{IsSound};
ghost use Rattle.plan_order.specs.Passing.{IsOrdered, IsStuck};

use crate::goals::Goal;
use crate::passing::finish;
use crate::ranking::ranks;
use fact_table::Tables;
use plan_search::Step;
use sqlite_items::Items;
use std::alloc::Global;
use tel_base::Memory;

/// So many places without a value.
fn no_marks(alloc: Global, places: usize) -> Result<Items<bool>, Memory>
    ensures { IfOk result (λ marks. marks ≡ replicate places false) }
{
    let marks = vec![in alloc; false; places]?;
    Ok(Items::from_vec(marks))
}

/// The numbers below a count.
fn numbers(alloc: Global, count: usize) -> Result<Vec<usize>, Memory>
    ensures { IfOk result (λ numbers. (n : ℕ) → In n numbers.items ↔ (n < count)) }
{
    let mut numbers = Vec::new(alloc);
    for number in 0..count {
        numbers.push(number)?;
    }
    Ok(numbers)
}

/// The numbers below a count, by their ranks.
fn ranked(alloc: Global, count: usize, ranks: &[usize]) -> Result<Items<usize>, Memory>
    ensures { IfOk result (λ numbers. (n : ℕ) → In n numbers ↔ (n < count)) }
{
    let mut numbers = numbers(alloc, count)?;
    numbers.sort_unstable_by_key(|number| ranks.get(*number).copied());
    Ok(Items::from_vec(numbers))
}

/// Whether each place has a value.
fn are_all(known: &[bool]) -> bool
    ensures { result ≡ list_all (λ mark. mark) known.now }
{
    for mark in known {
        if !*mark {
            return false;
        }
    }
    true
}

/// Steps that ask for exactly these goals, in an order in which they can be run; or none, and then some
/// place gets no value by any of them. It takes time near linear in the goals and their places.
pub fn order_goals<'a>(
    alloc: Global,
    tables: &Tables,
    goals: &[Goal<'a>],
    places: usize,
) -> Result<Option<Vec<Step<'a>>>, Memory>
    requires { (goal : PlanGoal) → In goal goals.now → IsSound places goal }
    ensures { IfOk result (λ ordered. MatchOption ordered (IsStuck places goals.now) (λ steps. (tables : RowTables) (symbols : List Term) → IsOrdered tables symbols places goals.now steps.items)) }
{
    let mut known = no_marks(alloc, places)?;
    let mut steps = Vec::new(alloc);
    let ranks = ranks(alloc, tables, goals, places)?;
    let all = ranked(alloc, goals.len(), ranks.as_slice())?;
    finish(alloc, goals, all, &mut known, &mut steps)?;
    if are_all(known.as_slice()) {
        Ok(Some(steps))
    } else {
        Ok(None)
    }
}
