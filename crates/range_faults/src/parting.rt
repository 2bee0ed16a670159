//! Early and late goals.
ghost use Rattle.std.specs.Prelude.{◌≡◌, ◌++◌, ◌∷◌, [], length, IfOk, OnOk};
ghost use Rattle.std.specs.List.{list_all};
ghost use Rattle.rule_binding.specs.Closure.{marked};
ghost use Rattle.rule_goals.specs.Said.{Equal, said, all_said};
ghost use Rattle.range_faults.specs.Parting.{is_early, early_of, late_of, early_goals, late_goals, zero_goal, zero_goals};

use crate::testing::is_marked;
use plan_order::Goal;
use rule_goals::RuleGoals;
use sqlite_items::Items;
use std::alloc::Global;
use tel_base::Memory;
use tel_term::Expr;

/// Goals that are early, with those that the variables without a mark begin as 0, and goals that are late.
#[derive(Drop)]
pub struct Parted<'a> {
    pub early: Vec<Goal<'a>>,
    pub late: Vec<Goal<'a>>,
}

/// Whether each of these variables has a mark.
fn all_marked(marks: &[bool], vars: &[u32]) -> bool
    ensures { result ≡ list_all (marked marks.now) vars.now }
{
    for v in vars {
        if !is_marked(marks, *v) {
            return false;
        }
    }
    true
}

/// Whether a goal reads variables with a mark alone.
fn is_early(goal: &Goal<'_>, marks: &[bool]) -> bool
    ensures { result ≡ is_early marks.now (said goal.now) }
{
    match goal {
        Goal::Row(_, _) => true,
        Goal::Equal(_, _, reads) => all_marked(marks, reads.as_slice()),
        Goal::Compare(_, _, _, _) => true,
    }
}

/// The same goal.
fn copy_goal<'a>(alloc: Global, goal: &Goal<'a>) -> Result<Goal<'a>, Memory>
    ensures { IfOk result (λ copy. said copy ≡ said goal.now) }
{
    match goal {
        Goal::Row(table, places) => {
            let places = Items::from_slice(alloc, places.as_slice())?;
            Ok(Goal::Row(*table, places))
        }
        Goal::Equal(place, expr, reads) => {
            let reads = Items::from_slice(alloc, reads.as_slice())?;
            Ok(Goal::Equal(*place, *expr, reads))
        }
        Goal::Compare(relation, left, right, reads) => {
            let reads = Items::from_slice(alloc, reads.as_slice())?;
            Ok(Goal::Compare(*relation, *left, *right, reads))
        }
    }
}

/// Adds a goal.
#[tactic(auto, using(crate::proofs::Pushed::one_goal))]
fn push_goal<'a>(goals: &mut Vec<Goal<'a>>, goal: Goal<'a>) -> Result<(), Memory>
    ensures { OnOk result (all_said goals.new.items ≡ all_said goals.old.items ++ said goal.entry ∷ []) }
{
    goals.push(goal)?;
    Ok(())
}

/// Adds a goal to those that are early, or to those that are late.
fn put_goal<'a>(
    alloc: Global,
    goal: &Goal<'a>,
    marks: &[bool],
    early: &mut Vec<Goal<'a>>,
    late: &mut Vec<Goal<'a>>,
) -> Result<(), Memory>
    ensures early { OnOk result (all_said early.new.items ≡ all_said early.old.items ++ early_of marks.now (said goal.now)) }
    ensures late { OnOk result (all_said late.new.items ≡ all_said late.old.items ++ late_of marks.now (said goal.now)) }
{
    let copy = copy_goal(alloc, goal)?;
    if is_early(goal, marks) {
        push_goal(early, copy)?;
        Ok(())
    } else {
        push_goal(late, copy)?;
        Ok(())
    }
}

/// Parts goals: those that read variables with a mark alone are early, and the others late.
fn part_goals<'a>(
    alloc: Global,
    goals: &[Goal<'a>],
    marks: &[bool],
    early: &mut Vec<Goal<'a>>,
    late: &mut Vec<Goal<'a>>,
) -> Result<(), Memory>
    ensures early { OnOk result (all_said early.new.items ≡ all_said early.old.items ++ early_goals marks.now (all_said goals.now)) }
    ensures late { OnOk result (all_said late.new.items ≡ all_said late.old.items ++ late_goals marks.now (all_said goals.now)) }
{
    for goal in goals {
        put_goal(alloc, goal, marks, early, late)?;
    }
    Ok(())
}

/// Adds the goal that a variable has the value of this expression, where it has no mark.
fn add_zero<'a>(
    alloc: Global,
    zero: &'a Expr,
    v: u32,
    mark: bool,
    goals: &mut Vec<Goal<'a>>,
) -> Result<(), Memory>
    ensures { OnOk result (all_said goals.new.items ≡ all_said goals.old.items ++ zero_goal zero.now v mark) }
{
    if mark {
        return Ok(());
    }
    push_goal(goals, Goal::Equal(v, zero, Items::new(alloc)))?;
    Ok(())
}

/// Adds the goals that the variables without a mark have the value of this expression.
fn add_zeros<'a>(
    alloc: Global,
    zero: &'a Expr,
    vars: u32,
    marks: &[bool],
    goals: &mut Vec<Goal<'a>>,
) -> Result<(), Memory>
    requires { vars ≡ length marks.now }
    ensures { OnOk result (all_said goals.new.items ≡ all_said goals.old.items ++ zero_goals zero.now 0 marks.now) }
{
    for v in 0..vars {
        add_zero(alloc, zero, v, marks[v as usize], goals)?;
    }
    Ok(())
}

/// The goals of a rule of so many variables, with marks of those that rows bind, in two parts.
pub fn parted_goals<'a>(
    alloc: Global,
    made: &RuleGoals<'a>,
    vars: u32,
    marks: &[bool],
    zero: &'a Expr,
) -> Result<Parted<'a>, Memory>
    requires { vars ≡ length marks.now }
    ensures early { IfOk result (λ parted. all_said parted.early.items ≡ zero_goals zero.now 0 marks.now ++ early_goals marks.now (all_said made.now.goals.items)) }
    ensures late { IfOk result (λ parted. all_said parted.late.items ≡ late_goals marks.now (all_said made.now.goals.items)) }
{
    let mut early = Vec::new(alloc);
    let mut late = Vec::new(alloc);
    add_zeros(alloc, zero, vars, marks, &mut early)?;
    part_goals(alloc, made.goals.as_slice(), marks, &mut early, &mut late)?;
    Ok(Parted { early, late })
}
