//! Goals put at the end of others.
ghost use Rattle.std.specs.Prelude.{◌≡◌, ◌++◌, ◌∷◌, [], IfOk, OnOk};
ghost use Rattle.rule_binding.specs.Binding.{vars_of, whole_var};
ghost use Rattle.rule_goals.specs.Said.{Equal, Compare, said, all_said, arg_said, side_said, sides_said, equation_said, comparison_said};

use plan_order::Goal;
use rule_binding::{collect_variables, whole_variable};
use sqlite_items::Items;
use std::alloc::Global;
use tel_base::Memory;
use tel_rule::{LitItem, Relation};
use tel_term::Expr;

/// Adds a goal.
#[tactic(auto, using(crate::proofs::Pushed::one_more))]
pub fn push_goal<'a>(goals: &mut Vec<Goal<'a>>, goal: Goal<'a>) -> Result<(), Memory>
    ensures { OnOk result (all_said goals.new.items ≡ all_said goals.old.items ++ said goal.entry ∷ []) }
{
    goals.push(goal)?;
    Ok(())
}

/// Adds the goal that a place has the value of an expression.
fn push_equal<'a>(
    alloc: Global,
    place: u32,
    expr: &'a Expr,
    goals: &mut Vec<Goal<'a>>,
) -> Result<(), Memory>
    ensures { OnOk result (all_said goals.new.items ≡ all_said goals.old.items ++ Equal place expr.now (vars_of expr.now) ∷ []) }
{
    let mut reads = Items::new(alloc);
    collect_variables(expr, &mut reads)?;
    push_goal(goals, Goal::Equal(place, expr, reads))?;
    Ok(())
}

/// Adds the goal of an argument that is no variable: the first free place has its value.
pub fn add_arg<'a>(
    alloc: Global,
    arg: &'a Expr,
    free: u32,
    goals: &mut Vec<Goal<'a>>,
) -> Result<(), Memory>
    ensures { OnOk result (all_said goals.new.items ≡ all_said goals.old.items ++ arg_said free arg.now (whole_var arg.now)) }
{
    match whole_variable(arg) {
        Some(_) => Ok(()),
        None => {
            push_equal(alloc, free, arg, goals)?;
            Ok(())
        }
    }
}

/// Adds the goal of a side that is a variable: it has the value of the other side.
fn add_side<'a>(
    alloc: Global,
    side: &Expr,
    other: &'a Expr,
    goals: &mut Vec<Goal<'a>>,
) -> Result<(), Memory>
    ensures { OnOk result (all_said goals.new.items ≡ all_said goals.old.items ++ side_said other.now (whole_var side.now)) }
{
    match whole_variable(side) {
        Some(var) => {
            push_equal(alloc, var, other, goals)?;
            Ok(())
        }
        None => Ok(()),
    }
}

/// Adds the goals of the two sides of an `=`.
fn add_sides<'a>(
    alloc: Global,
    relation: Relation,
    left: &'a Expr,
    right: &'a Expr,
    goals: &mut Vec<Goal<'a>>,
) -> Result<(), Memory>
    ensures { OnOk result (all_said goals.new.items ≡ all_said goals.old.items ++ sides_said left.now right.now relation) }
{
    match relation {
        Relation::Equal => {
            add_side(alloc, left, right, goals)?;
            add_side(alloc, right, left, goals)?;
            Ok(())
        }
        Relation::Unequal => Ok(()),
        Relation::Less => Ok(()),
        Relation::LessEqual => Ok(()),
        Relation::Greater => Ok(()),
        Relation::GreaterEqual => Ok(()),
    }
}

/// Adds the goals of an equation: each side that is a variable has the value of the other side.
pub fn add_equation<'a>(
    alloc: Global,
    item: &'a LitItem,
    goals: &mut Vec<Goal<'a>>,
) -> Result<(), Memory>
    ensures { OnOk result (all_said goals.new.items ≡ all_said goals.old.items ++ equation_said item.now) }
{
    match item {
        LitItem::Atom(_) => Ok(()),
        LitItem::Tel(_) => Ok(()),
        LitItem::Compare(relation, left, right) => {
            add_sides(alloc, *relation, left, right, goals)?;
            Ok(())
        }
    }
}

/// Adds the goal that a comparison holds.
fn push_comparison<'a>(
    alloc: Global,
    relation: Relation,
    left: &'a Expr,
    right: &'a Expr,
    goals: &mut Vec<Goal<'a>>,
) -> Result<(), Memory>
    ensures { OnOk result (all_said goals.new.items ≡ all_said goals.old.items ++ Compare relation left.now right.now (vars_of left.now ++ vars_of right.now) ∷ []) }
{
    let mut reads = Items::new(alloc);
    collect_variables(left, &mut reads)?;
    collect_variables(right, &mut reads)?;
    push_goal(goals, Goal::Compare(relation, left, right, reads))?;
    Ok(())
}

/// Adds the goal of a comparison, where the item is one.
pub fn add_comparison<'a>(
    alloc: Global,
    item: &'a LitItem,
    goals: &mut Vec<Goal<'a>>,
) -> Result<(), Memory>
    ensures { OnOk result (all_said goals.new.items ≡ all_said goals.old.items ++ comparison_said item.now) }
{
    match item {
        LitItem::Atom(_) => Ok(()),
        LitItem::Tel(_) => Ok(()),
        LitItem::Compare(relation, left, right) => {
            push_comparison(alloc, *relation, left, right, goals)?;
            Ok(())
        }
    }
}
