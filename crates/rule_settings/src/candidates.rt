//! The candidates of a body: each side of an `=` that is a variable, with the other side.
ghost use Rattle.std.specs.Prelude.{◌≡◌, ◌++◌, ◌∷◌, [], IfOk, OnOk};
ghost use Rattle.rule_binding.specs.Binding.{whole_var};
ghost use Rattle.rule_settings.specs.Said.{said, all_said};
ghost use Rattle.rule_settings.specs.Candidates.{side_candidates, relation_candidates, item_candidates, body_candidates};

use rule_binding::whole_variable;
use std::alloc::Global;
use tel_base::Memory;
use tel_rule::{LitItem, Literal, Relation};
use tel_term::Expr;

/// A setting equation: the variable that it binds, by its number, and the other side, whose value the
/// variable gets.
#[derive(Clone, Copy)]
pub struct Setting<'a> {
    pub var: u32,
    pub value: &'a Expr,
}

/// Adds a setting.
#[tactic(auto, using(crate::proofs::Pushed::one_more))]
pub fn push_setting<'a>(settings: &mut Vec<Setting<'a>>, setting: Setting<'a>) -> Result<(), Memory>
    ensures { OnOk result (all_said settings.new.items ≡ all_said settings.old.items ++ said setting.entry ∷ []) }
{
    settings.push(setting)?;
    Ok(())
}

/// Adds the candidate of a side that is a variable: the other side sets it.
fn add_side<'a>(
    side: &Expr,
    other: &'a Expr,
    candidates: &mut Vec<Setting<'a>>,
) -> Result<(), Memory>
    ensures { OnOk result (all_said candidates.new.items ≡ all_said candidates.old.items ++ side_candidates other.now (whole_var side.now)) }
{
    match whole_variable(side) {
        Some(var) => {
            push_setting(candidates, Setting { var, value: other })?;
            Ok(())
        }
        None => Ok(()),
    }
}

/// Adds the candidates of a comparison: those of its two sides where it is an `=`, the left one first.
fn add_sides<'a>(
    relation: Relation,
    left: &'a Expr,
    right: &'a Expr,
    candidates: &mut Vec<Setting<'a>>,
) -> Result<(), Memory>
    ensures { OnOk result (all_said candidates.new.items ≡ all_said candidates.old.items ++ relation_candidates left.now right.now relation) }
{
    match relation {
        Relation::Equal => {
            add_side(left, right, candidates)?;
            add_side(right, left, candidates)?;
            Ok(())
        }
        Relation::Unequal => Ok(()),
        Relation::Less => Ok(()),
        Relation::LessEqual => Ok(()),
        Relation::Greater => Ok(()),
        Relation::GreaterEqual => Ok(()),
    }
}

/// Adds the candidates of a literal.
fn add_item<'a>(item: &'a LitItem, candidates: &mut Vec<Setting<'a>>) -> Result<(), Memory>
    ensures { OnOk result (all_said candidates.new.items ≡ all_said candidates.old.items ++ item_candidates item.now) }
{
    match item {
        LitItem::Atom(_) => Ok(()),
        LitItem::Tel(_) => Ok(()),
        LitItem::Compare(relation, left, right) => {
            add_sides(*relation, left, right, candidates)?;
            Ok(())
        }
    }
}

/// The candidates of a body, from left to right.
pub fn find_candidates<'a>(alloc: Global, body: &'a [Literal]) -> Result<Vec<Setting<'a>>, Memory>
    ensures { IfOk result (λ found. all_said found.items ≡ body_candidates body.now) }
{
    let mut found = Vec::new(alloc);
    for literal in body {
        add_item(&literal.item, &mut found)?;
    }
    Ok(found)
}
