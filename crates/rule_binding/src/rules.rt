//! The rules of binding of a body.

ghost use Rattle.std.specs.Prelude.{◌≡◌, ◌++◌, IfOk, OnOk};
ghost use Rattle.rule_binding.specs.Binding.{is_table_atom};
ghost use Rattle.rule_binding.specs.Heads.{tells};
ghost use Rattle.rule_binding.specs.Rules.{args_rules, side_rules, compare_rules, item_rules, body_rules};

use crate::tables::Tables;
use crate::variables::{collect_variables, whole_variable};
use sqlite_items::Items;
use std::alloc::Global;
use tel_base::Memory;
use tel_rule::{Atom, LitItem, Literal, Relation};
use tel_term::Expr;

/// A rule of binding: its variable is bound where all are that it needs.
#[derive(Drop)]
pub struct BindingRule {
    pub var: u32,
    pub needs: Items<u32>,
}

/// Adds a rule that needs nothing for each whole argument that is a variable.
fn add_args(alloc: Global, args: &[Expr], rules: &mut Items<BindingRule>) -> Result<(), Memory>
    ensures { OnOk result (rules.new ≡ rules.old ++ args_rules args.now) }
{
    for arg in args {
        if let Some(var) = whole_variable(arg) {
            rules.push(BindingRule {
                var,
                needs: Items::new(alloc),
            })?;
        }
    }
    Ok(())
}

/// Adds the rule of a side that is a variable: it is bound where the other side is.
fn add_side(
    alloc: Global,
    side: &Expr,
    other: &Expr,
    rules: &mut Items<BindingRule>,
) -> Result<(), Memory>
    ensures { OnOk result (rules.new ≡ rules.old ++ side_rules side.now other.now) }
{
    if let Some(var) = whole_variable(side) {
        let mut needs = Items::new(alloc);
        collect_variables(other, &mut needs)?;
        rules.push(BindingRule { var, needs })?;
    }
    Ok(())
}

/// Adds the rules of a comparison: those of its two sides where it is an `=`.
fn add_comparison(
    alloc: Global,
    relation: Relation,
    left: &Expr,
    right: &Expr,
    rules: &mut Items<BindingRule>,
) -> Result<(), Memory>
    ensures { OnOk result (rules.new ≡ rules.old ++ compare_rules left.now right.now relation) }
{
    match relation {
        Relation::Equal => {
            add_side(alloc, left, right, rules)?;
            add_side(alloc, right, left, rules)
        }
        Relation::Unequal => Ok(()),
        Relation::Less => Ok(()),
        Relation::LessEqual => Ok(()),
        Relation::Greater => Ok(()),
        Relation::GreaterEqual => Ok(()),
    }
}

/// Whether an atom behind so many `not` is a positive unprimed one of a table.
fn is_table_atom(tables: &Tables, nots: u32, atom: &Atom) -> bool
    ensures { result ≡ is_table_atom (tells tables.now) nots atom.now }
{
    nots == 0 && atom.before == 0 && atom.after == 0 && tables.has_atom(atom)
}

/// Adds the rules of a literal.
fn add_literal(
    alloc: Global,
    tables: &Tables,
    literal: &Literal,
    rules: &mut Items<BindingRule>,
) -> Result<(), Memory>
    ensures { OnOk result (rules.new ≡ rules.old ++ item_rules (tells tables.now) literal.now.nots literal.now.item) }
{
    match &literal.item {
        LitItem::Atom(atom) => {
            if is_table_atom(tables, literal.nots, atom) {
                add_args(alloc, atom.args.as_slice(), rules)?;
            }
            Ok(())
        }
        LitItem::Tel(_) => Ok(()),
        LitItem::Compare(relation, left, right) => {
            add_comparison(alloc, *relation, left, right, rules)
        }
    }
}

/// The rules of binding of a body, from left to right.
pub fn body_rules(
    alloc: Global,
    tables: &Tables,
    body: &[Literal],
) -> Result<Items<BindingRule>, Memory>
    ensures { IfOk result (λ rules. rules ≡ body_rules (tells tables.now) body.now) }
{
    let mut rules = Items::new(alloc);
    for literal in body {
        add_literal(alloc, tables, literal, &mut rules)?;
    }
    Ok(rules)
}
