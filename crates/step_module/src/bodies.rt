//! Where instances stand, and their bodies there.

ghost use Rattle.std.specs.Prelude.{◌≡◌, ◌≤◌, ◌++◌, IsTrue, IfOk, OnOk};
ghost use Rattle.std.specs.List.{list_all};
ghost use Rattle.tel_rule.specs.Ground.{literal_in_range};
ghost use Rattle.step_module.specs.Bodies.{part_stands, literal_stands, stands, literal_lits, body_lits};

use atom_space::AtomSpace;
use sqlite_items::Items;
use std::alloc::Global;
use tel_base::{Lit, Memory};
use tel_rule::{BodyItem, BodyLit, Instance, Part};

fn part_is_at(part: Part, t: u32) -> bool
    ensures { result ≡ part_stands part t }
{
    match part {
        Part::Initial => t == 0,
        Part::Dynamic => t > 0,
        Part::Always => true,
        Part::Final => true,
    }
}

fn literal_is_at(literal: BodyLit, t: u32) -> bool
    ensures { result ≡ literal_stands t literal }
{
    match literal.item {
        BodyItem::Atom(_) => true,
        BodyItem::Before(_) => !literal.positive || t > 0,
        BodyItem::Node(_) => true,
    }
}

fn literals_are_at(body: &[BodyLit], t: u32) -> bool
    ensures { result ≡ list_all (literal_stands t) body.now }
{
    for literal in body {
        if !literal_is_at(*literal, t) {
            return false;
        }
    }
    true
}

/// Whether an instance stands at a state.
pub fn is_at(instance: &Instance, t: u32) -> bool
    ensures { result ≡ stands t instance.now }
{
    part_is_at(instance.part, t) && literals_are_at(instance.body.as_slice(), t)
}

/// Puts what a literal of a body is at a state behind others: a literal, or none.
fn add_literal(
    lits: &mut Items<Lit>,
    space: &AtomSpace,
    literal: BodyLit,
    t: u32,
) -> Result<(), Memory>
    requires in_range { IsTrue (literal_in_range space.now.counts.atoms space.now.counts.nodes literal) }
    requires state { t ≤ space.now.greatest }
    ensures { OnOk result (lits.new ≡ lits.old ++ literal_lits space.now.counts t literal) }
{
    let positive = literal.positive;
    match literal.item {
        BodyItem::Atom(atom) => lits.push(Lit {
            var: space.visible(atom, t),
            positive,
        })?,
        BodyItem::Before(atom) => {
            if t > 0 {
                lits.push(Lit {
                    var: space.visible(atom, t - 1),
                    positive,
                })?
            }
        }
        BodyItem::Node(node) => lits.push(Lit {
            var: space.part(node, t),
            positive,
        })?,
    }
    Ok(())
}

/// The body of an instance at a state.
pub fn body_at(
    alloc: Global,
    space: &AtomSpace,
    instance: &Instance,
    t: u32,
) -> Result<Items<Lit>, Memory>
    requires in_range { IsTrue (list_all (literal_in_range space.now.counts.atoms space.now.counts.nodes) instance.now.body) }
    requires state { t ≤ space.now.greatest }
    ensures { IfOk result (λ lits. lits ≡ body_lits space.now.counts t instance.now) }
{
    let mut lits = Items::new(alloc);
    for literal in instance.body.as_slice() {
        add_literal(&mut lits, space, *literal, t)?;
    }
    if instance.part == Part::Final {
        lits.push(Lit::of(space.end(t)))?;
    }
    Ok(lits)
}
