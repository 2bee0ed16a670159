//! The literals of bodies.
ghost use Rattle.std.specs.Prelude.{◌≡◌, ◌++◌, ◌<◌, ◌≤◌, length, IfOk, OnOk};
ghost use Rattle.instance_build.specs.Instances.{grown, atom_grown, kid_item, atom_item, once, not_node, twice, ground_literal, ground_body};

use crate::growing::{begin, finish, grow, grow_atom};
use crate::numbers::AtomNumbers;
use sqlite_items::Items;
use std::alloc::Global;
use tel_base::Memory;
use tel_rule::{Atom, BodyItem, BodyLit, Formula, Kid, LitItem, Literal, Node, NodeOp, UnaryOp};

/// What a literal looks at, where it looks at this child.
fn kid_item(kid: Kid) -> BodyItem
    ensures { result ≡ kid_item kid }
{
    match kid {
        Kid::Atom(atom) => BodyItem::Atom(atom),
        Kid::Node(node) => BodyItem::Node(node),
    }
}

/// What an atom of a body looks at.
fn atom_item<N: AtomNumbers>(numbers: &N, atom: &Atom) -> Result<BodyItem, Memory>
    ensures { IfOk result (λ item. item ≡ atom_item (N.number numbers.now) atom.now) }
{
    let number = numbers.number(atom)?;
    if atom.before > 0 {
        Ok(BodyItem::Before(number))
    } else {
        Ok(BodyItem::Atom(number))
    }
}

/// Adds a literal with at most one `not` to a body.
fn push_once<N: AtomNumbers>(
    alloc: Global,
    numbers: &N,
    nodes: &mut Items<Node>,
    literals: &mut Items<BodyLit>,
    positive: bool,
    item: &LitItem,
) -> Result<(), Memory>
    ensures literals { OnOk result (literals.new ≡ literals.old ++ (once (N.number numbers.now) positive item.now (length nodes.old)).0) }
    ensures nodes { OnOk result (nodes.new ≡ nodes.old ++ (once (N.number numbers.now) positive item.now (length nodes.old)).1) }
{
    match item {
        LitItem::Atom(atom) => {
            let item = atom_item(numbers, atom)?;
            literals.push(BodyLit { positive, item })?;
            Ok(())
        }
        LitItem::Tel(formula) => {
            let item = kid_item(grow(alloc, numbers, nodes, formula)?);
            literals.push(BodyLit { positive, item })?;
            Ok(())
        }
        LitItem::Compare(..) => Ok(()),
    }
}

/// Adds `not` of a node `~` over an atom of a body.
fn push_not_atom<N: AtomNumbers>(
    alloc: Global,
    numbers: &N,
    nodes: &mut Items<Node>,
    literals: &mut Items<BodyLit>,
    atom: &Atom,
) -> Result<(), Memory>
    ensures literals { OnOk result (literals.new ≡ literals.old ++ (not_node (atom_grown (N.number numbers.now) atom.now) (length nodes.old)).0) }
    ensures nodes { OnOk result (nodes.new ≡ nodes.old ++ (not_node (atom_grown (N.number numbers.now) atom.now) (length nodes.old)).1) }
{
    let op = NodeOp::Unary(UnaryOp::Not);
    let number = begin(alloc, nodes, op)?;
    let kid = grow_atom(alloc, numbers, nodes, atom)?;
    let kids = Items::from_slice(alloc, &[kid])?;
    let item = kid_item(finish(nodes, number, op, kids));
    literals.push(BodyLit {
        positive: false,
        item,
    })?;
    Ok(())
}

/// Adds `not` of a node `~` over a formula.
fn push_not_formula<N: AtomNumbers>(
    alloc: Global,
    numbers: &N,
    nodes: &mut Items<Node>,
    literals: &mut Items<BodyLit>,
    formula: &Formula,
) -> Result<(), Memory>
    ensures literals { OnOk result (literals.new ≡ literals.old ++ (not_node (grown (N.number numbers.now) formula.now) (length nodes.old)).0) }
    ensures nodes { OnOk result (nodes.new ≡ nodes.old ++ (not_node (grown (N.number numbers.now) formula.now) (length nodes.old)).1) }
{
    let op = NodeOp::Unary(UnaryOp::Not);
    let number = begin(alloc, nodes, op)?;
    let kid = grow(alloc, numbers, nodes, formula)?;
    let kids = Items::from_slice(alloc, &[kid])?;
    let item = kid_item(finish(nodes, number, op, kids));
    literals.push(BodyLit {
        positive: false,
        item,
    })?;
    Ok(())
}

/// Adds a literal with two `not` to a body.
fn push_twice<N: AtomNumbers>(
    alloc: Global,
    numbers: &N,
    nodes: &mut Items<Node>,
    literals: &mut Items<BodyLit>,
    item: &LitItem,
) -> Result<(), Memory>
    ensures literals { OnOk result (literals.new ≡ literals.old ++ (twice (N.number numbers.now) item.now (length nodes.old)).0) }
    ensures nodes { OnOk result (nodes.new ≡ nodes.old ++ (twice (N.number numbers.now) item.now (length nodes.old)).1) }
{
    match item {
        LitItem::Atom(atom) => push_not_atom(alloc, numbers, nodes, literals, atom),
        LitItem::Tel(formula) => push_not_formula(alloc, numbers, nodes, literals, formula),
        LitItem::Compare(..) => Ok(()),
    }
}

/// Adds the literal of an instance that a literal is.
fn push_literal<N: AtomNumbers>(
    alloc: Global,
    numbers: &N,
    nodes: &mut Items<Node>,
    literals: &mut Items<BodyLit>,
    literal: &Literal,
) -> Result<(), Memory>
    ensures literals { OnOk result (literals.new ≡ literals.old ++ (ground_literal (N.number numbers.now) literal.now (length nodes.old)).0) }
    ensures nodes { OnOk result (nodes.new ≡ nodes.old ++ (ground_literal (N.number numbers.now) literal.now (length nodes.old)).1) }
{
    if literal.nots <= 1 {
        push_once(
            alloc,
            numbers,
            nodes,
            literals,
            literal.nots == 0,
            &literal.item,
        )
    } else {
        push_twice(alloc, numbers, nodes, literals, &literal.item)
    }
}

/// The literals of a body.
pub fn ground_body<N: AtomNumbers>(
    alloc: Global,
    numbers: &N,
    nodes: &mut Items<Node>,
    body: &[Literal],
) -> Result<Items<BodyLit>, Memory>
    ensures literals { IfOk result (λ literals. literals ≡ (ground_body (N.number numbers.now) body.now (length nodes.old)).0) }
    ensures nodes { OnOk result (nodes.new ≡ nodes.old ++ (ground_body (N.number numbers.now) body.now (length nodes.old)).1) }
{
    let mut literals = Items::new(alloc);
    for literal in body {
        push_literal(alloc, numbers, nodes, &mut literals, literal)?;
    }
    Ok(literals)
}
