//! The nodes of formulas.
ghost use Rattle.std.specs.Prelude.{◌≡◌, ◌<◌, ◌++◌, ◌∷◌, [], length, map, slice_set, IfOk, OnOk};
ghost use Rattle.instance_build.specs.Instances.{in_row, grown, atom_grown};

use crate::numbers::AtomNumbers;
use sqlite_items::Items;
use std::alloc::Global;
use tel_base::Memory;
use tel_rule::{Atom, Formula, Kid, Node, NodeOp, UnaryOp};

/// Adds a node whose children are still to come, and gives its number. More nodes than numbers count
/// as want of memory, which they would use up first.
pub fn begin(alloc: Global, nodes: &mut Items<Node>, op: NodeOp) -> Result<u32, Memory>
    ensures number { IfOk result (λ number. number ≡ length nodes.old) }
    ensures nodes { OnOk result (nodes.new ≡ nodes.old ++ record { op = op; kids = [] } ∷ []) }
{
    let Ok(number) = u32::try_from(nodes.len()) else {
        return Err(Memory);
    };
    nodes.push(Node {
        op,
        kids: Items::new(alloc),
    })?;
    Ok(number)
}

/// Gives a node its children.
pub fn finish(nodes: &mut Items<Node>, number: u32, op: NodeOp, kids: Items<Kid>) -> Kid
    requires { number < length nodes.old }
    ensures kid { result ≡ Kid.Node number }
    ensures nodes { nodes.new ≡ slice_set nodes.old number (record { op = op; kids = kids }) }
{
    nodes.set(number as usize, Node { op, kids });
    Kid::Node(number)
}

/// Adds the nodes of a formula, and gives the child that it is.
#[cycle(growing)]
pub fn grow<N: AtomNumbers>(
    alloc: Global,
    numbers: &N,
    nodes: &mut Items<Node>,
    formula: &Formula,
) -> Result<Kid, Memory>
    ensures kid { IfOk result (λ kid. kid ≡ (grown (N.number numbers.now) formula.now (length nodes.old)).0) }
    ensures nodes { OnOk result (nodes.new ≡ nodes.old ++ (grown (N.number numbers.now) formula.now (length nodes.old)).1) }
{
    match formula {
        Formula::Const(op) => {
            let number = begin(alloc, nodes, NodeOp::Const(*op))?;
            Ok(Kid::Node(number))
        }
        Formula::Atom(atom) => Ok(Kid::Atom(numbers.number(atom)?)),
        Formula::Unary(op, operand) => {
            let number = begin(alloc, nodes, NodeOp::Unary(*op))?;
            let kid = grow(alloc, numbers, nodes, operand.get())?;
            let kids = Items::from_slice(alloc, &[kid])?;
            Ok(finish(nodes, number, NodeOp::Unary(*op), kids))
        }
        Formula::Binary(op, left, right) => {
            let number = begin(alloc, nodes, NodeOp::Binary(*op))?;
            let left = grow(alloc, numbers, nodes, left.get())?;
            let right = grow(alloc, numbers, nodes, right.get())?;
            let kids = Items::from_slice(alloc, &[left, right])?;
            Ok(finish(nodes, number, NodeOp::Binary(*op), kids))
        }
        Formula::Many(op, operands) => {
            let number = begin(alloc, nodes, NodeOp::Many(*op))?;
            let kids = grow_all(alloc, numbers, nodes, operands.as_slice())?;
            Ok(finish(nodes, number, NodeOp::Many(*op), kids))
        }
    }
}

/// Adds the nodes of these formulas one after another, and gives the children that they are.
#[cycle(growing)]
fn grow_all<N: AtomNumbers>(
    alloc: Global,
    numbers: &N,
    nodes: &mut Items<Node>,
    formulas: &[Formula],
) -> Result<Items<Kid>, Memory>
    ensures kids { IfOk result (λ kids. kids ≡ (in_row (map (grown (N.number numbers.now)) formulas.now) (length nodes.old)).0) }
    ensures nodes { OnOk result (nodes.new ≡ nodes.old ++ (in_row (map (grown (N.number numbers.now)) formulas.now) (length nodes.old)).1) }
{
    let mut kids = Items::new(alloc);
    for formula in formulas {
        kids.push(grow(alloc, numbers, nodes, formula)?)?;
    }
    Ok(kids)
}

/// Adds the node of an atom of a body, where it looks one instant before, and gives the child that it is.
pub fn grow_atom<N: AtomNumbers>(
    alloc: Global,
    numbers: &N,
    nodes: &mut Items<Node>,
    atom: &Atom,
) -> Result<Kid, Memory>
    ensures kid { IfOk result (λ kid. kid ≡ (atom_grown (N.number numbers.now) atom.now (length nodes.old)).0) }
    ensures nodes { OnOk result (nodes.new ≡ nodes.old ++ (atom_grown (N.number numbers.now) atom.now (length nodes.old)).1) }
{
    let found = numbers.number(atom)?;
    let kid = Kid::Atom(found);
    if atom.before > 0 {
        let op = NodeOp::Unary(UnaryOp::Previous);
        let number = begin(alloc, nodes, op)?;
        let kids = Items::from_slice(alloc, &[kid])?;
        Ok(finish(nodes, number, op, kids))
    } else {
        Ok(kid)
    }
}
