//! The shapes of nodes.

ghost use Rattle.std.specs.Prelude.{◌≡◌, ◌<◌, length, IsTrue, IfOk};
ghost use Rattle.std.specs.List.{list_all};
ghost use Rattle.tel_rule.specs.Nodes.{kid_in_range, takes_kids};
ghost use Rattle.formula_unfold.specs.Unfold.{op_shape};
ghost use Rattle.formula_unfold.specs.Nodes.{counts_of, node_at};

use crate::operators::{binary, constant, kids_at, unary};
use atom_space::AtomSpace;
use normal_program::{NodeRule, Shape};
use std::alloc::Global;
use tel_base::Memory;
use tel_rule::{Kid, ManyOp, NodeOp, Template};

/// The shape of a node with this operator and these children.
fn shape_of(
    alloc: Global,
    space: &AtomSpace,
    op: NodeOp,
    kids: &[Kid],
    node: u32,
    t: u32,
) -> Result<Shape, Memory>
    requires count { IsTrue (takes_kids op (length kids.now)) }
    requires in_range { IsTrue (list_all (kid_in_range space.now.counts.atoms space.now.counts.nodes) kids.now) }
    requires node { node < space.now.counts.nodes }
    requires state { t < space.now.greatest }
    ensures { IfOk result (λ shape. shape ≡ op_shape space.now.counts op kids.now node t) }
{
    match op {
        NodeOp::Const(op) => Ok(constant(space, op, t)),
        NodeOp::Unary(op) => unary(alloc, space, op, kids[0], node, t),
        NodeOp::Binary(op) => binary(alloc, space, op, kids[0], kids[1], node, t),
        NodeOp::Many(ManyOp::And) => Ok(Shape::All(kids_at(alloc, space, kids, t)?)),
        NodeOp::Many(ManyOp::Or) => Ok(Shape::Any(kids_at(alloc, space, kids, t)?)),
    }
}

/// The variable of a node of a program at a state, and what it hangs on there.
pub fn unfold(
    alloc: Global,
    template: &Template,
    space: &AtomSpace,
    node: u32,
    t: u32,
) -> Result<NodeRule, Memory>
    requires node { node < length template.now.nodes }
    requires state { t < space.now.greatest }
    requires counts { space.now.counts ≡ counts_of template.now }
    ensures { IfOk result (λ rule. rule ≡ node_at template.now t node) }
{
    let found = &template.nodes.as_slice()[node as usize];
    let shape = shape_of(alloc, space, found.op, found.kids.as_slice(), node, t)?;
    Ok(NodeRule {
        var: space.part(node, t),
        shape,
    })
}
