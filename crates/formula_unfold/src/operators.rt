//! The shapes of operators.

ghost use Rattle.std.specs.Prelude.{◌≡◌, ◌<◌, ◌≤◌, ◌-◌, [], ◌∷◌, map, IsTrue, IfOk};
ghost use Rattle.std.specs.List.{list_all};
ghost use Rattle.tel_base.specs.Literals.{lit_of};
ghost use Rattle.tel_rule.specs.Nodes.{kid_in_range};
ghost use Rattle.normal_program.specs.declared.shapes.Shape.TheVariants as shapes;
ghost use Rattle.atom_space.specs.Numbers.{part, end_at};
ghost use Rattle.formula_unfold.specs.Unfold.{kid_var, by_state, const_shape, unary_shape, binary_shape};

use atom_space::AtomSpace;
use normal_program::Shape;
use sqlite_items::Items;
use std::alloc::Global;
use tel_base::{Lit, Memory};
use tel_rule::{BinaryOp, ConstOp, Kid, UnaryOp};

/// A child at a state.
fn kid_at(space: &AtomSpace, kid: Kid, t: u32) -> Lit
    requires in_range { IsTrue (kid_in_range space.now.counts.atoms space.now.counts.nodes kid) }
    requires state { t ≤ space.now.greatest }
    ensures { result ≡ lit_of (kid_var space.now.counts kid t) }
{
    match kid {
        Kid::Atom(atom) => Lit::of(space.visible(atom, t)),
        Kid::Node(node) => Lit::of(space.part(node, t)),
    }
}

/// The children at a state, in order.
pub fn kids_at(alloc: Global, space: &AtomSpace, kids: &[Kid], t: u32) -> Result<Items<Lit>, Memory>
    requires in_range { IsTrue (list_all (kid_in_range space.now.counts.atoms space.now.counts.nodes) kids.now) }
    requires state { t ≤ space.now.greatest }
    ensures { IfOk result (λ lits. lits ≡ map (λ kid. lit_of (kid_var space.now.counts kid t)) kids.now) }
{
    let mut lits = Items::new(alloc);
    for kid in kids {
        lits.push(kid_at(space, *kid, t))?;
    }
    Ok(lits)
}

fn two(alloc: Global, first: Lit, second: Lit) -> Result<Items<Lit>, Memory>
    ensures { IfOk result (λ lits. lits ≡ first ∷ second ∷ []) }
{
    let mut lits = Items::new(alloc);
    lits.push(first)?;
    lits.push(second)?;
    Ok(lits)
}

fn three(alloc: Global, first: Lit, second: Lit, third: Lit) -> Result<Items<Lit>, Memory>
    ensures { IfOk result (λ lits. lits ≡ first ∷ second ∷ third ∷ []) }
{
    let mut lits = two(alloc, first, second)?;
    lits.push(third)?;
    Ok(lits)
}

/// The shape of a constant.
pub fn constant(space: &AtomSpace, op: ConstOp, t: u32) -> Shape
    requires state { t ≤ space.now.greatest }
    ensures { result ≡ const_shape op (end_at space.now.counts t) t }
{
    match op {
        ConstOp::True => Shape::True,
        ConstOp::False => Shape::False,
        ConstOp::Initial => { if t == 0 { Shape::True } else { Shape::False } }
        ConstOp::Final => Shape::Is(Lit::of(space.end(t))),
    }
}

/// The child one state before, and another shape at the first state.
fn one_before(space: &AtomSpace, kid: Kid, t: u32, first: Shape) -> Shape
    requires in_range { IsTrue (kid_in_range space.now.counts.atoms space.now.counts.nodes kid) }
    requires state { t ≤ space.now.greatest }
    ensures { result ≡ by_state t first (shapes.Is (lit_of (kid_var space.now.counts kid (t - 1)))) }
{
    if t == 0 {
        first
    } else {
        Shape::Is(kid_at(space, kid, t - 1))
    }
}

/// The child now and the node itself one state before.
fn with_before(
    alloc: Global,
    space: &AtomSpace,
    kid: Lit,
    node: u32,
    t: u32,
) -> Result<Items<Lit>, Memory>
    requires node { node < space.now.counts.nodes }
    requires later { 0 < t }
    requires state { t ≤ space.now.greatest }
    ensures { IfOk result (λ lits. lits ≡ kid ∷ lit_of (part space.now.counts node (t - 1)) ∷ []) }
{
    two(alloc, kid, Lit::of(space.part(node, t - 1)))
}

/// The shape of an operator of one child.
pub fn unary(
    alloc: Global,
    space: &AtomSpace,
    op: UnaryOp,
    kid: Kid,
    node: u32,
    t: u32,
) -> Result<Shape, Memory>
    requires in_range { IsTrue (kid_in_range space.now.counts.atoms space.now.counts.nodes kid) }
    requires node { node < space.now.counts.nodes }
    requires state { t < space.now.greatest }
    ensures { IfOk result (λ shape. shape ≡ unary_shape op (kid_var space.now.counts kid) (part space.now.counts node) (end_at space.now.counts t) t) }
{
    let _greatest = space.greatest;
    let f = kid_at(space, kid, t);
    let next_f = kid_at(space, kid, t + 1);
    let next_own = Lit::of(space.part(node, t + 1));
    let end = Lit::of(space.end(t));
    match op {
        UnaryOp::Not => Ok(Shape::Is(f.negated())),
        UnaryOp::Previous => Ok(one_before(space, kid, t, Shape::False)),
        UnaryOp::WeakPrevious => Ok(one_before(space, kid, t, Shape::True)),
        UnaryOp::Initially => Ok(one_before(space, Kid::Node(node), t, Shape::Is(f))),
        UnaryOp::AlwaysBefore if t > 0 => Ok(Shape::All(with_before(alloc, space, f, node, t)?)),
        UnaryOp::OnceBefore if t > 0 => Ok(Shape::Any(with_before(alloc, space, f, node, t)?)),
        UnaryOp::AlwaysBefore | UnaryOp::OnceBefore => Ok(Shape::Is(f)),
        UnaryOp::Next => Ok(Shape::Is(next_f)),
        UnaryOp::WeakNext => Ok(Shape::Any(two(alloc, end, next_f)?)),
        UnaryOp::AlwaysAfter => Ok(Shape::AllAny(f, two(alloc, end, next_own)?)),
        UnaryOp::OnceAfter => Ok(Shape::Any(two(alloc, f, next_own)?)),
        UnaryOp::Finally => Ok(Shape::AnyAll(next_own, f, end)),
    }
}

/// The shape of an operator of two children.
pub fn binary(
    alloc: Global,
    space: &AtomSpace,
    op: BinaryOp,
    left: Kid,
    right: Kid,
    node: u32,
    t: u32,
) -> Result<Shape, Memory>
    requires left { IsTrue (kid_in_range space.now.counts.atoms space.now.counts.nodes left) }
    requires right { IsTrue (kid_in_range space.now.counts.atoms space.now.counts.nodes right) }
    requires node { node < space.now.counts.nodes }
    requires state { t < space.now.greatest }
    ensures { IfOk result (λ shape. shape ≡ binary_shape op (kid_var space.now.counts left) (kid_var space.now.counts right) (part space.now.counts node) (end_at space.now.counts t) t) }
{
    let _greatest = space.greatest;
    let f = kid_at(space, left, t);
    let g = kid_at(space, right, t);
    let next_own = Lit::of(space.part(node, t + 1));
    match op {
        BinaryOp::Since if t > 0 => Ok(Shape::AnyAll(g, f, Lit::of(space.part(node, t - 1)))),
        BinaryOp::Trigger if t > 0 => Ok(Shape::AllAny(g, with_before(alloc, space, f, node, t)?)),
        BinaryOp::Since | BinaryOp::Trigger => Ok(Shape::Is(g)),
        BinaryOp::Until => Ok(Shape::AnyAll(g, f, next_own)),
        BinaryOp::Release => {
            let end = Lit::of(space.end(t));
            Ok(Shape::AllAny(g, three(alloc, f, end, next_own)?))
        }
        BinaryOp::Implies => Ok(Shape::Any(two(alloc, f.negated(), g)?)),
        BinaryOp::ImpliedBy => Ok(Shape::Any(two(alloc, f, g.negated())?)),
        BinaryOp::Same => Ok(Shape::Same(f, g)),
    }
}
