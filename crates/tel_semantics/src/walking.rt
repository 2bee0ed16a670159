//! Whether the formula of a node holds at an instant of an HT-trace: a walk over the node and those
//! below it, which copies nothing.

ghost use Rattle.std.specs.Prelude.{◌≡◌, ℕ, ◌<◌, not, ◌||◌, ◌&&◌, map, length, IsTrue};
ghost use Rattle.std.specs.List.{list_all};
ghost use Rattle.tel_rule.specs.Nodes.{kid_in_range};
ghost use Rattle.tel_semantics.specs.Traces.{test_of};
ghost use Rattle.tel_semantics.specs.Formula.{Arrow, both_arrows};
ghost use Rattle.tel_semantics.specs.NodeFormula.{const_formula, unary_formula, binary_formula, many_formula, node_formula, kid_formula};
ghost use Rattle.tel_semantics.specs.Walking.{seen, holds_in, operand_formula, operand_in_range, IsNodeAt, IsOperationOf, back_formula, on_formula};

use crate::candidates::State;
use tel_rule::{BinaryOp, ConstOp, Kid, ManyOp, NodeOp, Template, UnaryOp};

/// Whether the atom is true at the instant. Past the end of the trace no atom is.
pub fn is_true_at(trace: &[State], k: usize, atom: u32) -> bool
    ensures { result ≡ test_of trace.now k atom }
{
    match trace.get(k) {
        Some(state) => state.as_slice().contains(&atom),
        None => false,
    }
}

/// A world of an HT-trace.
#[derive(Clone, Copy)]
pub enum World {
    Here,
    There,
}

/// An HT-trace, which is the pair of the traces `here` and `there`, both of the length; and the world
/// in which formulas are judged. In the world `There` they are judged in the pair of `there` and itself.
#[derive(Clone, Copy)]
pub struct HtTrace<'a> {
    pub length: usize,
    pub here: &'a [State],
    pub there: &'a [State],
    pub world: World,
}

/// What an operator looks at: a constant, or a child of its node.
#[derive(Clone, Copy)]
pub enum Operand {
    Constant(bool),
    Child(Kid),
}

/// The operator of a node with the children that it is applied to.
#[derive(Clone, Copy)]
enum Operation<'a> {
    Const(ConstOp),
    Unary(UnaryOp, Kid),
    Binary(BinaryOp, Kid, Kid),
    And(&'a [Kid]),
    Or(&'a [Kid]),
}

/// The operator of a node, and its children.
fn node_of(template: &Template, node: u32) -> (NodeOp, &[Kid])
    requires { node < length template.now.nodes }
    ensures { IsNodeAt template.now node result.0 result.1.now }
{
    let found = &template.nodes.as_slice()[node as usize];
    (found.op, found.kids.as_slice())
}

/// The operation of a node.
fn operation_of(template: &Template, node: u32) -> Operation<'_>
    requires { node < length template.now.nodes }
    ensures { IsOperationOf template.now node result }
{
    let (op, kids) = node_of(template, node);
    match op {
        NodeOp::Const(op) => Operation::Const(op),
        NodeOp::Unary(op) => Operation::Unary(op, kids[0]),
        NodeOp::Binary(op) => Operation::Binary(op, kids[0], kids[1]),
        NodeOp::Many(op) => match op {
            ManyOp::And => Operation::And(kids),
            ManyOp::Or => Operation::Or(kids),
        },
    }
}

impl<'a> HtTrace<'a> {
    /// The same pair, judged in the world `There`.
    pub fn total(&self) -> HtTrace<'a>
        ensures length { result.length ≡ self.now.length }
        ensures here { result.here.now ≡ self.now.here.now }
        ensures there { result.there.now ≡ self.now.there.now }
        ensures world { result.world ≡ World.There }
    {
        HtTrace {
            length: self.length,
            here: self.here,
            there: self.there,
            world: World::There,
        }
    }

    /// The trace of the world.
    fn trace(&self) -> &'a [State]
        ensures { result.now ≡ seen self.now.world self.now.here.now self.now.there.now }
    {
        match self.world {
            World::Here => self.here,
            World::There => self.there,
        }
    }

    /// Whether the atom is true at the instant, in this world.
    pub fn has(&self, atom: u32, k: usize) -> bool
        ensures { result ≡ test_of (seen self.now.world self.now.here.now self.now.there.now) k atom }
    {
        is_true_at(self.trace(), k, atom)
    }

    fn constant_holds(&self, op: ConstOp, k: usize) -> bool
        requires { k < self.now.length }
        ensures { result ≡ holds_in self.now (const_formula op) k }
    {
        let length = self.length;
        match op {
            ConstOp::True => true,
            ConstOp::False => false,
            ConstOp::Initial => k == 0,
            ConstOp::Final => k + 1 == length,
        }
    }

    /// Whether a child holds at the instant.
    #[cycle(walk)]
    pub fn holds(&self, template: &Template, operand: Operand, k: usize) -> bool
        requires within { k < self.now.length }
        requires in_range { IsTrue (operand_in_range template.now operand) }
        ensures { result ≡ holds_in self.now (operand_formula template.now.nodes operand) k }
    {
        match operand {
            Operand::Constant(value) => value,
            Operand::Child(Kid::Atom(atom)) => self.has(atom, k),
            Operand::Child(Kid::Node(node)) => self.node_holds(template, node, k),
        }
    }

    /// Whether the formula of a node holds at the instant.
    #[cycle(walk)]
    pub fn node_holds(&self, template: &Template, node: u32, k: usize) -> bool
        requires within { k < self.now.length }
        requires in_range { node < length template.now.nodes }
        ensures { result ≡ holds_in self.now (node_formula template.now.nodes node) k }
    {
        match operation_of(template, node) {
            Operation::Const(op) => self.constant_holds(op, k),
            Operation::Unary(op, kid) => self.unary_holds(template, op, kid, k),
            Operation::Binary(op, first, second) => self.binary_holds(
                template, op, first, second, k,
            ),
            Operation::And(kids) => self.all_hold(template, kids, k),
            Operation::Or(kids) => self.some_holds(template, kids, k),
        }
    }

    #[cycle(walk)]
    fn unary_holds(&self, template: &Template, op: UnaryOp, kid: Kid, k: usize) -> bool
        requires within { k < self.now.length }
        requires in_range { IsTrue (kid_in_range (length template.now.atoms) (length template.now.nodes) kid) }
        ensures { result ≡ holds_in self.now (unary_formula op (kid_formula template.now.nodes kid)) k }
    {
        let length = self.length;
        let child = Operand::Child(kid);
        let truth = Operand::Constant(true);
        let falsity = Operand::Constant(false);
        match op {
            UnaryOp::Not => self.arrow_holds(template, child, falsity, k),
            UnaryOp::Previous => k > 0 && self.holds(template, child, k - 1),
            UnaryOp::WeakPrevious => k == 0 || self.holds(template, child, k - 1),
            UnaryOp::AlwaysBefore => self.back_holds(template, false, falsity, child, k),
            UnaryOp::OnceBefore => self.back_holds(template, true, truth, child, k),
            UnaryOp::Initially => self.holds(template, child, 0),
            UnaryOp::Next => k + 1 < length && self.holds(template, child, k + 1),
            UnaryOp::WeakNext => k + 1 == length || self.holds(template, child, k + 1),
            UnaryOp::AlwaysAfter => self.on_holds(template, false, falsity, child, k),
            UnaryOp::OnceAfter => self.on_holds(template, true, truth, child, k),
            UnaryOp::Finally => self.holds(template, child, length - 1),
        }
    }

    #[cycle(walk)]
    fn binary_holds(
        &self,
        template: &Template,
        op: BinaryOp,
        first: Kid,
        second: Kid,
        k: usize,
    ) -> bool
        requires within { k < self.now.length }
        requires first { IsTrue (kid_in_range (length template.now.atoms) (length template.now.nodes) first) }
        requires second { IsTrue (kid_in_range (length template.now.atoms) (length template.now.nodes) second) }
        ensures { result ≡ holds_in self.now (binary_formula op (kid_formula template.now.nodes first)
            (kid_formula template.now.nodes second)) k }
    {
        let left = Operand::Child(first);
        let right = Operand::Child(second);
        match op {
            BinaryOp::Since => self.back_holds(template, true, left, right, k),
            BinaryOp::Trigger => self.back_holds(template, false, left, right, k),
            BinaryOp::Until => self.on_holds(template, true, left, right, k),
            BinaryOp::Release => self.on_holds(template, false, left, right, k),
            BinaryOp::Implies => self.arrow_holds(template, left, right, k),
            BinaryOp::ImpliedBy => self.arrow_holds(template, right, left, k),
            BinaryOp::Same => self.same_holds(template, left, right, k),
        }
    }

    /// Whether all these children hold.
    #[cycle(walk)]
    fn all_hold(&self, template: &Template, kids: &[Kid], k: usize) -> bool
        requires within { k < self.now.length }
        requires in_range { IsTrue (list_all (kid_in_range (length template.now.atoms) (length template.now.nodes)) kids.now) }
        ensures { result ≡ holds_in self.now (many_formula ManyOp.And (map (kid_formula template.now.nodes) kids.now)) k }
    {
        for kid in kids {
            if !self.holds(template, Operand::Child(*kid), k) {
                return false;
            }
        }
        true
    }

    /// Whether some of these children holds.
    #[cycle(walk)]
    fn some_holds(&self, template: &Template, kids: &[Kid], k: usize) -> bool
        requires within { k < self.now.length }
        requires in_range { IsTrue (list_all (kid_in_range (length template.now.atoms) (length template.now.nodes)) kids.now) }
        ensures { result ≡ holds_in self.now (many_formula ManyOp.Or (map (kid_formula template.now.nodes) kids.now)) k }
    {
        for kid in kids {
            if self.holds(template, Operand::Child(*kid), k) {
                return true;
            }
        }
        false
    }

    /// Whether in this world, and in the world `There`, the left side fails or the right one holds.
    #[cycle(walk)]
    fn arrow_holds(&self, template: &Template, left: Operand, right: Operand, k: usize) -> bool
        requires within { k < self.now.length }
        requires left { IsTrue (operand_in_range template.now left) }
        requires right { IsTrue (operand_in_range template.now right) }
        ensures { result ≡ holds_in self.now (Arrow (operand_formula template.now.nodes left)
            (operand_formula template.now.nodes right)) k }
    {
        let total = self.total();
        let there = !total.holds(template, left, k) || total.holds(template, right, k);
        match self.world {
            World::Here => there
                && (!self.holds(template, left, k) || self.holds(template, right, k)),
            World::There => there,
        }
    }

    /// Whether in this world, and in the world `There`, both sides hold or both fail. Each side is judged once in a world.
    #[cycle(walk)]
    fn same_holds(&self, template: &Template, left: Operand, right: Operand, k: usize) -> bool
        requires within { k < self.now.length }
        requires left { IsTrue (operand_in_range template.now left) }
        requires right { IsTrue (operand_in_range template.now right) }
        ensures { result ≡ holds_in self.now (both_arrows (operand_formula template.now.nodes left)
            (operand_formula template.now.nodes right)) k }
    {
        let total = self.total();
        let there = total.holds(template, left, k) == total.holds(template, right, k);
        match self.world {
            World::Here => there && self.holds(template, left, k) == self.holds(template, right, k),
            World::There => there,
        }
    }

    /// Since, which wants `some` instant of its way, or trigger: from the instant back, up to one that decides.
    #[cycle(walk)]
    fn back_holds(
        &self,
        template: &Template,
        some: bool,
        left: Operand,
        right: Operand,
        k: usize,
    ) -> bool
        requires within { k < self.now.length }
        requires left { IsTrue (operand_in_range template.now left) }
        requires right { IsTrue (operand_in_range template.now right) }
        ensures { result ≡ holds_in self.now (back_formula some (operand_formula template.now.nodes left)
            (operand_formula template.now.nodes right)) k }
    {
        let mut at = k;
        'back: loop {
            if self.holds(template, right, at) == some {
                return some;
            }
            if self.holds(template, left, at) != some {
                return !some;
            }
            if at == 0 {
                return !some;
            }
            at -= 1;
        }
    }

    /// Until, which wants `some` instant of its way, or release: from the instant on, up to one that decides.
    #[cycle(walk)]
    fn on_holds(
        &self,
        template: &Template,
        some: bool,
        left: Operand,
        right: Operand,
        k: usize,
    ) -> bool
        requires within { k < self.now.length }
        requires left { IsTrue (operand_in_range template.now left) }
        requires right { IsTrue (operand_in_range template.now right) }
        ensures { result ≡ holds_in self.now (on_formula some (operand_formula template.now.nodes left)
            (operand_formula template.now.nodes right)) k }
    {
        for j in k..self.length {
            if self.holds(template, right, j) == some {
                return some;
            }
            if self.holds(template, left, j) != some {
                return !some;
            }
        }
        !some
    }
}
