use crate::formulas::{BinaryOp, ConstOp, ManyOp, UnaryOp};
use sqlite_items::Items;

/// A node of a formula: an operator over its children, which are atoms or nodes after it.
#[derive(Drop)]
pub struct Node {
    pub op: NodeOp,
    /// None of a constant, one of a unary operator, two of a binary one, any number of a chain.
    pub kids: Items<Kid>,
}

/// The operator of a node.
#[derive(Clone, Copy, PartialEq, Eq)]
pub enum NodeOp {
    Const(ConstOp),
    Unary(UnaryOp),
    Binary(BinaryOp),
    /// A chain, from left to right.
    Many(ManyOp),
}

/// A child of a node: the number of an atom, or of a node.
#[derive(Clone, Copy, PartialEq, Eq)]
pub enum Kid {
    Atom(u32),
    Node(u32),
}
