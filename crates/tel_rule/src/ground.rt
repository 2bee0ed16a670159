use crate::nodes::Node;
use crate::parts::Part;
use sqlite_items::Items;
use std::marker::Model;
use tel_term::{Symbols, Value};

/// An atom of an instantiated program; with `negative` it is strongly negated. Its name is the number
/// of a name among the symbols.
#[derive(Drop)]
pub struct GroundAtom {
    pub negative: bool,
    pub name: u32,
    pub args: Items<Value>,
}

/// An instance of a statement, whose atoms and nodes are numbers.
#[derive(Drop)]
pub struct Instance {
    /// The number of its statement in the program, from 0.
    pub statement: u32,
    pub part: Part,
    pub head: GroundHead,
    pub body: Items<BodyLit>,
}

/// What an instance derives. With `after` it is derived at the next instant.
#[derive(Clone, Copy, PartialEq, Eq)]
pub enum GroundHead {
    Normal { atom: u32, after: bool },
    Choice { atom: u32, after: bool },
    None,
}

/// A literal of a body; with `positive` false, the default negation of its item.
#[derive(Clone, Copy, PartialEq, Eq)]
pub struct BodyLit {
    pub positive: bool,
    pub item: BodyItem,
}

/// What a literal looks at: an atom at the same instant, an atom one instant before, or the formula of
/// a node at the same instant.
#[derive(Clone, Copy, PartialEq, Eq)]
pub enum BodyItem {
    Atom(u32),
    Before(u32),
    Node(u32),
}

/// Which atoms are printed: all, or those with these numbers, which rise.
#[derive(Drop)]
pub enum Show {
    All,
    Only(Items<u32>),
}

/// An instantiated program.
///
/// Its atoms strictly rise: by the bytes of their names, a plain one before a negative one, then by
/// the number of their arguments and by the arguments from left to right. Each number in it is in range. `pairs` are
/// the pairs of a plain atom and its negative, by the number of the plain one. A node has as many children as its
/// operator asks for, and they come after it. In an instance with a head each way from a positive
/// literal down to an arrow passes a `Not`.
#[derive(Drop)]
pub struct Template {
    pub symbols: Symbols,
    pub atoms: Items<GroundAtom>,
    pub pairs: Items<(u32, u32)>,
    pub nodes: Items<Node>,
    pub instances: Items<Instance>,
    pub show: Show,
}

impl Model for Template {
    ghost use Rattle.tel_rule.specs.Ground.{Ground, IsGround, ground_of};

    ghost Value = { Ground };

    ghost view = { λ template. ground_of template.symbols template.atoms template.pairs template.nodes template.instances template.show };

    ghost invariant = { λ template. IsGround (ground_of template.symbols template.atoms template.pairs template.nodes template.instances template.show) };
}
