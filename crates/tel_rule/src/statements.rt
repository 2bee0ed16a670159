use crate::formulas::{Atom, Formula};
use crate::parts::Part;
use sqlite_items::Items;
use tel_base::{Place, Text};
use tel_term::{Expr, Symbols};

/// What a rule derives.
#[derive(Drop)]
pub enum Head {
    /// The atom.
    Normal(Atom),
    /// The atom or its absence.
    Choice(Atom),
    /// Nothing: the body must be false.
    None,
}

/// How the two sides of a comparison are to stand to one another, in the order of terms.
#[derive(Clone, Copy, PartialEq, Eq)]
pub enum Relation {
    Equal,
    Unequal,
    Less,
    LessEqual,
    Greater,
    GreaterEqual,
}

/// What a literal of a body speaks of.
#[derive(Drop)]
pub enum LitItem {
    Atom(Atom),
    /// A temporal formula, `&tel { .. }`.
    Tel(Formula),
    Compare(Relation, Expr, Expr),
}

/// A literal of a body, behind so many `not`, of which there are at most two; a comparison has none.
#[derive(Drop)]
pub struct Literal {
    pub nots: u32,
    pub item: LitItem,
}

/// An argument of a fact: an expression, or the numbers from one to another.
#[derive(Drop)]
pub enum Arg {
    One(Expr),
    Range(Expr, Expr),
}

/// A fact, with its strong negation and its primes, and a tuple of arguments for each atom that it
/// states. A fact without brackets has one empty tuple.
#[derive(Drop)]
pub struct Fact {
    pub negative: bool,
    pub before: u32,
    pub name: Text,
    pub after: u32,
    pub tuples: Items<Items<Arg>>,
}

/// A predicate: a name, whether it is strongly negated, and a number of arguments.
#[derive(Drop, PartialEq, Eq, Hash)]
pub struct Signature {
    pub negative: bool,
    pub name: Text,
    pub arity: u32,
}

/// What a statement says.
#[derive(Drop)]
pub enum Kind {
    /// A rule, a choice or a constraint.
    Rule(Head, Items<Literal>),
    Facts(Fact),
    /// A constant, and the expression that it stands for.
    Const(Text, Expr),
    /// The predicate whose atoms are shown, or none.
    Show(Option<Signature>),
}

/// A statement: the place of its first token, the part that it is of, and its variables in the order
/// of their first occurrence. Each `_` is a variable of its own, with the name `_`.
#[derive(Drop)]
pub struct Statement {
    pub place: Place,
    pub part: Part,
    pub vars: Items<Text>,
    pub kind: Kind,
}

/// A program as it is read: its statements in the order of the texts, and the names and strings that
/// stand in their expressions, in the order of their first occurrence.
#[derive(Drop)]
pub struct Program {
    pub statements: Items<Statement>,
    pub symbols: Symbols,
}
