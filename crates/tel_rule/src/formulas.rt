use sqlite_items::{Boxed, Items};
use tel_base::Text;
use tel_term::Expr;

/// An atom as it is read: with `negative` it is strongly negated; `before` and `after` count its
/// leading and trailing primes.
#[derive(Drop)]
pub struct Atom {
    pub negative: bool,
    pub before: u32,
    pub name: Text,
    pub after: u32,
    pub args: Items<Expr>,
}

/// A constant formula.
#[derive(Clone, Copy, PartialEq, Eq)]
pub enum ConstOp {
    True,
    False,
    /// True at the first instant alone.
    Initial,
    /// True at the last instant alone.
    Final,
}

/// An operator before one formula. Those of the past look from the present instant back, those of the
/// future on to the end of the trace.
#[derive(Clone, Copy, PartialEq, Eq)]
pub enum UnaryOp {
    Not,
    Previous,
    WeakPrevious,
    AlwaysBefore,
    OnceBefore,
    Initially,
    Next,
    WeakNext,
    AlwaysAfter,
    OnceAfter,
    Finally,
}

/// An operator between two formulas.
#[derive(Clone, Copy, PartialEq, Eq)]
pub enum BinaryOp {
    Since,
    Trigger,
    Until,
    Release,
    Implies,
    ImpliedBy,
    Same,
}

/// An operator of a chain of formulas.
#[derive(Clone, Copy, PartialEq, Eq)]
pub enum ManyOp {
    And,
    Or,
}

/// A temporal formula. A chain of conjunctions or of disjunctions is one node.
#[derive(Drop)]
pub enum Formula {
    Const(ConstOp),
    Atom(Atom),
    Unary(UnaryOp, Boxed<Formula>),
    Binary(BinaryOp, Boxed<Formula>, Boxed<Formula>),
    Many(ManyOp, Items<Formula>),
}
