ghost use Rattle.std.specs.Prelude.{◌≡◌, ◌==◌, length};
ghost use Rattle.tel_base.specs.Literals.{lit_of, negate};

use std::marker::Model;

/// A variable or its negation. The order is by variable, the negation before the variable itself.
#[derive(Clone, Copy, Debug, Default, PartialEq, Eq, PartialOrd, Ord)]
pub struct Lit {
    pub var: u32,
    /// Whether it is the variable itself.
    pub positive: bool,
}

impl Lit {
    /// The variable itself as a literal.
    pub fn of(var: u32) -> Lit
        ensures { result ≡ lit_of var }
    {
        Lit {
            var,
            positive: true,
        }
    }

    /// The opposite literal of the same variable.
    pub fn negated(self) -> Lit
        ensures { result ≡ negate self }
    {
        Lit {
            var: self.var,
            positive: !self.positive,
        }
    }
}

/// A disjunction of literals. Contracts see it as the list of its literals.
#[derive(Debug, Drop)]
pub struct Clause {
    pub lits: Vec<Lit>,
}

impl Model for Clause {
    ghost use Rattle.std.specs.Prelude.{List};
    ghost use Rattle.tel_base.specs.declared.literals.Lit.{Lit};

    ghost Value = { List Lit };

    ghost view = { λ clause. clause.lits.items };
}

impl Clause {
    /// Its literals.
    pub fn as_slice(&self) -> &[Lit]
        ensures { result.now ≡ self.now }
    {
        self.lits.as_slice()
    }

    /// How many literals it has.
    pub fn len(&self) -> usize
        ensures { result ≡ length self.now }
    {
        self.lits.len()
    }

    /// Whether it has no literal.
    pub fn is_empty(&self) -> bool
        ensures { result ≡ (length self.now == 0) }
    {
        self.lits.is_empty()
    }
}
