//! The length that a search is at.

ghost use Rattle.std.specs.Prelude.{◌≡◌, ◌+◌, ◌<◌, ◌^◌};
ghost use Rattle.cdcl_search.specs.Steps.{Allowed};

use atom_space::AtomSpace;
use std::marker::Model;

/// A length that the search is at.
#[derive(Clone, Copy)]
pub struct Begun {
    /// The variables of its states.
    pub space: AtomSpace,
    pub n: u32,
    /// How many loop clauses and learnt ones were added since it began.
    pub counted: u64,
}

impl Model for Begun {
    ghost use Rattle.cdcl_search.specs.Searches as searches;

    ghost Value = { searches.Begun };

    ghost view = { λ begun. record { space = begun.space; n = begun.n; counted = begun.counted } };

    ghost inverse = { λ begun. record { space = begun.space; n = begun.n; counted = begun.counted } };
}

impl Begun {
    /// One clause more is counted.
    pub fn counted_one(self) -> Begun
        requires { self.counted + 1 < 2 ^ 64 }
        ensures { result ≡ record self { counted = self.counted + 1 } }
    {
        Begun {
            counted: self.counted + 1,
            ..self
        }
    }
}

/// Whether no further clause may be counted.
pub fn is_used_up(budget: Option<u64>, counted: u64) -> bool
    ensures { Allowed budget counted result }
{
    match budget {
        Some(budget) => budget <= counted,
        None => false,
    }
}
