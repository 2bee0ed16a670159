//! The order of terms.
ghost use Rattle.std.specs.Prelude.{◌≡◌};
ghost use Rattle.tel_term.specs.Order.{term_cmp};

use crate::terms::Term;
use std::cmp::Ordering;

/// How a term stands to another: numbers before names before strings, numbers by value, names and
/// strings by their bytes, a prefix first.
pub fn compare(a: &Term, b: &Term) -> Ordering
    ensures { result ≡ term_cmp a.now b.now }
{
    match a {
        Term::Num(a) => match b {
            Term::Num(b) => a.cmp(b),
            Term::Name(_) | Term::Str(_) => Ordering::Less,
        },
        Term::Name(a) => match b {
            Term::Num(_) => Ordering::Greater,
            Term::Name(b) => a.as_slice().cmp(b.as_slice()),
            Term::Str(_) => Ordering::Less,
        },
        Term::Str(a) => match b {
            Term::Num(_) | Term::Name(_) => Ordering::Greater,
            Term::Str(b) => a.as_slice().cmp(b.as_slice()),
        },
    }
}
