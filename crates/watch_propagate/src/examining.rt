//! What a clause is under a trail.

ghost use Rattle.std.specs.Prelude.{◌≡◌, Some, None};
ghost use Rattle.watch_propagate.specs.Status.{status};

use lit_trail::Trail;
use tel_base::Lit;

/// What a clause is under a trail.
#[derive(Clone, Copy)]
pub enum Examined {
    /// Each literal is false.
    False,
    /// This literal has no value, and the others are false.
    Unit(Lit),
    /// A literal is true, or two have no value.
    Settled,
}

/// Whether a clause is false, has one literal left, or neither.
pub fn examine(clause: &[Lit], trail: &Trail) -> Examined
    ensures { result ≡ status trail.now.entries clause.now None }
{
    let mut left: Option<Lit> = None;
    for lit in clause {
        match trail.value(*lit) {
            Some(true) => return Examined::Settled,
            Some(false) => {}
            None => match left {
                Some(_) => return Examined::Settled,
                None => left = Some(*lit),
            },
        }
    }
    match left {
        Some(lit) => Examined::Unit(lit),
        None => Examined::False,
    }
}
