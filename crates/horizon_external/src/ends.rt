ghost use Rattle.std.specs.Prelude.{◌≡◌, ◌<◌};
ghost use Rattle.tel_base.specs.Literals.{lit_of, negate};
ghost use Rattle.atom_space.specs.Numbers.{end_at};

use atom_space::AtomSpace;
use tel_base::Lit;

/// The variable that says that the trace ends with this state.
pub fn end_var(space: &AtomSpace, t: u32) -> u32
    requires state { t < space.now.greatest }
    ensures { result ≡ end_at space.now.counts t }
{
    space.end(t)
}

/// The literal that the trace doesn't end with this state.
pub fn close(space: &AtomSpace, t: u32) -> Lit
    requires state { t < space.now.greatest }
    ensures { result ≡ negate (lit_of (end_at space.now.counts t)) }
{
    Lit::of(end_var(space, t)).negated()
}
