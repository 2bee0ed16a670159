//! Numbers of atoms.
ghost use Rattle.std.specs.Prelude.{◌≡◌, ℕ, IfOk};
ghost use Rattle.tel_rule.specs.declared.formulas.Atom.{Atom};

use tel_base::Memory;
use tel_rule::Atom;

/// A number for each atom of a rule.
pub trait AtomNumbers {
    /// The number that an atom has.
    ghost number: { Self → Atom → ℕ };

    /// The number that this atom has.
    fn number(&self, atom: &Atom) -> Result<u32, Memory>
        ensures { IfOk result (λ found. found ≡ number self.now atom.now) };
}
