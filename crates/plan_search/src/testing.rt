//! Tests of what a search finds.
ghost use Rattle.std.specs.Prelude.{◌≡◌, ℕ, Bool, List, length};
ghost use Rattle.tel_term.specs.declared.terms.Term.{Term};
ghost use Rattle.tel_term.specs.declared.terms.Value.{Value as TermValue};
ghost use Rattle.plan_search.specs.Steps.{AreTerms};

use tel_term::{Symbols, Value};

/// A test of whole environments, which have a value for each place of a plan. It may change what it holds to work with, and
/// stays the same test.
pub trait BindingTest {
    /// Where it may be asked, with these terms, of environments of so many places.
    ghost can_test: { Self → List Term → ℕ → Type 0 };

    /// Whether an environment passes, with these terms.
    ghost passes: { Self → List Term → List TermValue → Bool };

    /// Whether an environment passes.
    fn passes(&mut self, symbols: &Symbols, env: &[Value]) -> bool
        requires can { can_test self.old symbols.now (length env.now) }
        requires env { AreTerms symbols.now env.now }
        ensures passes { result ≡ passes self.old symbols.now env.now }
        ensures same { passes self.new ≡ passes self.old }
        ensures can { (terms : List Term) (places : ℕ) → can_test self.old terms places → can_test self.new terms places };
}
