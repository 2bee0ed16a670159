//! The test of what makes an instance of a rule.
ghost use Rattle.std.specs.Prelude.{◌≤◌, take};
ghost use Rattle.live_instances.specs.Instances.{makes_instance};
ghost use Rattle.instance_check.specs.Valued.{BodyHasTerms};

use instance_check::makes_instance;
use plan_search::BindingTest;
use tel_rule::{Head, Literal};
use tel_term::{Symbols, Value};

/// Whether the first values of an environment make an instance of a rule of so many variables.
#[derive(Clone, Copy)]
pub struct MakesInstance<'a> {
    pub vars: usize,
    pub head: &'a Head,
    pub body: &'a [Literal],
}

impl BindingTest for MakesInstance<'_> {
    ghost can_test = { λ test symbols places. BodyHasTerms symbols test.body.now × (test.vars ≤ places) };

    ghost passes = { λ test symbols env. makes_instance symbols test.head.now test.body.now (take test.vars env) };

    fn passes(&mut self, symbols: &Symbols, env: &[Value]) -> bool {
        makes_instance(symbols, self.head, self.body, &env[..self.vars])
    }
}
