//! A bound of the variables that matter.

ghost use Rattle.std.specs.Prelude.{◌≡◌, ◌≤◌, ◌+◌, ◌^◌, IsTrue, max, nat_lt};
ghost use Rattle.std.specs.List.{list_all};
ghost use Rattle.tel_base.specs.declared.literals.Lit.{Lit};
ghost use Rattle.unfounded_sets.specs.Marks.{all_below, are_below, Below};

use lit_trail::Trail;
use normal_program::{Ground, NRule};
use tel_base::Lit;

/// A number above a variable, and at least another one.
fn above(least: usize, var: u32) -> usize
    requires { least ≤ 2 ^ 32 }
    ensures is { result ≡ max least (var + 1) }
    ensures small { result ≤ 2 ^ 32 }
{
    least.max(var as usize + 1)
}

/// A number above these variables, and at least another one.
fn above_vars(least: usize, vars: &[u32]) -> usize
    requires { least ≤ 2 ^ 32 }
    ensures vars { IsTrue (all_below result vars.now) }
    ensures least { least ≤ result }
    ensures small { result ≤ 2 ^ 32 }
{
    let mut bound = least;
    for var in vars {
        bound = above(bound, *var);
    }
    bound
}

/// A number above the positive body atoms of these rules.
fn above_rules(rules: &[NRule]) -> usize
    ensures rules { IsTrue (are_below result rules.now) }
    ensures small { result ≤ 2 ^ 32 }
{
    let mut bound: usize = 0;
    for rule in rules {
        bound = above_vars(bound, rule.pos.as_slice());
    }
    bound
}

/// A number above the variables of these literals, and at least another one.
fn above_lits(least: usize, lits: &[Lit]) -> usize
    requires { least ≤ 2 ^ 32 }
    ensures lits { IsTrue (list_all (λ (lit : Lit). nat_lt lit.var result) lits.now) }
    ensures least { least ≤ result }
    ensures small { result ≤ 2 ^ 32 }
{
    let mut bound = least;
    for lit in lits {
        bound = above(bound, lit.var);
    }
    bound
}

/// A number above the positive body atoms of the rules and the variables of the trail.
pub fn above_all(ground: &Ground, trail: &Trail) -> usize
    ensures rules { IsTrue (are_below result ground.now.rules) }
    ensures trail { Below result trail.now.entries }
    ensures small { result ≤ 2 ^ 32 }
{
    above_lits(above_rules(ground.rules()), trail.lits())
}
