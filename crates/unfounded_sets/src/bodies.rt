//! What a trail says of variables and of the bodies of rules.

ghost use Rattle.std.specs.Prelude.{◌≡◌, ◌++◌, map};
ghost use Rattle.std.specs.List.{find, list_any};
ghost use Rattle.tel_base.specs.Literals.{lit_of};
ghost use Rattle.unfounded_sets.specs.Unfounded.{is_false, is_true, is_off, no_lit, body_lits};
ghost use Rattle.unfounded_sets.specs.Least.{wanted_below};

use lit_trail::Trail;
use normal_program::{Ground, NRule};
use tel_base::Lit;

/// Whether a literal is false.
pub fn is_false(trail: &Trail, lit: Lit) -> bool
    ensures { result ≡ is_false trail.now.entries lit }
{
    match trail.value(lit) {
        Some(value) => !value,
        None => false,
    }
}

/// Whether a variable is true.
pub fn is_true(trail: &Trail, var: u32) -> bool
    ensures { result ≡ is_true trail.now.entries var }
{
    is_false(trail, Lit::of(var).negated())
}

/// Whether a variable is below a bound, and is a head variable that isn't false.
pub fn is_wanted(ground: &Ground, trail: &Trail, bound: usize, var: u32) -> bool
    ensures { result ≡ wanted_below ground.now trail.now.entries bound var }
{
    (var as usize) < bound && ground.is_head(var) && !is_false(trail, Lit::of(var))
}

/// The first of these variables that is false.
fn first_false(trail: &Trail, vars: &[u32]) -> Option<Lit>
    ensures { result ≡ find (is_false trail.now.entries) (map lit_of vars.now) }
{
    for var in vars {
        let lit = Lit::of(*var);
        if is_false(trail, lit) {
            return Some(lit);
        }
    }
    None
}

/// The first of these variables that is true.
fn first_true(trail: &Trail, vars: &[u32]) -> Option<Lit>
    ensures { result ≡ find (is_false trail.now.entries) (map no_lit vars.now) }
{
    for var in vars {
        let lit = Lit::of(*var).negated();
        if is_false(trail, lit) {
            return Some(lit);
        }
    }
    None
}

/// The first of these positive and negative literals that is false.
fn false_among(trail: &Trail, pos: &[u32], neg: &[u32]) -> Option<Lit>
    ensures { result ≡ find (is_false trail.now.entries) (map lit_of pos.now ++ map no_lit neg.now) }
{
    match first_false(trail, pos) {
        Some(lit) => Some(lit),
        None => first_true(trail, neg),
    }
}

/// The literal that makes the body of a rule false.
pub fn false_lit(trail: &Trail, rule: &NRule) -> Option<Lit>
    ensures { result ≡ find (is_false trail.now.entries) (body_lits rule.now) }
{
    match rule.body {
        Some(body) => first_false(trail, &[body]),
        None => false_among(trail, rule.pos.as_slice(), rule.neg.as_slice()),
    }
}

/// Whether the body of a rule is false.
pub fn is_off(trail: &Trail, rule: &NRule) -> bool
    ensures { result ≡ is_off trail.now.entries rule.now }
{
    false_lit(trail, rule).is_some()
}
