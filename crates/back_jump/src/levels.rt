//! The levels of the literals of a clause.

ghost use Rattle.std.specs.Prelude.{◌≡◌};
ghost use Rattle.back_jump.specs.Jumps.{second_highest};

use lit_trail::Trail;
use tel_base::Lit;

/// The second-highest level of literals, which is the highest one where two have it; 0 where there are fewer than two.
#[tactic(auto, using(crate::proofs::SecondLevels::level_said))]
pub fn second_level(trail: &Trail, lits: &[Lit]) -> u32
    ensures { result ≡ second_highest trail.now.entries lits.now }
{
    let mut highest = 0;
    let mut second = 0;
    for lit in lits {
        let level = trail.level_of(lit.var).unwrap_or(0);
        second = level.min(highest).max(second);
        highest = level.max(highest);
    }
    second
}
