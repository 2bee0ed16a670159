ghost use Rattle.std.specs.Prelude.{◌≡◌, IfOk};
ghost use Rattle.normal_program.specs.Rules.{positives, negatives, rule_of};

use sqlite_items::Items;
use std::alloc::Global;
use tel_base::{Lit, Memory};

/// A rule. Its head follows where all variables of `pos` are true and none of `neg` is. With `choice` it
/// may follow or not; without a head the rule is a constraint, whose body must be false.
#[derive(Drop)]
pub struct NRule {
    pub head: Option<u32>,
    pub choice: bool,
    pub pos: Items<u32>,
    pub neg: Items<u32>,
    /// The variable that stands for the body, where there is one.
    pub body: Option<u32>,
}

/// The variables of the positive literals, in order.
fn positives_of(alloc: Global, lits: &[Lit]) -> Result<Items<u32>, Memory>
    ensures { IfOk result (λ vars. vars ≡ positives lits.now) }
{
    let mut vars = Items::new(alloc);
    for lit in lits {
        if lit.positive {
            vars.push(lit.var)?;
        }
    }
    Ok(vars)
}

/// The variables of the negative literals, in order.
fn negatives_of(alloc: Global, lits: &[Lit]) -> Result<Items<u32>, Memory>
    ensures { IfOk result (λ vars. vars ≡ negatives lits.now) }
{
    let mut vars = Items::new(alloc);
    for lit in lits {
        if !lit.positive {
            vars.push(lit.var)?;
        }
    }
    Ok(vars)
}

/// The rule with this head and these literals as its body.
pub fn make_rule(
    alloc: Global,
    head: Option<u32>,
    choice: bool,
    lits: &[Lit],
    body: Option<u32>,
) -> Result<NRule, Memory>
    ensures { IfOk result (λ rule. rule ≡ rule_of head choice lits.now body) }
{
    Ok(NRule {
        head,
        choice,
        pos: positives_of(alloc, lits)?,
        neg: negatives_of(alloc, lits)?,
        body,
    })
}
