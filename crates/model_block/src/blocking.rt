//! The clause that forbids what the decisions of a trail led to.
ghost use Rattle.std.specs.Prelude.{◌≡◌, ◌++◌, option_to_list, reverse, IfOk, OnOk};
ghost use Rattle.tel_base.specs.Literals.{negations};
ghost use Rattle.model_block.specs.Blocking.{block_of, decided_above};

use lit_trail::Trail;
use std::alloc::Global;
use tel_base::{Clause, Lit, Memory};

/// Adds the negation of a decision, if there is one.
fn push_negated(lits: &mut Vec<Lit>, decision: Option<Lit>) -> Result<(), Memory>
    ensures { OnOk result (lits.new.items ≡ lits.old.items ++ negations (option_to_list decision)) }
{
    if let Some(decision) = decision {
        lits.push(decision.negated())?;
    }
    Ok(())
}

/// Adds the negations of the decisions of the levels above 1, the lowest level first.
fn push_decisions(lits: &mut Vec<Lit>, trail: &Trail) -> Result<(), Memory>
    ensures { OnOk result (lits.new.items ≡ lits.old.items ++ negations (reverse (decided_above 1 trail.now.entries))) }
{
    // what the trail says of its levels
    let _count = trail.len();
    let mut level = 1;
    'rising: while level < trail.level() {
        level += 1;
        push_negated(lits, trail.decision(level))?;
    }
    Ok(())
}

/// The blocking clause of a trail whose level 1 is that of the end of a length: the negations of the decisions of the levels
/// above 1, the lowest level first, and then the negation of the end. So it forbids nothing at another length, and where
/// decisions are made by rising variable its variables rise.
///
/// It takes time linear in the levels. The one error is want of memory.
pub fn block(alloc: Global, trail: &Trail, end: Lit) -> Result<Clause, Memory>
    ensures { IfOk result (λ clause. clause ≡ block_of trail.now.entries end) }
{
    let mut lits = Vec::new(alloc);
    push_decisions(&mut lits, trail)?;
    lits.push(end.negated())?;
    Ok(Clause { lits })
}
