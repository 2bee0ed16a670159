//! Clauses that are added where the trail goes back.

ghost use Rattle.std.specs.Prelude.{◌≡◌, ℕ, ◌+◌, ◌<◌, ◌≤◌, [], ◌∷◌, ◌++◌, IsTrue, IfOk, OnOk, OnErr, length};
ghost use Rattle.clause_store.specs.Held.{clauses_in, is_clause};
ghost use Rattle.clause_store.specs.Closure.{refutes, Absorbed};
ghost use Rattle.watch_propagate.specs.Propagation.{IsFalseClause};
ghost use Rattle.lit_trail.specs.Entries.{back};
ghost use Rattle.lit_trail.specs.Sound.{holds, IsClosedTrail};
ghost use Rattle.trail_walk.specs.Ways.{IsReady};
ghost use Rattle.back_jump.specs.Jumps.{IsSettledBelow, KeepsWay, Learns, IsFalseOrUnit, second_highest};

use crate::levels::second_level;
use clause_learn::{Scratch, learn};
use clause_store::{ClauseId, ClauseKind, Store};
use lit_trail::Trail;
use tel_base::{Lit, Memory};

/// Goes back to a level and adds a clause, out of the room that was made for it. At each lower level the clause leaves nothing to
/// derive, so these levels stay closed with it.
pub fn hold(
    store: &mut Store,
    trail: &mut Trail,
    kind: ClauseKind,
    lits: &[Lit],
    level: u32,
) -> ClauseId
    requires ready { IsReady store.old trail.old }
    requires level { level ≤ trail.old.level }
    requires clause { IsTrue (is_clause trail.old.vars lits.now) }
    requires settled { IsSettledBelow level trail.old.entries lits.now }
    requires clause_room { 1 ≤ store.old.clause_room }
    requires lit_room { length lits.now ≤ store.old.lit_room }
    ensures id { result.place ≡ length store.old.clauses }
    ensures added { store.new.clauses ≡ store.old.clauses ++ record { kind = kind; lits = lits.now } ∷ [] }
    ensures reserved { store.new.vars ≡ store.old.vars }
    ensures level { trail.new.level ≡ level }
    ensures entries { trail.new.entries ≡ back level trail.old.entries }
    ensures vars { trail.new.vars ≡ trail.old.vars }
    ensures clause_room { store.old.clause_room ≤ store.new.clause_room + 1 }
    ensures lit_room { store.old.lit_room ≤ store.new.lit_room + length lits.now }
    ensures ready { IsReady store.new trail.new }
    ensures way { KeepsWay trail.old trail.new }
{
    trail.back_to(level);
    store.add_reserved(kind, lits)
}

/// Learns from a clause that is false above level 0: adds its first-UIP clause, and goes back to the highest level of the clause's
/// literals below the trail's. There one literal of the new clause has no value and the others are false.
///
/// It takes the time of learning and of what is given up. On want of memory the clauses and the trail are as before.
pub fn hold_learnt(
    store: &mut Store,
    trail: &mut Trail,
    scratch: &mut Scratch,
    conflict: ClauseId,
) -> Result<ClauseId, Memory>
    requires ready { IsReady store.old trail.old }
    requires level { 0 < trail.old.level }
    requires conflict { IsFalseClause (clauses_in store.old.clauses) trail.old.entries conflict }
    requires grown { trail.old.vars ≤ scratch.old.vars }
    ensures id { IfOk result (λ id. id.place ≡ length store.old.clauses) }
    ensures learns { OnOk result (Learns store.old.clauses trail.old conflict store.new.clauses trail.new) }
    ensures err { OnErr result ((store.new.clauses ≡ store.old.clauses) × (trail.new ≡ trail.old)) }
    ensures reserved { store.new.vars ≡ store.old.vars }
    ensures vars { trail.new.vars ≡ trail.old.vars }
    ensures scratch { scratch.new.vars ≡ scratch.old.vars }
    ensures ready { IsReady store.new trail.new }
    ensures way { KeepsWay trail.old trail.new }
{
    let _count = trail.len();
    let learnt = learn(scratch, store, trail, conflict);
    store.reserve(1, learnt.lits.len())?;
    Ok(hold(store, trail, ClauseKind::Learnt, learnt.lits, learnt.level))
}

/// Adds a clause that is false, and goes back to the second-highest level of its literals. There it has one literal without a value,
/// or, where two are of the highest level, it is still false, and the search learns from it.
///
/// It takes time linear in its literals and in what is given up. On want of memory the clauses and the trail are as before.
pub fn hold_false(
    store: &mut Store,
    trail: &mut Trail,
    kind: ClauseKind,
    lits: &[Lit],
) -> Result<ClauseId, Memory>
    requires ready { IsReady store.old trail.old }
    requires clause { IsTrue (is_clause trail.old.vars lits.now) }
    requires refuted { IsTrue (refutes (holds trail.old.entries) lits.now) }
    ensures id { IfOk result (λ id. id.place ≡ length store.old.clauses) }
    ensures added { OnOk result (store.new.clauses ≡ store.old.clauses ++ record { kind = kind; lits = lits.now } ∷ []) }
    ensures level { OnOk result (trail.new.level ≡ second_highest trail.old.entries lits.now) }
    ensures entries { OnOk result (trail.new.entries ≡ back trail.new.level trail.old.entries) }
    ensures leaves { OnOk result (IsFalseOrUnit trail.new.entries lits.now) }
    ensures free { IsClosedTrail (clauses_in store.old.clauses) trail.old.entries → Absorbed (clauses_in store.old.clauses) lits.now → ⊥ }
    ensures err { OnErr result ((store.new.clauses ≡ store.old.clauses) × (trail.new ≡ trail.old)) }
    ensures reserved { store.new.vars ≡ store.old.vars }
    ensures vars { trail.new.vars ≡ trail.old.vars }
    ensures ready { IsReady store.new trail.new }
    ensures way { KeepsWay trail.old trail.new }
{
    let _count = trail.len();
    store.reserve(1, lits.len())?;
    let level = second_level(trail, lits);
    Ok(hold(store, trail, kind, lits, level))
}
