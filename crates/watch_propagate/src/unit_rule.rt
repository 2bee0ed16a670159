//! The unit rule.

ghost use Rattle.std.specs.Prelude.{◌≡◌, ℕ, ◌<◌, ◌≤◌, IsTrue, IfSome, IfNone, length};
ghost use Rattle.clause_store.specs.Held.{clauses_in};
ghost use Rattle.clause_store.specs.Closure.{IsClosure, Conflict};
ghost use Rattle.lit_trail.specs.Levels.{AreWithin};
ghost use Rattle.lit_trail.specs.Sound.{holds, trail_lits, IsClosedTrail, IsSound};
ghost use Rattle.watch_propagate.specs.Propagation.{are_below, Grown, IsFalseClause, OnQuiet, OnConflict, AreSettled};

use crate::examining::{Examined, examine};
use clause_store::{ClauseId, Store};
use lit_trail::Trail;

/// The outcome of propagation.
#[derive(Clone, Copy)]
pub enum Propagated {
    /// The trail is closed under the unit rule.
    Quiet,
    /// This clause is false.
    Conflict(ClauseId),
}

/// Looks at each clause once and implies what it finds, up to a clause that is false.
fn look_once(store: &Store, trail: &mut Trail) -> Option<ClauseId>
    requires sound { IsSound (clauses_in store.now.clauses) trail.old }
    requires below { IsTrue (are_below trail.old.vars (clauses_in store.now.clauses)) }
    ensures sound { IsSound (clauses_in store.now.clauses) trail.new }
    ensures grown { Grown trail.old.level trail.old.entries trail.new.entries }
    ensures level { trail.new.level ≡ trail.old.level }
    ensures vars { trail.new.vars ≡ trail.old.vars }
    ensures longer { length trail.old.entries ≤ length trail.new.entries }
    ensures found { IfSome result (IsFalseClause (clauses_in store.now.clauses) trail.new.entries) }
    ensures quiet { IfNone result (length trail.new.entries ≡ length trail.old.entries → AreSettled (clauses_in store.now.clauses) trail.new.entries) }
{
    for place in 0..store.len() {
        let id = ClauseId { place };
        match examine(store.clause(id), trail) {
            Examined::False => return Some(id),
            Examined::Unit(lit) => trail.imply(lit, id),
            Examined::Settled => {}
        }
    }
    None
}

/// Puts on the trail what the held clauses imply, until it is closed under the unit rule or a clause is false. It looks at
/// each clause again until nothing is left to imply.
pub fn propagate(store: &mut Store, trail: &mut Trail) -> Propagated
    requires sound { IsSound (clauses_in store.old.clauses) trail.old }
    requires below { IsTrue (are_below trail.old.vars (clauses_in store.old.clauses)) }
    requires known { AreWithin store.old.vars trail.old.entries }
    ensures clauses { store.new.clauses ≡ store.old.clauses }
    ensures reserved { store.new.vars ≡ store.old.vars }
    ensures sound { IsSound (clauses_in store.old.clauses) trail.new }
    ensures grown { Grown trail.old.level trail.old.entries trail.new.entries }
    ensures level { trail.new.level ≡ trail.old.level }
    ensures vars { trail.new.vars ≡ trail.old.vars }
    ensures quiet { OnQuiet result (IsClosure (clauses_in store.old.clauses) (trail_lits trail.old.entries) (holds trail.new.entries)) }
    ensures closed { OnQuiet result (IsClosedTrail (clauses_in store.old.clauses) trail.new.entries) }
    ensures conflict { OnConflict result (λ id. IsFalseClause (clauses_in store.old.clauses) trail.new.entries id × Conflict (clauses_in store.old.clauses) (trail_lits trail.old.entries)) }
{
    'rounds: loop {
        let before = trail.len();
        if let Some(id) = look_once(store, trail) {
            return Propagated::Conflict(id);
        }
        if trail.len() == before {
            return Propagated::Quiet;
        }
    }
}
