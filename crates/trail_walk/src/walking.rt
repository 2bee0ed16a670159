//! The walk: the end first, and then the first visible variable without a value, false first.

ghost use Rattle.std.specs.Prelude.{◌≡◌, ℕ, ◌+◌, ◌<◌, ◌≤◌, min, IsTrue};
ghost use Rattle.tel_base.specs.Members.{In};
ghost use Rattle.clause_store.specs.Held.{clauses_in};
ghost use Rattle.lit_trail.specs.Levels.{AreLevels, AreOrdered};
ghost use Rattle.lit_trail.specs.Sound.{IsClosedTrail};
ghost use Rattle.lit_trail.specs.Unassigned.{visible_below};
ghost use Rattle.watch_propagate.specs.Propagation.{Grown, IsFalseClause, OnQuiet, OnConflict};
ghost use Rattle.trail_walk.specs.Ways.{IsReady, Opens, StaysOnWay, Ends, WalksEnd};

use atom_space::AtomSpace;
use clause_store::{ClauseId, Store};
use lit_trail::Trail;
use tel_base::Lit;
use watch_propagate::{Propagated, propagate};

/// Where a walk ends.
#[derive(Clone, Copy)]
pub enum Walked {
    /// This clause is false.
    Conflict(ClauseId),
    /// Each visible variable has a value, and the trail is closed.
    Total,
}

/// Propagates.
pub fn close(store: &mut Store, trail: &mut Trail) -> Propagated
    requires ready { IsReady store.old trail.old }
    ensures ready { IsReady store.new trail.new }
    ensures clauses { store.new.clauses ≡ store.old.clauses }
    ensures reserved { store.new.vars ≡ store.old.vars }
    ensures vars { trail.new.vars ≡ trail.old.vars }
    ensures level { trail.new.level ≡ trail.old.level }
    ensures grown { Grown trail.old.level trail.old.entries trail.new.entries }
    ensures quiet { OnQuiet result (IsClosedTrail (clauses_in store.old.clauses) trail.new.entries) }
    ensures conflict { OnConflict result (IsFalseClause (clauses_in store.old.clauses) trail.new.entries) }
    ensures levels { AreLevels trail.new.level trail.new.entries }
    ensures ordered { AreOrdered trail.new.vars trail.new.entries }
{
    let outcome = propagate(store, trail);
    let _count = trail.len();
    outcome
}

/// Closes level 0 and opens level 1 with the end. It answers whether it could: not where a clause is false at level 0, and not
/// where the end is.
pub fn open_end(store: &mut Store, trail: &mut Trail, end: Lit) -> bool
    requires ready { IsReady store.old trail.old }
    requires level { trail.old.level ≡ 0 }
    requires end { end.var < trail.old.vars }
    ensures ready { IsReady store.new trail.new }
    ensures clauses { store.new.clauses ≡ store.old.clauses }
    ensures reserved { store.new.vars ≡ store.old.vars }
    ensures vars { trail.new.vars ≡ trail.old.vars }
    ensures opens { Opens result (clauses_in store.old.clauses) end trail.new }
{
    match close(store, trail) {
        Propagated::Conflict(_) => return false,
        Propagated::Quiet => {}
    }
    match trail.value(end) {
        Some(false) => return false,
        Some(true) => trail.open_level(),
        None => trail.decide(end),
    }
    true
}

/// Goes on from a trail at level 1 or above until a clause is false or each visible variable of the first `n` states has a value.
pub fn walk(store: &mut Store, trail: &mut Trail, space: &AtomSpace, n: u32) -> Walked
    requires ready { IsReady store.old trail.old }
    requires level { 1 ≤ trail.old.level }
    requires within { (var : ℕ) → In var (visible_below space.now.counts (min n (space.now.greatest + 1))) → var < trail.old.vars }
    ensures ready { IsReady store.new trail.new }
    ensures clauses { store.new.clauses ≡ store.old.clauses }
    ensures reserved { store.new.vars ≡ store.old.vars }
    ensures vars { trail.new.vars ≡ trail.old.vars }
    ensures level { 1 ≤ trail.new.level }
    ensures way { StaysOnWay space.now n trail.old trail.new }
    ensures ends { Ends (clauses_in store.old.clauses) space.now n trail.new result }
    ensures walk { WalksEnd (clauses_in store.old.clauses) space.now n trail.old trail.new result }
{
    'deciding: loop {
        match close(store, trail) {
            Propagated::Conflict(id) => return Walked::Conflict(id),
            Propagated::Quiet => {}
        }
        match trail.first_unassigned(space, n) {
            Some(var) => {
                trail.decide(Lit::of(var).negated());
                let _count = trail.len();
            }
            None => return Walked::Total,
        }
    }
}
