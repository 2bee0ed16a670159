//! The walk from where a search stands.

ghost use Rattle.std.specs.Prelude.{◌≡◌};
ghost use Rattle.clause_store.specs.Held.{clauses_in};
ghost use Rattle.trail_walk.specs.Ways.{IsReady};
ghost use Rattle.cdcl_search.specs.Searches.{IsLength, IsUnderWay};
ghost use Rattle.cdcl_search.specs.Advancing.{Starts, Advances};

use crate::begun::Begun;
use clause_store::{ClauseId, Store};
use horizon_external::end_var;
use lit_trail::Trail;
use tel_base::Lit;
use trail_walk::{Walked, open_end, walk};

/// What the walk comes to.
#[derive(Clone, Copy)]
pub enum Advanced {
    /// It is closed.
    Closed,
    /// This clause is false above level 1.
    Stuck(ClauseId),
    /// Each visible variable has a value.
    Total,
}

/// Opens level 1 with the end of the length, where the trail is at level 0. It answers whether the trail is on the way of the
/// length.
fn start(store: &mut Store, trail: &mut Trail, begun: Begun) -> bool
    requires ready { IsReady store.old trail.old }
    requires length { IsLength trail.old.vars begun }
    requires way { IsUnderWay begun trail.old }
    ensures ready { IsReady store.new trail.new }
    ensures clauses { store.new.clauses ≡ store.old.clauses }
    ensures vars { trail.new.vars ≡ trail.old.vars }
    ensures starts { Starts (clauses_in store.old.clauses) begun trail.new result }
{
    if trail.level() > 0 {
        return true;
    }
    open_end(store, trail, Lit::of(end_var(&begun.space, begun.n - 1)))
}

/// Goes on along the walk of a length, from level 0 by its end.
pub fn advance(store: &mut Store, trail: &mut Trail, begun: Begun) -> Advanced
    requires ready { IsReady store.old trail.old }
    requires length { IsLength trail.old.vars begun }
    requires way { IsUnderWay begun trail.old }
    ensures ready { IsReady store.new trail.new }
    ensures clauses { store.new.clauses ≡ store.old.clauses }
    ensures vars { trail.new.vars ≡ trail.old.vars }
    ensures advances { Advances (clauses_in store.old.clauses) begun trail.new result }
{
    if !start(store, trail, begun) {
        return Advanced::Closed;
    }
    match walk(store, trail, &begun.space, begun.n) {
        Walked::Conflict(id) => {
            if trail.level() == 1 {
                Advanced::Closed
            } else {
                Advanced::Stuck(id)
            }
        }
        Walked::Total => Advanced::Total,
    }
}
