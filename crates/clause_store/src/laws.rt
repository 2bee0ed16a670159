//! Laws of the definitions: functions that do nothing, whose contracts are proved facts.

ghost use Rattle.clause_store.specs.Laws.{ClosureHolds, ClosureKeeps, ClosureIsLeast, ClosureGrows, ConflictGrows, ClosureIsClosed, ClosedIsClosure, ClosureStays, AddedIsFree, HeldIsAbsorbed, FewerLeft, AtMostLeft};

/// The closure under the unit rule is the least set that holds what it is of and keeps the rule. It grows
/// with the clauses and with what it is of, and so does a conflict.
pub fn unit_closure()
    ensures holds { ClosureHolds }
    ensures keeps { ClosureKeeps }
    ensures least { ClosureIsLeast }
    ensures grows { ClosureGrows }
    ensures conflict { ConflictGrows }
{}

/// A closure without conflict leaves nothing to derive, and what is derived and leaves nothing to derive is the closure. It stays
/// the closure where clauses come that are settled in it.
pub fn closed_levels()
    ensures closed { ClosureIsClosed }
    ensures closure { ClosedIsClosure }
    ensures stays { ClosureStays }
{}

/// Which clauses are absorbed, and how many further ones there can be that aren't.
pub fn absorbed_clauses()
    ensures free { AddedIsFree }
    ensures held { HeldIsAbsorbed }
    ensures fewer { FewerLeft }
    ensures most { AtMostLeft }
{}
