//! Laws of the definitions: functions that do nothing, whose contracts are proved facts.

ghost use Rattle.back_jump.specs.Laws.{LoopIsFalseClause, BlockIsFalseClause};

/// The loop clause that a search for unfounded sets answers, and the blocking clause of a trail at whose level 1 the end holds, are false
/// clauses over the variables of the trail.
pub fn false_clauses()
    ensures loops { LoopIsFalseClause }
    ensures blocks { BlockIsFalseClause }
{}
