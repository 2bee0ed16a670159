//! Laws of the definitions: functions that do nothing, whose contracts are proved facts.

ghost use Rattle.completion.specs.Laws.{ClausesGiveCompletion, CompletionGivesClauses, StableSetsComplete, StableSetsSatisfy};

/// Of modules that their rules settle, the assignments that satisfy the clauses and the end of the last
/// state are exactly those that satisfy the completion of the length and hold no pair whole.
pub fn completion()
    ensures sound { ClausesGiveCompletion }
    ensures whole { CompletionGivesClauses }
{}

/// A stable set of the length, with the values of the bodies, satisfies the completion, and so the
/// clauses of the modules.
pub fn stable_sets()
    ensures complete { StableSetsComplete }
    ensures clauses { StableSetsSatisfy }
{}
