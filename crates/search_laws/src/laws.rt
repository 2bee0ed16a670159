//! Laws of the definitions: functions that do nothing, whose contracts are proved facts.

ghost use Rattle.search_laws.specs.Counted.{AtMostCounted};
ghost use Rattle.search_laws.specs.Founded.{FoundedIsStable, NoneIsStable, SomeIsUnstable, TrailIsFound, TrailIsUnstable, ClosedMakesTrue};
ghost use Rattle.search_laws.specs.Gaps.{ShapeHasValue, VisibleIsBase, NoGaps, GapsAreTotal};
ghost use Rattle.search_laws.specs.Levels.{LevelsAreTotal, LevelsAreStuck};
ghost use Rattle.search_laws.specs.Laws.{EndsAreApart, FoundIsOne, ValuesStand, FoundIsFinds, ModulesAreComposed, StableSetsAgree, ModulesAndLoopsAreRight, LearntAreRight, BlocksAreRight, KeptAreRight, NeverIsRight, FoundMeetsAll, NextIsNext, FoundInOrder, ClosedFoundAll, OrderOfTraces};

/// A walk ends in one way alone: it is closed, or a further clause is needed, or it finds one stable
/// set.
pub fn walk_ends()
    ensures apart { EndsAreApart }
    ensures one { FoundIsOne }
    ensures values { ValuesStand }
    ensures finds { FoundIsFinds }
{}

/// Held clauses are right: which of them are true in which stable sets, by their kind and the length at
/// which they came.
pub fn kept_clauses()
    ensures always { ModulesAndLoopsAreRight }
    ensures learnt { LearntAreRight }
    ensures blocks { BlocksAreRight }
    ensures later { KeptAreRight }
    ensures never { NeverIsRight }
    ensures found { FoundMeetsAll }
{}

/// The search finds the stable sets of a length in their order, each once, and all of them where its
/// walk is closed.
pub fn search_order()
    ensures next { NextIsNext }
    ensures order { FoundInOrder }
    ensures all { ClosedFoundAll }
    ensures traces { OrderOfTraces }
{}

/// The levels of a trail on which the search has decided the end, and then always the first visible
/// variable without a value, are the walk.
pub fn walk_levels()
    ensures total { LevelsAreTotal }
    ensures stuck { LevelsAreStuck }
{}

/// Lengths that are made of settled modules are as the laws of kept clauses and of the order ask.
pub fn composed_lengths()
    ensures composed { ModulesAreComposed }
    ensures stable { StableSetsAgree }
{}

/// The true variables of a total trail are stable exactly where no unfounded set holds one of them.
pub fn founded_trails()
    ensures founded { FoundedIsStable }
    ensures none { NoneIsStable }
    ensures some { SomeIsUnstable }
{}

/// A total trail whose levels are the walk is what the walk finds, or shows that a clause is needed.
pub fn found_trails()
    ensures found { TrailIsFound }
    ensures unstable { TrailIsUnstable }
    ensures closed { ClosedMakesTrue }
    ensures shapes { ShapeHasValue }
    ensures base { VisibleIsBase }
    ensures gaps { NoGaps }
    ensures total { GapsAreTotal }
{}

/// Over v variables at most 3^v clauses come that those before them don't absorb.
pub fn counted_clauses()
    ensures { AtMostCounted }
{}
