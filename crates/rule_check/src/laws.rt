//! Laws of the definitions: functions that do nothing, whose contracts are proved facts.

ghost use Rattle.rule_check.specs.Laws.{FirstCauseIsOne, SoundHasNoCause, SomeOutcome};

/// A program has one first cause at the most, and none where no cause stands in it.
pub fn one_first_cause()
    ensures one { FirstCauseIsOne }
    ensures none { SoundHasNoCause }
{}

/// A program passes, and is a program with its constants replaced, or it has a first cause.
pub fn some_outcome()
    ensures { SomeOutcome }
{}
