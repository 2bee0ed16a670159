//! Laws of the definitions: functions that do nothing, whose contracts are proved facts.

ghost use Rattle.live_instances.specs.Laws.{BindingsAreOrdered, LevelBindingsAreOne, LiveBindingsAreOne, OutcomesAreOne, RulesLeaveRange};

/// The order of bindings is total, and bindings of one program that are level are one.
pub fn order_of_bindings()
    ensures total { BindingsAreOrdered }
    ensures level { LevelBindingsAreOne }
{}

/// A rule has one list of live bindings.
pub fn live_bindings()
    ensures { LiveBindingsAreOne }
{}

/// A binding that is reached has one first fault, or none. Which setting equations it is reached by is
/// settled by the rule.
pub fn one_outcome()
    ensures one { OutcomesAreOne }
    ensures range { RulesLeaveRange }
{}
