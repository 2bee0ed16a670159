//! Laws of goals: functions that do nothing, whose contracts are proved facts.

ghost use Rattle.plan_order.specs.Laws.{OrderedGoalsAreRulePlans};

/// Steps that ask for exactly the goals of a rule, and can be run, are a plan of this rule.
pub fn orders_of_rule_goals()
    ensures { OrderedGoalsAreRulePlans }
{}
