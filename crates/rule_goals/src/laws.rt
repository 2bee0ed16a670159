//! Laws of the goals of bodies: functions that do nothing, whose contracts are proved facts.

ghost use Rattle.rule_goals.specs.Laws.{GoalsOfBodiesAreRuleGoals, BoundRulesHaveOrders};

/// The goals of a body are goals of its rule: steps that ask for them are a plan of the rule.
pub fn goals_of_bodies()
    ensures { GoalsOfBodiesAreRuleGoals }
{}

/// The goals of a rule whose variables are all bound have an order in which each place gets a value.
pub fn orders_of_bound_rules()
    ensures { BoundRulesHaveOrders }
{}
