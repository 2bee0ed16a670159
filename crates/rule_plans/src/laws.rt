//! Laws of plans of rules: functions that do nothing, whose contracts are proved facts.

ghost use Rattle.rule_plans.specs.Laws.{RulePlansFindTheLive};

/// A search by a plan of a rule finds bindings, each once; those that make an instance are exactly the
/// live ones of the rule.
pub fn plans_of_rules()
    ensures { RulePlansFindTheLive }
{}
