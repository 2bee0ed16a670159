//! Laws of binding: functions that do nothing, whose contracts are proved facts.

ghost use Rattle.rule_binding.specs.Laws.{SettingsEnd, SettingsAreOne, SettingsAreInSomeOrder, OrderBindsTheSame, FirstUnboundIsOne};

/// A statement has setting equations, in their order, and no others.
pub fn setting_equations()
    ensures end { SettingsEnd }
    ensures one { SettingsAreOne }
{}

/// Which variables are bound doesn't depend on the order in which equations set them.
pub fn order_of_settings()
    ensures some_order { SettingsAreInSomeOrder }
    ensures same { OrderBindsTheSame }
{}

/// A statement has one first unbound variable, or none.
pub fn one_first_unbound()
    ensures { FirstUnboundIsOne }
{}
