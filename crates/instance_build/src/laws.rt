//! Laws of the definitions: functions that do nothing, whose contracts are proved facts.
ghost use Rattle.instance_build.specs.Laws.{InstancesMeanRules, InstancesAreInRange, InstancesAreGuarded, RowsMeanInstances, RowsAreInRange, RowsAreGuarded};

/// The instance of a rule demands what the rule says: a formula, read off the rule without nodes.
pub fn rules_mean()
    ensures { InstancesMeanRules }
{}

/// Where the numbers of a rule's atoms are in range, its instance and its nodes are.
pub fn rules_in_range()
    ensures { InstancesAreInRange }
{}

/// Where below a rule's head no arrow stands but below a `~`, none does in its instance.
pub fn rules_guarded()
    ensures { InstancesAreGuarded }
{}

/// Instances in a row demand what each of them does.
pub fn rows_mean()
    ensures { RowsMeanInstances }
{}

/// Instances in a row are in range, with all their nodes, where each of them is.
pub fn rows_in_range()
    ensures { RowsAreInRange }
{}

/// Instances in a row are guarded where each of them is.
pub fn rows_guarded()
    ensures { RowsAreGuarded }
{}
