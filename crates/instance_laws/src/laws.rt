//! Laws of the definitions: functions that do nothing, whose contracts are proved facts.

ghost use Rattle.instance_laws.specs.Laws.{FirstLeavingIsOne, RowsAreFewOrMore, RowsAreInstances, SomeOrNoneLeaves};

/// More rows than a limit are more instances, since each row of a table is the instance of a fact.
pub fn rows_are_instances()
    ensures { RowsAreInstances }
{}

/// There are more rows than a limit, or there are not.
pub fn few_rows_or_more()
    ensures { RowsAreFewOrMore }
{}

/// No statement leaves the range of numbers, or there is a first one that does, and then it stands at one place.
pub fn some_or_none_leaves()
    ensures some { SomeOrNoneLeaves }
    ensures one { FirstLeavingIsOne }
{}
