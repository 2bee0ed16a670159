//! Laws of the definitions: functions that do nothing, whose contracts are proved facts.

ghost use Rattle.rule_constants.specs.Laws.{OneValue, ReplacedIsOne};

/// A definition has one value, and a program has one program with its constants replaced.
pub fn values_of_constants()
    ensures value { OneValue }
    ensures replaced { ReplacedIsOne }
{}
