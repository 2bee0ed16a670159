//! Laws of the definitions: functions that do nothing, whose contracts are proved facts.

ghost use Rattle.tel_rule.specs.Laws.{RisingSetRises, RisingSetHasTheNames, RisingListsAreSets};

/// The rising set of names is the one list that strictly rises and has these members.
pub fn rising_sets()
    ensures rises { RisingSetRises }
    ensures members { RisingSetHasTheNames }
    ensures one { RisingListsAreSets }
{}
