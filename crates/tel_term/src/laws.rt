//! Laws of the definitions: functions that do nothing, whose contracts are proved facts.

ghost use Rattle.tel_term.specs.Order.{TermsAreOrdered, LevelTermsAreOne, ValuesAreOrdered, LevelValuesAreOne};
ghost use Rattle.tel_term.specs.Laws.{TermEqDecides, ValuesAreDistinct, ValuesStandForTerms, TermsHaveOneValue, TableGrows, TableGrowsByOne, AskedIsKnown, KnownChangesNothing, ValueStays, StaysDistinct, StaysSymbols};

/// The test of two terms tells whether they are one.
pub fn equal_terms()
    ensures { TermEqDecides }
{}

/// Values stand for terms one to one.
pub fn values_of_terms()
    ensures distinct { ValuesAreDistinct }
    ensures stand { ValuesStandForTerms }
    ensures one { TermsHaveOneValue }
{}

/// A table grows at its end alone and stays a table, and each term keeps its value.
pub fn growing_tables()
    ensures end { TableGrows }
    ensures one { TableGrowsByOne }
    ensures known { AskedIsKnown }
    ensures again { KnownChangesNothing }
    ensures stays { ValueStays }
    ensures distinct { StaysDistinct }
    ensures symbols { StaysSymbols }
{}

/// The order of terms is total, and so is that of values, and only what is one is level.
pub fn order_of_terms()
    ensures terms { TermsAreOrdered }
    ensures level { LevelTermsAreOne }
    ensures values { ValuesAreOrdered }
    ensures level_values { LevelValuesAreOne }
{}
