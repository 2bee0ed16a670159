//! Laws of the definitions: functions that do nothing, whose contracts are proved facts.

ghost use Rattle.atom_space.specs.Laws.{NamesApart, NumbersBelow};

/// The variables of a space have the numbers below its size, each one number of its own.
pub fn numbering()
    ensures apart { NamesApart }
    ensures below { NumbersBelow }
{}
