//! Laws of the definitions: functions that do nothing, whose contracts are proved facts.

ghost use Rattle.search_log.specs.Laws.{OrderIsAlike, AlikeDerive, AlikeAbsorb, AlikeCut, AlikeBlock, OrderIsWritten, CameIsSearched, LinesAreAlike, AlikeLengthLog};

/// Nothing that a log says of its clauses asks for the order of their literals.
pub fn logs_are_alike()
    ensures order { OrderIsAlike }
    ensures derive { AlikeDerive }
    ensures absorb { AlikeAbsorb }
    ensures cut { AlikeCut }
    ensures block { AlikeBlock }
    ensures length { AlikeLengthLog }
{}

/// The lines of the clauses that came to be held at a length are those of a valid log.
pub fn searched_lines()
    ensures written { OrderIsWritten }
    ensures searched { CameIsSearched }
    ensures alike { LinesAreAlike }
{}
