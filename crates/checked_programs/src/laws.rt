//! Laws of programs as they are read and checked: functions that do nothing, whose contracts are proved facts.

ghost use Rattle.checked_programs.specs.Laws.{ProgramsAreWithin, ReplacedAreWithin, ProgramsHaveFewNots, ReplacedHaveFewNots, SoundProgramsAreBound, ReplacedAreSound, ProgramsHaveTables, ReplacedHaveTables, ProgramsHaveFewStatements, ReplacedHaveFewStatements, ProgramsAreReadable, CheckedProgramsAreReady};

/// The expressions of the program that texts are speak of its names and strings alone, of numbers in range, and of the
/// variables of their statement. So do those of the program with its constants replaced by their values.
pub fn terms_of_programs()
    ensures read { ProgramsAreWithin }
    ensures replaced { ReplacedAreWithin }
{}

/// No literal of the program that texts are stands behind more than two `not`, with its constants replaced or not.
pub fn nots_of_programs()
    ensures read { ProgramsHaveFewNots }
    ensures replaced { ReplacedHaveFewNots }
{}

/// Where no cause stands in a program, the variables of each statement are bound and the arrows of each rule with a head
/// are guarded. With its constants replaced no cause stands in it either.
pub fn sound_programs()
    ensures bound { SoundProgramsAreBound }
    ensures replaced { ReplacedAreSound }
{}

/// The symbols of the program that texts of fewer than 2^32 bytes are stand once each and have numbers of 32 bits, and so
/// do its statements, with its constants replaced or not.
pub fn tables_of_programs()
    ensures read { ProgramsHaveTables }
    ensures replaced { ReplacedHaveTables }
    ensures statements { ProgramsHaveFewStatements }
    ensures replaced_statements { ReplacedHaveFewStatements }
{}

/// All of this of the program that texts of fewer than 2^32 bytes are; and where no cause stands in a program, that with its
/// constants replaced it can be instantiated.
pub fn ready_programs()
    ensures read { ProgramsAreReadable }
    ensures checked { CheckedProgramsAreReady }
{}
