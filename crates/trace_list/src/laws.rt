//! Laws of the definitions: functions that do nothing, whose contracts are proved facts.

ghost use Rattle.trace_list.specs.Reading.{FoundAreModels};
ghost use Rattle.trace_list.specs.Lengths.{NewHasLeft, ExtendedHasLength, LengthHasLeft, LeftStays, LengthHasVars};
ghost use Rattle.trace_list.specs.Listing.{ListedIsFront, ListedIsSmall};

/// The trace of a walk that is found is a temporal equilibrium model of its length.
pub fn found_models()
    ensures { FoundAreModels }
{}

/// How a search comes to the lengths of a program: with each module it has the next one, whatever was listed of those before.
pub fn program_lengths()
    ensures new { NewHasLeft }
    ensures extended { ExtendedHasLength }
    ensures left { LengthHasLeft }
    ensures stays { LeftStays }
    ensures vars { LengthHasVars }
{}

/// What a listing has come to is a front of the temporal equilibrium models of its length, in the order of traces, and the clauses
/// that were counted for it are fewer than there are over the variables of its search.
pub fn listed_traces()
    ensures front { ListedIsFront }
    ensures small { ListedIsSmall }
{}
