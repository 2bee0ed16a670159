//! Laws of faults: functions that do nothing, whose contracts are proved facts.
ghost use Rattle.range_faults.specs.Laws.{RangesAreFound};

/// A rule leaves the range exactly where a search over the rows of its tables finds values from which its
/// setting equations stop, and under which its other arguments agree with the rows.
pub fn ranges_of_rules()
    ensures { RangesAreFound }
{}
