//! Laws of the definitions: functions that do nothing, whose contracts are proved facts.

ghost use Rattle.template_lengths.specs.Laws.{TemplatesAreModules, TemplatesAreRanked, TemplatesAreComposed, TemplatesAreVisible, TrailsAreTotal, SetsAreOrdered};

/// The modules of a program are as the laws of the search ask: they speak of their heads, ends and open
/// variables alone, the shape of a node speaks of nodes of lower ranks, and their lengths are composed.
/// The variables of the atoms of a length stand by state and then by atom.
pub fn composed_templates()
    ensures modules { TemplatesAreModules }
    ensures ranked { TemplatesAreRanked }
    ensures composed { TemplatesAreComposed }
    ensures visible { TemplatesAreVisible }
{}

/// A closed trail with the clauses of the modules of a length, the end of the length and a value for
/// each atom of it makes all these clauses true, and has a value for each body.
pub fn total_trails()
    ensures { TrailsAreTotal }
{}

/// The order of the sets of traces along the variables of a length is the order of traces.
pub fn ordered_sets()
    ensures { SetsAreOrdered }
{}
