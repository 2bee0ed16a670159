//! Laws of the definitions: functions that do nothing, whose contracts are proved facts.

ghost use Rattle.theory_lists.specs.Laws.{AtomsAreOrdered, SameAtomsAreOne, AtomsOfTemplatesRise, ListsAreOfTheories, PrintsAreOfTheories, ListsPrintAsTheories};

/// The order of atoms is total, atoms are the same exactly where they are one, and the atoms of a template
/// strictly rise.
pub fn order_of_atoms()
    ensures total { AtomsAreOrdered }
    ensures same { SameAtomsAreOne }
    ensures rise { AtomsOfTemplatesRise }
{}

/// A template that means a theory lists its temporal equilibrium models, of each length, in the same order.
pub fn lists_of_theories()
    ensures { ListsAreOfTheories }
{}

/// A template that means a theory prints traces over its atoms as the theory does, and so its temporal equilibrium models.
pub fn prints_of_theories()
    ensures traces { PrintsAreOfTheories }
    ensures models { ListsPrintAsTheories }
{}
