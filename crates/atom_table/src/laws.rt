//! Laws of the definitions: functions that do nothing, whose contracts are proved facts.

ghost use Rattle.atom_table.specs.Laws.{ArgumentsHaveTheirValues, AddedAtomsAreThere, NumbersStandForAtoms, AtomsHaveNumbers};

/// The arguments of an atom under a binding are their values, where each has one.
pub fn values_of_arguments()
    ensures { ArgumentsHaveTheirValues }
{}

/// A set has the atoms that were added to it, and no others.
pub fn atoms_of_sets()
    ensures { AddedAtomsAreThere }
{}

/// Each atom of a list has a number, and that of sorted atoms is the place of the atom that stands for it.
pub fn numbers_of_atoms()
    ensures stand { NumbersStandForAtoms }
    ensures all { AtomsHaveNumbers }
{}
