//! Laws of the definitions: functions that do nothing, whose contracts are proved facts.

ghost use Rattle.all_instances.specs.Laws.{LiveInstancesSuffice, ListedAreOfAll, ModelsOfAllAreListed};

/// The theory of a program has the temporal equilibrium models of all its instances, live or not, where traces and
/// HT-traces range over all ground atoms. In each of them an atom of no live instance is false at every instant.
pub fn live_instances_suffice()
    ensures { LiveInstancesSuffice }
{}

/// The traces that are listed for a length are the temporal equilibrium models of all instances: each is one, and
/// each one is what exactly one of them tells.
pub fn models_of_all_instances()
    ensures listed { ListedAreOfAll }
    ensures found { ModelsOfAllAreListed }
{}
