//! Laws of the definitions: functions that do nothing, whose contracts are proved facts.

ghost use Rattle.stable_models.specs.Laws.{ModelsAreStable, StableAreModels, SetsDiffer, NodesOfSupported, StableAreSupported, NodesOfStable, NodesOfClosed, ModelsAreClosed, ClosedAreModels, SetsHaveBodies, TemplatesAreSettled, TemplatesAreApart, TemplatesArePlain, ModelsAreValued, ModelsSatisfyClauses};

/// In a supported set of the program of a length, and so in a stable one, the variable of a node is
/// true exactly where its formula holds in the trace of the set.
pub fn nodes()
    ensures supported { NodesOfSupported }
    ensures sound { StableAreSupported }
    ensures stable { NodesOfStable }
    ensures closed { NodesOfClosed }
{}

/// The sets that are closed under the reduct by the set of a model are those of the models below it.
pub fn closed_sets()
    ensures closed { ModelsAreClosed }
    ensures models { ClosedAreModels }
{}

/// The temporal equilibrium models of a length are the stable sets of its program, one to one.
pub fn stable_sets()
    ensures models { ModelsAreStable }
    ensures sets { StableAreModels }
    ensures one { SetsDiffer }
{}

/// The set of a trace with the variables of its bodies differs in these alone, and each has the truth
/// of its body.
pub fn sets_with_bodies()
    ensures { SetsHaveBodies }
{}

/// The modules of a program are settled, at every length: their rules are those of their bodies, and
/// each variable of an atom or a node is of one state. Their ends and open variables are apart from
/// these, and but for the variables of their bodies they speak of atoms, nodes and ends.
pub fn settled_modules()
    ensures settled { TemplatesAreSettled }
    ensures apart { TemplatesAreApart }
    ensures plain { TemplatesArePlain }
{}

/// The set of each temporal equilibrium model of a length, with the values of the bodies, makes every
/// clause of the modules true.
pub fn model_clauses()
    ensures valued { ModelsAreValued }
    ensures clauses { ModelsSatisfyClauses }
{}
