//! Laws of the definitions: functions that do nothing, whose contracts are proved facts.

ghost use Rattle.program_theory.specs.Laws.{TheoriesAreOne, ProgramsHaveInstances, InstancesHaveTheories, TemplatesMeanTheories, TemplatesAreCounted};

/// A program has at most one list of live instances, and at most one theory.
pub fn one_theory()
    ensures { TheoriesAreOne }
{}

/// Each program has live instances, and a theory with them.
pub fn some_theory()
    ensures instances { ProgramsHaveInstances }
    ensures theory { InstancesHaveTheories }
{}

/// The template of a program means its theory, and has as many nodes and instances as are counted.
pub fn templates_mean_theories()
    ensures means { TemplatesMeanTheories }
    ensures counted { TemplatesAreCounted }
{}
