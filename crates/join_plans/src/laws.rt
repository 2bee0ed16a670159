//! Laws of plans: functions that do nothing, whose contracts are proved facts.

ghost use Rattle.join_plans.specs.Atoms.{FilledOnce, PlansAreAtoms};
ghost use Rattle.join_plans.specs.Count.{FewerMembers};
ghost use Rattle.join_plans.specs.Faults.{RangesAreExact};
ghost use Rattle.join_plans.specs.Goals.{AtomGoalsAreThePlan, FoundValuesPass, PlansMeetGoals};
ghost use Rattle.join_plans.specs.Join.{JoinIsExact};
ghost use Rattle.join_plans.specs.Once.{IndexIsExact, JoinFindsOnce};

/// A search by a plan finds exactly the bindings under which each step holds, each once where the rows of
/// each step are distinct; so it finds no more than there are. Rows that give nothing may be left out.
pub fn found_bindings()
    ensures exact { JoinIsExact }
    ensures once { JoinFindsOnce }
    ensures index { IndexIsExact }
    ensures fewer { FewerMembers }
{}

/// A search meets a fault that leaves the range exactly where some binding that it reaches has one first.
pub fn met_faults()
    ensures { RangesAreExact }
{}

/// The arguments of table atoms are rows exactly where the places behind the variables can be filled so
/// that the steps hold, and then they are filled in one way.
pub fn plans_of_atoms()
    ensures exact { PlansAreAtoms }
    ensures once { FilledOnce }
{}

/// A plan finds exactly the bindings that meet its goals, in whatever order they stand. The goals of
/// table atoms are the plan of these atoms. A test that all values pass which the goals give is passed by
/// all that is found.
pub fn goals_of_plans()
    ensures met { PlansMeetGoals }
    ensures atoms { AtomGoalsAreThePlan }
    ensures pass { FoundValuesPass }
{}
