//! Laws of the definitions: functions that do nothing, whose contracts are proved facts.

ghost use Rattle.tel_semantics.specs.Table.{SatisfactionIsTable, OperatorsMeanTheirNames};
ghost use Rattle.tel_semantics.specs.Laws.{LooksInRange, Persists, NegationIsThere, NodesMeanOperators, TwoNotsAreANode, TwoNotsBeforeAreNodes, ModelsMeetAll, ListsEquilibria, ListRises};

/// Satisfaction is the table of the published logic, row by row, with its "some" and "every" over
/// all numbers.
pub fn table()
    ensures { SatisfactionIsTable }
{}

/// The operators of nodes mean what they are called: final is the last instant, always after is every
/// instant from this one on, and so on.
pub fn operators()
    ensures { OperatorsMeanTheirNames }
{}

/// The formula of a node is its operator over the formulas of its children.
pub fn nodes()
    ensures { NodesMeanOperators }
{}

/// A literal with two `not` means what it says where it is read as `not` of a node `~f`.
pub fn two_nots()
    ensures now { TwoNotsAreANode }
    ensures before { TwoNotsBeforeAreNodes }
{}

/// Satisfaction looks only at instants below the length, and at the atoms of the formula.
pub fn agreement()
    ensures { LooksInRange }
{}

/// What an HT-trace `(H, T)` satisfies, `(T, T)` satisfies.
pub fn persistence()
    ensures { Persists }
{}

/// A negation holds in an HT-trace `(H, T)` exactly where it holds in `(T, T)`.
pub fn negation_there()
    ensures { NegationIsThere }
{}

/// An HT-trace is a model of a program exactly where it satisfies each instance at each instant at
/// which the instance's part demands it, and at no instant an atom together with its negative.
pub fn models()
    ensures { ModelsMeetAll }
{}

/// A trace is in the list of a length exactly where it is a trace of that length over the program's
/// atoms, `(T, T)` is a model, and no `(H, T)` is one, for every `H` below `T` other than `T`.
pub fn equilibria()
    ensures { ListsEquilibria }
{}

/// The list of a length strictly rises in the order of traces, so each trace is in it once.
pub fn rising_list()
    ensures { ListRises }
{}
