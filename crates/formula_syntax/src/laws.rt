//! Laws of the grammar: functions that do nothing, whose contracts are proved facts.

ghost use Rattle.formula_syntax.specs.Grammar.{IsExpr, IsFormula};
ghost use Rattle.grammar_laws.specs.Refusals.{OneOutcome};
ghost use Rattle.formula_syntax.specs.Reached.{OneAnswer, OneExpr, OneFormula};

/// Words are at most one expression and at most one formula, with the same names behind them.
pub fn one_tree()
    ensures expr { OneExpr }
    ensures formula { OneFormula }
{}

/// Wherever a reading may begin, there is one outcome, whatever words follow: the longest expression
/// with the names and words behind it, or the word that is unexpected or one level too deep. The same
/// holds of formulas.
pub fn one_outcome()
    ensures expr { OneOutcome IsExpr }
    ensures formula { OneOutcome IsFormula }
{}

/// At a token `expr` has one answer but for want of memory, and so has `formula`: a tree and its end, or one
/// of the two faults and its token.
pub fn one_answer()
    ensures expr { OneAnswer IsExpr }
    ensures formula { OneAnswer IsFormula }
{}
