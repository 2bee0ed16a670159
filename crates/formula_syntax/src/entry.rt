ghost use Rattle.std.specs.Prelude.{◌≡◌, ℕ, ◌+◌, ◌-◌, ◌^◌, ◌<◌, ◌≤◌, length, IfOk, IfErr};
ghost use Rattle.grammar_laws.specs.Steps.{Unexpected, Deep};
ghost use Rattle.formula_syntax.specs.Points.{Reader};
ghost use Rattle.formula_syntax.specs.Reading.{read_expr, read_formula};
ghost use Rattle.formula_syntax.specs.Grammar.{IsExpr, IsFormula};
ghost use Rattle.formula_syntax.specs.Reached.{StandsUpTo, SyntaxAt, TooDeepAt};
ghost use Rattle.formula_syntax.specs.Given.{Reads, Onward, ReadUpTo, StopsAt, IfSyntax, IfTooDeep, Grows, fault_of, most_levels};

use crate::fault::FormulaFault;
use crate::names::Names;
use crate::reading::{Reading, Stop};
use std::alloc::Global;
use tel_lex::Token;
use tel_rule::Formula;
use tel_term::Expr;

/// How many levels may be open at once.
const LEVELS: u32 = 64;

/// The fault of a reading that stops at this token.
fn fault(stop: Stop, place: usize) -> FormulaFault
    ensures { result ≡ fault_of stop place }
{
    match stop {
        Stop::Unexpected => FormulaFault::Syntax(place),
        Stop::Deep => FormulaFault::TooDeep(place),
        Stop::Memory => FormulaFault::Memory,
    }
}

/// What is read of tokens.
trait Tree: Drop {
    // Its reader, for each number of levels.
    ghost reader: { ℕ → Reader Self };

    /// The tree that a reading goes on with, where at most so many levels are open at once.
    fn go_on(reading: &mut Reading, levels: u32) -> Result<Self, Stop>
        ensures reads { Reads (reader levels reading.old) result reading.new }
        ensures onward { Onward reading.old reading.new };
}

impl Tree for Expr {
    ghost reader = { read_expr };

    fn go_on(reading: &mut Reading, levels: u32) -> Result<Expr, Stop> {
        reading.expr(levels)
    }
}

impl Tree for Formula {
    ghost reader = { read_formula };

    fn go_on(reading: &mut Reading, levels: u32) -> Result<Formula, Stop> {
        reading.formula(levels)
    }
}

/// The tree that is read from this token on, where at most so many levels are open at once, and the
/// index of the token behind it.
fn read<T: Tree>(
    alloc: Global,
    tokens: &[Token<'_>],
    place: usize,
    levels: u32,
    names: &mut Names,
) -> Result<(T, usize), FormulaFault>
    requires within { place ≤ length tokens.now }
    requires symbols { length names.old.symbols + (length tokens.now - place) < 2 ^ 32 - 1 }
    requires vars { length names.old.vars + (length tokens.now - place) < 2 ^ 32 - 1 }
    ensures ok { IfOk result (λ read. ReadUpTo (T.reader levels) names.old names.new tokens.now place read.0 read.1) }
    ensures syntax { IfErr result (λ fault. IfSyntax fault (λ end. StopsAt (T.reader levels) Unexpected names.old tokens.now place end)) }
    ensures too_deep { IfErr result (λ fault. IfTooDeep fault (λ end. StopsAt (T.reader levels) Deep names.old tokens.now place end)) }
    ensures grows { Grows names.old names.new }
{
    let mut reading = Reading::new(alloc, tokens, place, names);
    let outcome = T::go_on(&mut reading, levels);
    let end = reading.finish(names, tokens.len());
    match outcome {
        Ok(tree) => Ok((tree, end)),
        Err(stop) => Err(fault(stop, end)),
    }
}

/// Reads the longest expression that begins at the token at `place`, and gives the index of the token
/// behind it. `*`, `/` and `\` bind tighter than `+` and `-`. A `-` before a value and brackets open a
/// level, and at most 64 are open at once.
///
/// The names and strings, and the variables, that are seen are put behind those of `names`, also
/// where an error follows. There must be numbers for one more of each for each token from there on.
///
/// `Syntax` gives the first token with which the tokens begin no expression, and `TooDeep` the one that
/// opens a 65th level. `Memory` is want of memory.
pub fn expr(
    alloc: Global,
    tokens: &[Token<'_>],
    place: usize,
    names: &mut Names,
) -> Result<(Expr, usize), FormulaFault>
    requires within { place ≤ length tokens.now }
    requires symbols { length names.old.symbols + (length tokens.now - place) < 2 ^ 32 - 1 }
    requires vars { length names.old.vars + (length tokens.now - place) < 2 ^ 32 - 1 }
    ensures ok { IfOk result (λ read. StandsUpTo IsExpr most_levels names.old names.new tokens.now place read.0 read.1) }
    ensures syntax { IfErr result (λ fault. IfSyntax fault (λ end. SyntaxAt IsExpr most_levels names.old tokens.now place end)) }
    ensures too_deep { IfErr result (λ fault. IfTooDeep fault (λ end. TooDeepAt IsExpr most_levels names.old tokens.now place end)) }
    ensures grows { Grows names.old names.new }
{
    read(alloc, tokens, place, LEVELS, names)
}

/// Reads the longest formula that begins at the token at `place`, and gives the index of the token
/// behind it. Tightest are the operators before a formula, then `<?`, `<*`, `>?` and `>*`, then `&`,
/// then `|`, and last `->`, `<-` and `<>`. A chain of `&` or of `|` is one node, and no other operator
/// between formulas is chained. An operator before a formula and brackets open a level, and at most
/// 64 are open at once, levels of expressions among them.
///
/// The names and strings, and the variables, that are seen are put behind those of `names`, also
/// where an error follows. There must be numbers for one more of each for each token from there on.
///
/// `Syntax` gives the first token with which the tokens begin no formula, and `TooDeep` the one that
/// opens a 65th level. `Memory` is want of memory.
pub fn formula(
    alloc: Global,
    tokens: &[Token<'_>],
    place: usize,
    names: &mut Names,
) -> Result<(Formula, usize), FormulaFault>
    requires within { place ≤ length tokens.now }
    requires symbols { length names.old.symbols + (length tokens.now - place) < 2 ^ 32 - 1 }
    requires vars { length names.old.vars + (length tokens.now - place) < 2 ^ 32 - 1 }
    ensures ok { IfOk result (λ read. StandsUpTo IsFormula most_levels names.old names.new tokens.now place read.0 read.1) }
    ensures syntax { IfErr result (λ fault. IfSyntax fault (λ end. SyntaxAt IsFormula most_levels names.old tokens.now place end)) }
    ensures too_deep { IfErr result (λ fault. IfTooDeep fault (λ end. TooDeepAt IsFormula most_levels names.old tokens.now place end)) }
    ensures grows { Grows names.old names.new }
{
    read(alloc, tokens, place, LEVELS, names)
}
