ghost use Rattle.std.specs.Prelude.{◌≡◌, ◌+◌, ◌≤◌, suc, true, false};
ghost use Rattle.formula_syntax.specs.Points.{words_of};
ghost use Rattle.grammar_laws.specs.Points.{begins};
ghost use Rattle.grammar_laws.specs.Steps.{Got, one, both, maybe, made, passes, either};
ghost use Rattle.formula_syntax.specs.Reading as formulas;
ghost use Rattle.formula_syntax.specs.Grammar.{sign, count};
ghost use Rattle.grammar_laws.specs.Productions.{behind, first_of};
ghost use Rattle.formula_syntax.specs.Given.{Reads};
ghost use Rattle.part_syntax.specs.Grammar as grammar;
ghost use Rattle.part_syntax.specs.Reading as readers;
ghost use Rattle.part_syntax.specs.Given.{IsFrugal, body_or_none};

use crate::words;
use formula_syntax::{Mark, Reading, Sense, Stop, sense_of};
use sqlite_items::Items;
use tel_lex::Token;
use tel_rule::{Atom, Formula, LitItem, Literal};
use tel_term::Expr;

/// An expression, where one level more may be opened.
pub fn expr(reading: &mut Reading, levels: u8) -> Result<Expr, Stop>
    ensures reads { Reads (formulas.read_expr (suc levels) reading.old) result reading.new }
    ensures room { IsFrugal reading.old reading.new }
{
    reading.expr(u32::from(levels) + 1)
}

/// An atom, where one level more may be opened.
pub fn atom(reading: &mut Reading, levels: u8) -> Result<Atom, Stop>
    ensures reads { Reads (formulas.read_atom (suc levels) reading.old) result reading.new }
    ensures room { IsFrugal reading.old reading.new }
{
    reading.atom(u32::from(levels) + 1)
}

/// A formula, where one level more may be opened.
fn formula(reading: &mut Reading, levels: u8) -> Result<Formula, Stop>
    ensures reads { Reads (formulas.read_formula (suc levels) reading.old) result reading.new }
    ensures room { IsFrugal reading.old reading.new }
{
    reading.formula(u32::from(levels) + 1)
}

/// A temporal formula as a literal.
fn tel(reading: &mut Reading, levels: u8) -> Result<LitItem, Stop>
    ensures reads { Reads (readers.read_tel levels reading.old) result reading.new }
    ensures room { IsFrugal reading.old reading.new }
{
    words::expect(reading, Mark::Ampersand)?;
    words::tel_word(reading)?;
    words::expect(reading, Mark::OpenBrace)?;
    let formula = formula(reading, levels)?;
    words::expect(reading, Mark::CloseBrace)?;
    Ok(LitItem::Tel(formula))
}

/// Two expressions with a relation between them.
fn comparison(reading: &mut Reading, levels: u8) -> Result<LitItem, Stop>
    ensures reads { Reads (readers.read_comparison levels reading.old) result reading.new }
    ensures room { IsFrugal reading.old reading.new }
{
    let left = expr(reading, levels)?;
    let relation = words::relation(reading)?;
    let right = expr(reading, levels)?;
    Ok(LitItem::Compare(relation, left, right))
}

/// An atom as a literal.
fn atom_item(reading: &mut Reading, levels: u8) -> Result<LitItem, Stop>
    ensures reads { Reads (readers.read_atom_item levels reading.old) result reading.new }
    ensures room { IsFrugal reading.old reading.new }
{
    let atom = atom(reading, levels)?;
    Ok(LitItem::Atom(atom))
}

/// Whether the first token goes on with an expression or a comparison.
fn goes_on(tokens: &[Token]) -> bool
    ensures { result ≡ begins readers.goes_on (words_of tokens.now) }
{
    match tokens {
        [token, ..] => matches!(
            sense_of(token),
            Sense::Sign(
                Mark::Star
                    | Mark::Slash
                    | Mark::Backslash
                    | Mark::Plus
                    | Mark::Minus
                    | Mark::Equal
                    | Mark::Unequal
                    | Mark::Less
                    | Mark::LessEqual
                    | Mark::Greater
                    | Mark::GreaterEqual
            )
        ),
        [] => false,
    }
}

/// Whether tokens behind a `-` are an expression and no atom.
fn compares_behind(tokens: &[Token]) -> bool
    ensures { result ≡ readers.compares_behind (words_of tokens.now) }
{
    match tokens {
        [token, more @ ..] => match sense_of(token) {
            Sense::Name(_) => goes_on(more),
            Sense::Sign(Mark::Prime) => false,
            _ => true,
        },
        [] => true,
    }
}

/// Whether tokens that are an atom or a comparison are a comparison.
#[tactic(auto, unfolding(crate::specs::Reading::compares))]
fn compares(tokens: &[Token]) -> bool
    ensures { result ≡ readers.compares (words_of tokens.now) }
{
    match tokens {
        [token, more @ ..] => match sense_of(token) {
            Sense::Sign(Mark::Minus) => compares_behind(more),
            Sense::Name(_) => goes_on(more),
            Sense::Sign(Mark::Prime) => false,
            _ => true,
        },
        [] => false,
    }
}

/// An atom or a comparison.
fn plain_item(reading: &mut Reading, levels: u8) -> Result<LitItem, Stop>
    ensures reads { Reads (readers.read_plain levels reading.old) result reading.new }
    ensures room { IsFrugal reading.old reading.new }
{
    if compares(reading.tokens) {
        comparison(reading, levels)
    } else {
        atom_item(reading, levels)
    }
}

/// What stands behind a `not`.
fn negated_item(reading: &mut Reading, levels: u8) -> Result<LitItem, Stop>
    ensures reads { Reads (readers.read_item_of levels reading.old) result reading.new }
    ensures room { IsFrugal reading.old reading.new }
{
    if reading.sees(Mark::Ampersand) {
        tel(reading, levels)
    } else {
        atom_item(reading, levels)
    }
}

/// How many `not` stand here, up to one.
fn further_nots(reading: &mut Reading) -> u32
    ensures reads { made count (maybe (passes (sign Mark.Not)) (one (sign Mark.Not))) reading.old ≡ Got result reading.new }
    ensures few { result ≤ 1 }
    ensures room { IsFrugal reading.old reading.new }
{
    if reading.sees(Mark::Not) {
        reading.skip();
        1
    } else {
        0
    }
}

/// A literal behind `not`.
fn negated(reading: &mut Reading, levels: u8) -> Result<Literal, Stop>
    ensures reads { Reads (readers.read_negated levels reading.old) result reading.new }
    ensures room { IsFrugal reading.old reading.new }
{
    words::expect(reading, Mark::Not)?;
    let further = further_nots(reading);
    let item = negated_item(reading, levels)?;
    Ok(Literal {
        nots: 1 + further,
        item,
    })
}

/// What a literal without `not` speaks of.
fn item(reading: &mut Reading, levels: u8) -> Result<LitItem, Stop>
    ensures reads { Reads (either (passes (sign Mark.Ampersand)) (readers.read_tel levels) (readers.read_plain levels) reading.old) result reading.new }
    ensures room { IsFrugal reading.old reading.new }
{
    if reading.sees(Mark::Ampersand) {
        tel(reading, levels)
    } else {
        plain_item(reading, levels)
    }
}

/// A literal of a body.
fn literal(reading: &mut Reading, levels: u8) -> Result<Literal, Stop>
    ensures reads { Reads (readers.read_literal levels reading.old) result reading.new }
    ensures room { IsFrugal reading.old reading.new }
{
    if reading.sees(Mark::Not) {
        return negated(reading, levels);
    }
    let item = item(reading, levels)?;
    Ok(Literal { nots: 0, item })
}

/// The next literal of a body, behind its separator.
fn next_literal(reading: &mut Reading, levels: u8) -> Result<Literal, Stop>
    ensures reads { Reads (made behind (both (one grammar.separator) (readers.read_literal levels)) reading.old) result reading.new }
    ensures room { IsFrugal reading.old reading.new }
{
    words::separator(reading)?;
    literal(reading, levels)
}

/// The literals of a body, at least one.
fn body(reading: &mut Reading, levels: u8) -> Result<Items<Literal>, Stop>
    ensures reads { Reads (readers.read_body levels reading.old) result reading.new }
    ensures room { IsFrugal reading.old reading.new }
{
    let mut body = Items::new(reading.alloc);
    let first = literal(reading, levels)?;
    body.push(first)?;
    for _turn in 0..reading.left() {
        if !words::at_separator(reading) {
            return Ok(body);
        }
        let next = next_literal(reading, levels)?;
        body.push(next)?;
    }
    Ok(body)
}

/// The literals of a body and the stop behind them.
fn stopped_body(reading: &mut Reading, levels: u8) -> Result<Items<Literal>, Stop>
    ensures reads { Reads (made first_of (both (readers.read_body levels) (one (sign Mark.Stop))) reading.old) result reading.new }
    ensures room { IsFrugal reading.old reading.new }
{
    let body = body(reading, levels)?;
    words::expect(reading, Mark::Stop)?;
    Ok(body)
}

/// Whether a stop comes next, where no literal begins.
fn ends_body(reading: &Reading) -> bool
    ensures stop { result ≡ begins (passes (sign Mark.Stop)) reading.now.words }
    ensures none { result ≡ true → begins readers.starts_literal reading.now.words ≡ false }
{
    matches!(reading.peek(), Some(Sense::Sign(Mark::Stop)))
}

/// The literals of a body, or none, and the stop behind them.
fn body_or_none(reading: &mut Reading, levels: u8) -> Result<Items<Literal>, Stop>
    ensures reads { Reads (made body_or_none (both (maybe readers.starts_literal (readers.read_body levels)) (one (sign Mark.Stop))) reading.old) result reading.new }
    ensures room { IsFrugal reading.old reading.new }
{
    if ends_body(reading) {
        words::expect(reading, Mark::Stop)?;
        return Ok(Items::new(reading.alloc));
    }
    stopped_body(reading, levels)
}

/// What stands behind the head of a rule: `:-`, the body and the stop.
pub fn tail(reading: &mut Reading, levels: u8) -> Result<Items<Literal>, Stop>
    ensures reads { Reads (readers.read_tail levels reading.old) result reading.new }
    ensures room { IsFrugal reading.old reading.new }
{
    words::expect(reading, Mark::If)?;
    body_or_none(reading, levels)
}
