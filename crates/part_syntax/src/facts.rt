ghost use Rattle.std.specs.Prelude.{◌≡◌};
ghost use Rattle.grammar_laws.specs.Steps.{one, both, maybe, made, each, at_most, passes};
ghost use Rattle.grammar_laws.specs.Productions.{behind, first_of};
ghost use Rattle.formula_syntax.specs.Grammar.{sign};
ghost use Rattle.formula_syntax.specs.Given.{Reads};
ghost use Rattle.part_syntax.specs.Grammar as grammar;
ghost use Rattle.part_syntax.specs.Reading as readers;
ghost use Rattle.part_syntax.specs.Given.{IsFrugal};

use crate::literals::expr;
use crate::words;
use formula_syntax::{Mark, Reading, Stop, primes};
use sqlite_items::Items;
use tel_base::Text;
use tel_rule::{Arg, Fact};

/// The most arguments of a tuple behind the first one.
const FURTHER_ARGUMENTS: usize = 7;

/// An expression, or the numbers from one to another.
fn arg(reading: &mut Reading, levels: u8) -> Result<Arg, Stop>
    ensures reads { Reads (readers.read_arg levels reading.old) result reading.new }
    ensures room { IsFrugal reading.old reading.new }
{
    let first = expr(reading, levels)?;
    if !reading.take(Mark::Dots) {
        return Ok(Arg::One(first));
    }
    let last = expr(reading, levels)?;
    Ok(Arg::Range(first, last))
}

/// The next argument of a tuple, behind its comma.
fn next_arg(reading: &mut Reading, levels: u8) -> Result<Arg, Stop>
    ensures reads { Reads (made behind (both (one (sign Mark.Comma)) (readers.read_arg levels)) reading.old) result reading.new }
    ensures room { IsFrugal reading.old reading.new }
{
    words::expect(reading, Mark::Comma)?;
    arg(reading, levels)
}

/// A tuple of at most so many arguments behind the first one.
fn tuple_within(reading: &mut Reading, levels: u8, most: usize) -> Result<Items<Arg>, Stop>
    ensures reads { Reads (made grammar.chain_of (both (readers.read_arg levels)
        (at_most most (passes (sign Mark.Comma)) (both (one (sign Mark.Comma)) (readers.read_arg levels)))) reading.old) result reading.new }
    ensures room { IsFrugal reading.old reading.new }
{
    let mut tuple = Items::new(reading.alloc);
    let first = arg(reading, levels)?;
    tuple.push(first)?;
    for _turn in 0..most {
        if !reading.sees(Mark::Comma) {
            return Ok(tuple);
        }
        let next = next_arg(reading, levels)?;
        tuple.push(next)?;
    }
    Ok(tuple)
}

/// A tuple of at most eight arguments.
fn tuple(reading: &mut Reading, levels: u8) -> Result<Items<Arg>, Stop>
    ensures reads { Reads (readers.read_tuple levels reading.old) result reading.new }
    ensures room { IsFrugal reading.old reading.new }
{
    tuple_within(reading, levels, FURTHER_ARGUMENTS)
}

/// The next tuple of a fact, behind its semicolon.
fn next_tuple(reading: &mut Reading, levels: u8) -> Result<Items<Arg>, Stop>
    ensures reads { Reads (made behind (both (one (sign Mark.Semicolon)) (readers.read_tuple levels)) reading.old) result reading.new }
    ensures room { IsFrugal reading.old reading.new }
{
    words::expect(reading, Mark::Semicolon)?;
    tuple(reading, levels)
}

/// The tuples of a fact, at least one.
fn open_tuples(reading: &mut Reading, levels: u8) -> Result<Items<Items<Arg>>, Stop>
    ensures reads { Reads (made grammar.chain_of (both (readers.read_tuple levels)
        (each (passes (sign Mark.Semicolon)) (both (one (sign Mark.Semicolon)) (readers.read_tuple levels)))) reading.old) result reading.new }
    ensures room { IsFrugal reading.old reading.new }
{
    let mut tuples = Items::new(reading.alloc);
    let first = tuple(reading, levels)?;
    tuples.push(first)?;
    for _turn in 0..reading.left() {
        if !reading.sees(Mark::Semicolon) {
            return Ok(tuples);
        }
        let next = next_tuple(reading, levels)?;
        tuples.push(next)?;
    }
    Ok(tuples)
}

/// The tuples of a fact and the bracket behind them.
fn closed_tuples(reading: &mut Reading, levels: u8) -> Result<Items<Items<Arg>>, Stop>
    ensures reads { Reads (made first_of (both (made grammar.chain_of (both (readers.read_tuple levels)
        (each (passes (sign Mark.Semicolon)) (both (one (sign Mark.Semicolon)) (readers.read_tuple levels))))) (one (sign Mark.Close))) reading.old) result reading.new }
    ensures room { IsFrugal reading.old reading.new }
{
    let tuples = open_tuples(reading, levels)?;
    words::expect(reading, Mark::Close)?;
    Ok(tuples)
}

/// The tuples of a fact in brackets.
fn tuples(reading: &mut Reading, levels: u8) -> Result<Items<Items<Arg>>, Stop>
    ensures reads { Reads (readers.read_tuples levels reading.old) result reading.new }
    ensures room { IsFrugal reading.old reading.new }
{
    words::expect(reading, Mark::Open)?;
    closed_tuples(reading, levels)
}

/// The tuples of a fact: one without arguments where no bracket opens.
fn tuples_or_one(reading: &mut Reading, levels: u8) -> Result<Items<Items<Arg>>, Stop>
    ensures reads { Reads (made grammar.tuples_or_one (maybe (passes (sign Mark.Open)) (readers.read_tuples levels)) reading.old) result reading.new }
    ensures room { IsFrugal reading.old reading.new }
{
    if reading.sees(Mark::Open) {
        return tuples(reading, levels);
    }
    let mut tuples = Items::new(reading.alloc);
    tuples.push(Items::new(reading.alloc))?;
    Ok(tuples)
}

/// Facts: a sign, and a tuple of arguments for each atom.
pub fn facts(reading: &mut Reading, levels: u8) -> Result<Fact, Stop>
    ensures reads { Reads (readers.read_facts levels reading.old) result reading.new }
    ensures room { IsFrugal reading.old reading.new }
{
    let sign = reading.sign()?;
    let tuples = tuples_or_one(reading, levels)?;
    Ok(Fact {
        negative: sign.negative,
        before: primes(sign.before),
        name: Text::from_slice(reading.alloc, sign.name)?,
        after: primes(sign.after),
        tuples,
    })
}
