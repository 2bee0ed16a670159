ghost use Rattle.std.specs.Prelude.{◌≡◌};
ghost use Rattle.grammar_laws.specs.Points.{begins};
ghost use Rattle.formula_syntax.specs.Reading as formulas;
ghost use Rattle.grammar_laws.specs.Steps.{one, maybe, either, made, passes};
ghost use Rattle.formula_syntax.specs.Grammar.{sign};
ghost use Rattle.formula_syntax.specs.Given.{Reads};
ghost use Rattle.part_syntax.specs.Grammar as grammar;
ghost use Rattle.part_syntax.specs.Reading as readers;
ghost use Rattle.part_syntax.specs.Given.{ReadsItem, IsFrugal};

use crate::facts::facts;
use crate::heads::head_of;
use crate::literals::{atom, expr, tail};
use crate::words;
use formula_syntax::{Mark, Reading, Sense, Stop};
use sqlite_items::Items;
use tel_rule::{Fact, Head, Kind, Literal, Part, Signature};

/// An item of a text: the part of the statements behind it, or what a statement says.
#[derive(Drop)]
pub enum Item {
    InPart(Part),
    Says(Kind),
}

/// A part of the program begins.
fn part_item(reading: &mut Reading) -> Result<Item, Stop>
    ensures reads { ReadsItem (readers.read_as grammar.part_item 0 reading.old) result reading.new }
    ensures room { IsFrugal reading.old reading.new }
{
    words::expect(reading, Mark::Program)?;
    let part = words::part(reading)?;
    words::expect(reading, Mark::Stop)?;
    Ok(Item::InPart(part))
}

/// A predicate: a name, which a `-` may stand before, and a number of arguments.
fn signature(reading: &mut Reading) -> Result<Signature, Stop>
    ensures reads { Reads (readers.read_as grammar.signature 0 reading.old) result reading.new }
    ensures room { IsFrugal reading.old reading.new }
{
    let negative = reading.take(Mark::Minus);
    let name = words::name(reading)?;
    words::expect(reading, Mark::Slash)?;
    let arity = words::arity(reading)?;
    Ok(Signature {
        negative,
        name,
        arity,
    })
}

/// The predicate that is shown, if there is one.
fn shown(reading: &mut Reading) -> Result<Option<Signature>, Stop>
    ensures reads { Reads (maybe readers.starts_signature (readers.read_as grammar.signature 0) reading.old) result reading.new }
    ensures room { IsFrugal reading.old reading.new }
{
    if reading.sees(Mark::Minus) || words::at_name(reading) {
        let signature = signature(reading)?;
        Ok(Some(signature))
    } else {
        Ok(None)
    }
}

/// What is shown.
fn show_item(reading: &mut Reading) -> Result<Item, Stop>
    ensures reads { ReadsItem (readers.read_as grammar.show_item 0 reading.old) result reading.new }
    ensures room { IsFrugal reading.old reading.new }
{
    words::expect(reading, Mark::Show)?;
    let shown = shown(reading)?;
    words::expect(reading, Mark::Stop)?;
    Ok(Item::Says(Kind::Show(shown)))
}

/// A constant and its expression.
fn const_item(reading: &mut Reading, levels: u8) -> Result<Item, Stop>
    ensures reads { ReadsItem (readers.read_as grammar.const_item levels reading.old) result reading.new }
    ensures room { IsFrugal reading.old reading.new }
{
    words::expect(reading, Mark::Const)?;
    let name = words::name(reading)?;
    words::expect(reading, Mark::Equal)?;
    let value = expr(reading, levels)?;
    words::expect(reading, Mark::Stop)?;
    Ok(Item::Says(Kind::Const(name, value)))
}

/// What stands behind facts: a stop, or the tail of a rule, where they are its head.
fn behind_facts(reading: &mut Reading, levels: u8, fact: Fact) -> Result<Item, Stop>
    ensures reads { ReadsItem (readers.read_behind levels fact (grammar.head_of fact) reading.old) result reading.new }
    ensures room { IsFrugal reading.old reading.new }
{
    if reading.sees(Mark::Stop) {
        words::expect(reading, Mark::Stop)?;
        return Ok(Item::Says(Kind::Facts(fact)));
    }
    match head_of(reading.alloc, fact)? {
        Some(head) => {
            let body = tail(reading, levels)?;
            Ok(Item::Says(Kind::Rule(head, body)))
        }
        None => Err(Stop::Unexpected),
    }
}

/// Facts, or a rule whose head is an atom.
fn fact_or_rule(reading: &mut Reading, levels: u8) -> Result<Item, Stop>
    ensures reads { ReadsItem (readers.read_fact_or_rule levels reading.old) result reading.new }
    ensures room { IsFrugal reading.old reading.new }
{
    let fact = facts(reading, levels)?;
    behind_facts(reading, levels, fact)
}

/// The head of a choice.
fn choice(reading: &mut Reading, levels: u8) -> Result<Head, Stop>
    ensures reads { Reads (readers.read_as grammar.choice levels reading.old) result reading.new }
    ensures room { IsFrugal reading.old reading.new }
{
    words::expect(reading, Mark::OpenBrace)?;
    let atom = atom(reading, levels)?;
    words::expect(reading, Mark::CloseBrace)?;
    Ok(Head::Choice(atom))
}

/// What stands behind the head of a choice: a stop, or the tail of a rule.
fn choice_body(reading: &mut Reading, levels: u8) -> Result<Items<Literal>, Stop>
    ensures reads { Reads (either (passes (sign Mark.Stop)) (made grammar.no_body (one (sign Mark.Stop))) (readers.read_tail levels) reading.old) result reading.new }
    ensures room { IsFrugal reading.old reading.new }
{
    if reading.take(Mark::Stop) {
        return Ok(Items::new(reading.alloc));
    }
    tail(reading, levels)
}

/// A choice.
fn choice_rule(reading: &mut Reading, levels: u8) -> Result<Item, Stop>
    ensures reads { ReadsItem (readers.read_as grammar.choice_rule levels reading.old) result reading.new }
    ensures room { IsFrugal reading.old reading.new }
{
    let head = choice(reading, levels)?;
    let body = choice_body(reading, levels)?;
    Ok(Item::Says(Kind::Rule(head, body)))
}

/// A constraint.
fn constraint(reading: &mut Reading, levels: u8) -> Result<Item, Stop>
    ensures reads { ReadsItem (readers.read_as grammar.constraint levels reading.old) result reading.new }
    ensures room { IsFrugal reading.old reading.new }
{
    let body = tail(reading, levels)?;
    Ok(Item::Says(Kind::Rule(Head::None, body)))
}

/// Whether a token comes next that an atom begins with.
fn at_atom(reading: &Reading) -> bool
    ensures { result ≡ begins formulas.starts_atom reading.now.words }
{
    matches!(
        reading.peek(),
        Some(Sense::Name(_) | Sense::Sign(Mark::Minus | Mark::Prime))
    )
}

/// A directive.
fn directive(reading: &mut Reading, levels: u8) -> Result<Item, Stop>
    ensures reads { ReadsItem (readers.read_as grammar.directive levels reading.old) result reading.new }
    ensures room { IsFrugal reading.old reading.new }
{
    if reading.sees(Mark::Program) {
        part_item(reading)
    } else if reading.sees(Mark::Const) {
        const_item(reading, levels)
    } else {
        show_item(reading)
    }
}

/// An item of a text.
pub fn next_item(reading: &mut Reading, levels: u8) -> Result<Item, Stop>
    ensures reads { ReadsItem (readers.read_item levels reading.old) result reading.new }
    ensures room { IsFrugal reading.old reading.new }
{
    if at_atom(reading) {
        fact_or_rule(reading, levels)
    } else if reading.sees(Mark::OpenBrace) {
        choice_rule(reading, levels)
    } else if reading.sees(Mark::If) {
        constraint(reading, levels)
    } else {
        directive(reading, levels)
    }
}

/// Whether a token comes next that an item begins with.
pub fn at_item(reading: &Reading) -> bool
    ensures { result ≡ begins readers.starts_item reading.now.words }
{
    matches!(
        reading.peek(),
        Some(
            Sense::Name(_)
                | Sense::Sign(
                    Mark::Minus
                        | Mark::Prime
                        | Mark::OpenBrace
                        | Mark::If
                        | Mark::Program
                        | Mark::Const
                        | Mark::Show
                )
        )
    )
}
