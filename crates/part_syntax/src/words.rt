ghost use Rattle.std.specs.Prelude.{◌≡◌, ◌<◌, ◌^◌};
ghost use Rattle.std.specs.Option.{option_map, option_and_then};
ghost use Rattle.grammar_laws.specs.Points.{begins};
ghost use Rattle.grammar_laws.specs.Steps.{one, passes};
ghost use Rattle.formula_syntax.specs.Grammar as formulas;
ghost use Rattle.formula_syntax.specs.Given.{Reads, said};
ghost use Rattle.part_syntax.specs.Grammar as grammar;
ghost use Rattle.part_syntax.specs.Given.{IsFrugal};

use formula_syntax::{Mark, Reading, Sense, Stop, number_of};
use tel_base::Text;
use tel_rule::{Part, Relation};

/// Takes this sign, which must come next.
pub fn expect(reading: &mut Reading, mark: Mark) -> Result<(), Stop>
    ensures reads { Reads (one (formulas.sign mark) reading.old) result reading.new }
    ensures room { IsFrugal reading.old reading.new }
{
    reading.expect(mark)
}

/// Whether a `,` or a `;` comes next.
pub fn at_separator(reading: &Reading) -> bool
    ensures { result ≡ begins (passes grammar.separator) reading.now.words }
{
    matches!(
        reading.peek(),
        Some(Sense::Sign(Mark::Comma | Mark::Semicolon))
    )
}

/// Takes a `,` or a `;`.
pub fn separator(reading: &mut Reading) -> Result<(), Stop>
    ensures reads { Reads (one grammar.separator reading.old) result reading.new }
    ensures room { IsFrugal reading.old reading.new }
{
    if !at_separator(reading) {
        return Err(Stop::Unexpected);
    }
    reading.skip();
    Ok(())
}

/// Whether the name `tel` comes next.
fn at_tel_word(reading: &Reading) -> bool
    ensures { result ≡ begins (passes grammar.tel_word) reading.now.words }
{
    match reading.peek() {
        Some(Sense::Name(text)) => text == b"tel".as_slice(),
        _ => false,
    }
}

/// Takes the name `tel`.
pub fn tel_word(reading: &mut Reading) -> Result<(), Stop>
    ensures reads { Reads (one grammar.tel_word reading.old) result reading.new }
    ensures room { IsFrugal reading.old reading.new }
{
    if !at_tel_word(reading) {
        return Err(Stop::Unexpected);
    }
    reading.skip();
    Ok(())
}

/// Whether a name comes next.
pub fn at_name(reading: &Reading) -> bool
    ensures { result ≡ begins (passes formulas.name) reading.now.words }
{
    matches!(reading.peek(), Some(Sense::Name(_)))
}

/// Takes a name.
pub fn name(reading: &mut Reading) -> Result<Text, Stop>
    ensures reads { Reads (one formulas.name reading.old) result reading.new }
    ensures room { IsFrugal reading.old reading.new }
{
    match reading.peek() {
        Some(Sense::Name(text)) => {
            let name = Text::from_slice(reading.alloc, text)?;
            reading.skip();
            Ok(name)
        }
        _ => Err(Stop::Unexpected),
    }
}

/// The part of this name.
fn part_named(name: &[u8]) -> Option<Part>
    ensures { result ≡ grammar.part_named name.now }
{
    if name == b"initial".as_slice() {
        Some(Part::Initial)
    } else if name == b"dynamic".as_slice() {
        Some(Part::Dynamic)
    } else if name == b"always".as_slice() {
        Some(Part::Always)
    } else if name == b"final".as_slice() {
        Some(Part::Final)
    } else {
        None
    }
}

fn part_of(next: Option<Sense>) -> Option<Part>
    ensures { result ≡ option_and_then grammar.part_of (option_map said next.entry) }
{
    match next {
        Some(Sense::Name(name)) => part_named(name),
        _ => None,
    }
}

/// Takes the name of a part.
pub fn part(reading: &mut Reading) -> Result<Part, Stop>
    ensures reads { Reads (one grammar.part reading.old) result reading.new }
    ensures room { IsFrugal reading.old reading.new }
{
    match part_of(reading.peek()) {
        Some(part) => {
            reading.skip();
            Ok(part)
        }
        None => Err(Stop::Unexpected),
    }
}

fn arity_of(next: Option<Sense>) -> Option<u32>
    ensures { result ≡ option_and_then grammar.arity_of (option_map said next.entry) }
{
    match next {
        Some(Sense::Number(text)) => match number_of(text) {
            Some(number) => Some(number as u32),
            None => None,
        },
        _ => None,
    }
}

/// Takes a number of arguments.
pub fn arity(reading: &mut Reading) -> Result<u32, Stop>
    ensures reads { Reads (one grammar.arity reading.old) result reading.new }
    ensures room { IsFrugal reading.old reading.new }
{
    match arity_of(reading.peek()) {
        Some(arity) => {
            reading.skip();
            Ok(arity)
        }
        None => Err(Stop::Unexpected),
    }
}

fn relation_of(next: Option<Sense>) -> Option<Relation>
    ensures { result ≡ option_and_then grammar.relation_of (option_map said next.entry) }
{
    match next {
        Some(Sense::Sign(Mark::Equal)) => Some(Relation::Equal),
        Some(Sense::Sign(Mark::Unequal)) => Some(Relation::Unequal),
        Some(Sense::Sign(Mark::Less)) => Some(Relation::Less),
        Some(Sense::Sign(Mark::LessEqual)) => Some(Relation::LessEqual),
        Some(Sense::Sign(Mark::Greater)) => Some(Relation::Greater),
        Some(Sense::Sign(Mark::GreaterEqual)) => Some(Relation::GreaterEqual),
        _ => None,
    }
}

/// Takes a relation between expressions.
pub fn relation(reading: &mut Reading) -> Result<Relation, Stop>
    ensures reads { Reads (one grammar.relation reading.old) result reading.new }
    ensures room { IsFrugal reading.old reading.new }
{
    match relation_of(reading.peek()) {
        Some(relation) => {
            reading.skip();
            Ok(relation)
        }
        None => Err(Stop::Unexpected),
    }
}
