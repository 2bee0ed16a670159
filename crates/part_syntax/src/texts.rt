ghost use Rattle.std.specs.Prelude.{◌≡◌, ◌+◌, ◌≤◌, ◌++◌, length, IfOk, OnOk};
ghost use Rattle.grammar_laws.specs.Points.{at};
ghost use Rattle.grammar_laws.specs.Steps.{made, each};
ghost use Rattle.formula_syntax.specs.Given.{Reads};
ghost use Rattle.tel_rule.specs.declared.parts.Part.TheVariants as parts;
ghost use Rattle.part_syntax.specs.Grammar as grammar;
ghost use Rattle.part_syntax.specs.Reading as readers;
ghost use Rattle.part_syntax.specs.Given.{ReadsStated, IsFrugal, item_of, stated_of, forgotten, fresh_stated};

use crate::items::{Item, at_item, next_item};
use formula_syntax::{Reading, Stop};
use sqlite_items::Items;
use std::alloc::AllocError;
use tel_base::{Place, Text};
use tel_rule::{Part, Statement};

/// An item, with the place of its first token and variables of its own.
#[derive(Drop)]
pub struct Stated {
    place: Place,
    vars: Items<Text>,
    item: Item,
}

/// Takes the variables that were seen, so that none are known.
fn take_vars(reading: &mut Reading) -> Items<Text>
    ensures vars { result ≡ reading.old.known.vars }
    ensures point { reading.new ≡ at (grammar.afresh reading.old.known) reading.old.words }
{
    reading.names.vars.take(reading.alloc)
}

/// The place of the next token, if there is one.
fn place_at(reading: &Reading) -> Place
    ensures { result ≡ readers.place_at reading.now.words }
{
    match reading.tokens {
        [token, ..] => token.place,
        [] => Place {
            file: 0,
            line: 0,
            at: 0,
        },
    }
}

/// The next item of a text.
fn next_stated(reading: &mut Reading, levels: u8) -> Result<Stated, Stop>
    ensures reads { ReadsStated (fresh_stated levels reading.old) result reading.new }
    ensures room { IsFrugal reading.old reading.new }
{
    let _earlier = take_vars(reading);
    let place = place_at(reading);
    let item = next_item(reading, levels)?;
    let vars = take_vars(reading);
    Ok(Stated { place, vars, item })
}

/// Puts the statement that an item is behind the others, and says of which part those behind it are.
fn keep(statements: &mut Items<Statement>, part: Part, stated: Stated) -> Result<Part, AllocError>
    ensures part { IfOk result (λ next. next ≡ grammar.part_behind part (item_of stated.item)) }
    ensures statements { OnOk result (statements.new ≡ statements.old ++ grammar.said_in part (stated_of stated) (item_of stated.item)) }
    ensures few { length statements.new ≤ length statements.old + 1 }
{
    let Stated { place, vars, item } = stated;
    match item {
        Item::InPart(next) => Ok(next),
        Item::Says(kind) => {
            statements.push(Statement {
                place,
                part,
                vars,
                kind,
            })?;
            Ok(part)
        }
    }
}

/// Puts the statements of a text behind these. They are of the initial part, up to the first item
/// that names another one.
pub fn text(
    reading: &mut Reading,
    levels: u8,
    mut statements: Items<Statement>,
) -> Result<Items<Statement>, Stop>
    ensures reads { Reads (made (λ stated. statements ++ grammar.statements_in parts.Initial stated) (each readers.starts_item (fresh_stated levels)) reading.old) result reading.new }
    ensures room { IsFrugal reading.old reading.new }
    ensures few { IfOk result (λ all. length all ≤ length statements + length reading.old.words) }
{
    let mut part = Part::Initial;
    for _turn in 0..reading.left() {
        if !at_item(reading) {
            return Ok(statements);
        }
        let next = next_stated(reading, levels)?;
        part = keep(&mut statements, part, next)?;
    }
    Ok(statements)
}
