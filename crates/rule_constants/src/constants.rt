//! The constants of a program.
ghost use Rattle.std.specs.Prelude.{◌≡◌, ◌<◌, ◌≤◌, length, map, slice_get, IfOk, IfErr, OnOk};
ghost use Rattle.rule_constants.specs.Constants.{term_definition, links_of, AreSoundConstants, IsFirstFaulty};
ghost use Rattle.rule_constants.specs.declared.constants.ConstantsFault.TheVariants as ConstantsFault;
ghost use Rattle.rule_constants.specs.Operands.{by_number};
ghost use Rattle.rule_constants.specs.Replaced.{AreValues};
ghost use Rattle.rule_constants.specs.Solving.{noted, HasDefinitions, IsSettled, Settles, AreSound, AreFine, IsFirstUnfit};
ghost use Rattle.std.specs.Prelude.{ℕ, List, bytes_eq, Some, None, false, replicate};
ghost use Rattle.indexmap.specs.IndexMap.{get};

use crate::solving::solve;
use indexmap::IndexMap;
use std::alloc::Global;
use tel_base::{HashKey, Memory, Text};
use tel_rule::{Kind, Program, Statement};
use tel_term::{Symbols, Term, Value};

/// Why a program has no constants.
#[derive(Clone, Copy, PartialEq, Eq)]
pub enum ConstantsFault {
    /// The statement with this number defines a name that an earlier one defines, or its constant has
    /// no value.
    Faulty(usize),
    Memory,
}

/// The constants of a program: for each of its symbols the number of the statement that defines it,
/// where there is one, and for each of its statements the value of the constant that it defines.
#[derive(Drop)]
pub struct Constants {
    pub links: Vec<Option<usize>>,
    pub values: Vec<Option<Value>>,
}

// Takes in a statement; the first definition of a name stays.
fn note(
    alloc: Global,
    places: &mut IndexMap<Text, usize, HashKey>,
    statement: &Statement,
    number: usize,
) -> Result<(), Memory>
    ensures { OnOk result ((name : List ℕ) → get bytes_eq places.new name ≡ noted (get bytes_eq places.old name) statement.now.kind name number) }
{
    if let Kind::Const(name, _) = &statement.kind {
        if places.get(name).is_none() {
            let key = Text::from_slice(alloc, name.as_slice())?;
            match places.insert(key, number) {
                Ok(_) => {}
                Err(_) => return Err(Memory),
            }
        }
    }
    Ok(())
}

// The number of the first statement that defines each name.
fn definitions(
    alloc: Global,
    key: HashKey,
    statements: &[Statement],
) -> Result<IndexMap<Text, usize, HashKey>, Memory>
    ensures { IfOk result (λ places. HasDefinitions places statements.now) }
{
    let mut places = IndexMap::with_hasher(alloc, key);
    for (number, statement) in statements.iter().enumerate() {
        note(alloc, &mut places, statement, number)?;
    }
    Ok(places)
}

fn link_of(
    places: &IndexMap<Text, usize, HashKey>,
    _statements: &[Statement],
    term: &Term,
) -> Option<usize>
    requires { HasDefinitions places.now _statements.now }
    ensures { result ≡ term_definition _statements.now term.now }
{
    match term {
        Term::Name(name) => places.get(name).copied(),
        _ => None,
    }
}

// The definition of each symbol.
fn links(
    alloc: Global,
    symbols: &Symbols,
    places: &IndexMap<Text, usize, HashKey>,
    statements: &[Statement],
) -> Result<Vec<Option<usize>>, Memory>
    requires { HasDefinitions places.now statements.now }
    ensures { IfOk result (λ links. links.items ≡ links_of statements.now symbols.now) }
{
    let mut links = Vec::new(alloc);
    for number in 0..symbols.len() {
        let link = link_of(places, statements, symbols.term(Value::Sym(number)));
        links.push(link)?;
    }
    Ok(links)
}

// Finds the constant of a statement, where it defines one; false, where it is faulty.
fn settle(
    alloc: Global,
    statements: &[Statement],
    links: &[Option<usize>],
    places: &IndexMap<Text, usize, HashKey>,
    known: &mut Vec<Option<Value>>,
    tried: &mut Vec<bool>,
    number: usize,
    statement: &Statement,
) -> Result<bool, Memory>
    requires definitions { HasDefinitions places.now statements.now }
    requires settled { IsSettled statements.now links.now known.old.items tried.old.items }
    requires number { number < length statements.now }
    ensures { IfOk result (λ fine. Settles statements.now links.now known.old.items number statement.now.kind fine known.new.items tried.new.items) }
{
    match &statement.kind {
        Kind::Const(name, _) => {
            if places.get(name).copied() != Some(number) {
                return Ok(false);
            }
            let solved = solve(alloc, statements, links, known, tried, number)?;
            Ok(solved)
        }
        _ => Ok(true),
    }
}

fn nothing_tried(alloc: Global, count: usize) -> Result<Vec<bool>, Memory>
    ensures { IfOk result (λ tried. tried.items ≡ replicate count false) }
{
    let tried = vec![in alloc; false; count]?;
    Ok(tried)
}

fn nothing_known(alloc: Global, count: usize) -> Result<Vec<Option<Value>>, Memory>
    ensures { IfOk result (λ known. known.items ≡ replicate count None) }
{
    let known = vec![in alloc; None; count]?;
    Ok(known)
}

// The values of all constants, or the number of the first faulty statement.
fn solve_all(
    alloc: Global,
    statements: &[Statement],
    links: &[Option<usize>],
    places: &IndexMap<Text, usize, HashKey>,
) -> Result<Vec<Option<Value>>, ConstantsFault>
    requires { HasDefinitions places.now statements.now }
    ensures ok { IfOk result (λ known. AreSound statements.now links.now (by_number known.items) × AreFine statements.now (by_number known.items) (length statements.now)) }
    ensures fault { IfErr result (λ fault. (number : ℕ) → fault ≡ ConstantsFault.Faulty number → IsFirstUnfit statements.now links.now number) }
{
    let mut known = match nothing_known(alloc, statements.len()) {
        Ok(known) => known,
        Err(_) => return Err(ConstantsFault::Memory),
    };
    let mut tried = match nothing_tried(alloc, statements.len()) {
        Ok(tried) => tried,
        Err(_) => return Err(ConstantsFault::Memory),
    };
    for (number, statement) in statements.iter().enumerate() {
        let settled = settle(
            alloc, statements, links, places, &mut known, &mut tried, number, statement,
        );
        let fine = match settled {
            Ok(fine) => fine,
            Err(_) => return Err(ConstantsFault::Memory),
        };
        if !fine {
            return Err(ConstantsFault::Faulty(number));
        }
    }
    Ok(known)
}

/// The constants of a program. The hashes of their names have this key, which changes no answer. The
/// first faulty statement, if there is one, is refused. Each definition is looked at once, after
/// those that it names, in time linear in the statements.
pub fn find_constants(
    alloc: Global,
    key: HashKey,
    program: &Program,
) -> Result<Constants, ConstantsFault>
    ensures links { IfOk result (λ constants. constants.links.items ≡ links_of program.now.statements program.now.symbols) }
    ensures values { IfOk result (λ constants. AreValues program.now.statements program.now.symbols (by_number constants.values.items)) }
    ensures sound { OnOk result (AreSoundConstants program.now.statements program.now.symbols (length program.now.statements)) }
    ensures fault { IfErr result (λ fault. (number : ℕ) → fault ≡ ConstantsFault.Faulty number → IsFirstFaulty program.now.statements program.now.symbols number) }
{
    let statements = program.statements.as_slice();
    let places = match definitions(alloc, key, statements) {
        Ok(places) => places,
        Err(_) => return Err(ConstantsFault::Memory),
    };
    let links = match links(alloc, &program.symbols, &places, statements) {
        Ok(links) => links,
        Err(_) => return Err(ConstantsFault::Memory),
    };
    match solve_all(alloc, statements, links.as_slice(), &places) {
        Ok(values) => Ok(Constants { links, values }),
        Err(fault) => Err(fault),
    }
}
