ghost use Rattle.std.specs.Prelude.{◌≡◌, ◌≢◌, ◌+◌, ◌-◌, ◌^◌, ◌<◌, ◌≤◌, ◌++◌, List, [], length, Some, None, IfOk, IfErr};
ghost use Rattle.tel_lex.specs.Tokens.{IsLexed, tokens_of};
ghost use Rattle.tel_rule.specs.declared.statements.Program.{Program};
ghost use Rattle.tel_rule.specs.declared.statements.Statement.{Statement};
ghost use Rattle.formula_syntax.specs.Points.{words_of};
ghost use Rattle.grammar_laws.specs.Points.{at};
ghost use Rattle.formula_syntax.specs.Given.{why_of};
ghost use Rattle.part_syntax.specs.Reading.{read_text};
ghost use Rattle.part_syntax.specs.Programs.{total_bytes};
ghost use Rattle.part_syntax.specs.Outcomes as outcomes;

use crate::fault::ReadFault;
use crate::texts::text;
use formula_syntax::{Names, Reading, Stop, Variables};
use sqlite_items::Items;
use std::alloc::Global;
use tel_base::{HashKey, Place, Text};
use tel_lex::{LexFault, Lexed, Token, lex};
use tel_rule::{Program, Statement};
use tel_term::Symbols;

/// A lexical fault as a fault of a text.
fn lexical(fault: LexFault) -> ReadFault
    ensures { result ≡ outcomes.lexical fault }
{
    match fault {
        LexFault::BadByte(place) => ReadFault::BadByte(place),
        LexFault::NumberRange(place) => ReadFault::NumberRange(place),
        LexFault::Memory => ReadFault::Memory,
    }
}

/// The fault of the tokens that are left behind the items of a text.
fn left_over(fault: Option<LexFault>, rest: &[Token]) -> Option<ReadFault>
    ensures { result ≡ outcomes.left_over fault (words_of rest.now) }
{
    match rest {
        [token, ..] => Some(ReadFault::Syntax(token.place)),
        [] => match fault {
            Some(fault) => Some(lexical(fault)),
            None => None,
        },
    }
}

/// The fault where the tokens of a text end too early.
fn cut_at(fault: Option<LexFault>, end: Place) -> ReadFault
    ensures { result ≡ outcomes.cut_at fault end }
{
    match fault {
        Some(fault) => lexical(fault),
        None => ReadFault::Syntax(end),
    }
}

/// The fault where a reading stops before these tokens.
fn stuck_at(fault: Option<LexFault>, end: Place, stop: Stop, rest: &[Token]) -> ReadFault
    ensures other { stop ≢ Stop.Memory → result ≡ outcomes.stuck_at fault end (why_of stop) (words_of rest.now) }
    ensures memory { stop ≡ Stop.Memory → result ≡ ReadFault.Memory }
{
    match stop {
        Stop::Memory => ReadFault::Memory,
        Stop::Unexpected => match rest {
            [token, ..] => ReadFault::Syntax(token.place),
            [] => cut_at(fault, end),
        },
        Stop::Deep => match rest {
            [token, ..] => ReadFault::TooDeep(token.place),
            [] => cut_at(fault, end),
        },
    }
}

/// The names and strings that are known, and the statements so far.
#[derive(Drop)]
pub struct SoFar {
    symbols: Symbols,
    statements: Items<Statement>,
}

/// Puts the statements of the tokens of a text behind those so far.
fn read_tokens(
    alloc: Global,
    key: HashKey,
    levels: u8,
    tokens: &[Token],
    fault: Option<LexFault>,
    end: Place,
    before: SoFar,
) -> Result<SoFar, ReadFault>
    requires { length before.symbols + length tokens.now < 2 ^ 32 - 1 }
    ensures ok { IfOk result (λ after. (fault ≡ None) × (first : List Statement) × (after.statements ≡ before.statements ++ first)
        × outcomes.WordsRead levels (words_of tokens.now) before.symbols first after.symbols) }
    ensures err { IfErr result (λ why. why ≢ ReadFault.Memory → outcomes.fault_of fault end (read_text levels (at (outcomes.knowing before.symbols) (words_of tokens.now))) ≡ Some why) }
    ensures room { IfOk result (λ after. length after.symbols ≤ length before.symbols + length tokens.now) }
    ensures few { IfOk result (λ after. length after.statements ≤ length before.statements + length tokens.now) }
{
    let SoFar {
        symbols,
        statements,
    } = before;
    let vars = Variables::keyed(alloc, key);
    let names = Names { symbols, vars };
    let mut reading = Reading {
        alloc,
        tokens,
        names,
    };
    match text(&mut reading, levels, statements) {
        Ok(statements) => match left_over(fault, reading.tokens) {
            Some(fault) => Err(fault),
            None => {
                let symbols = reading.names.symbols;
                Ok(SoFar {
                    symbols,
                    statements,
                })
            }
        },
        Err(stop) => Err(stuck_at(fault, end, stop, reading.tokens)),
    }
}

/// Puts the statements of a text behind those so far.
fn read_file(
    alloc: Global,
    key: HashKey,
    levels: u8,
    file: u32,
    bytes: &Text,
    before: SoFar,
) -> Result<SoFar, ReadFault>
    requires { length before.symbols + length bytes.now < 2 ^ 32 - 1 }
    ensures ok { IfOk result (λ after. (first : List Statement) × (after.statements ≡ before.statements ++ first)
        × outcomes.TextReads levels file bytes.now before.symbols first after.symbols) }
    ensures err { IfErr result (λ why. why ≢ ReadFault.Memory → outcomes.TextFails levels file bytes.now before.symbols why) }
    ensures room { IfOk result (λ after. length after.symbols ≤ length before.symbols + length bytes.now) }
    ensures few { IfOk result (λ after. length after.statements ≤ length before.statements + length bytes.now) }
{
    match lex(alloc, bytes.as_slice(), file) {
        Ok(lexed) => {
            let Lexed { tokens, fault, end } = lexed;
            read_tokens(alloc, key, levels, tokens.as_slice(), fault, end, before)
        }
        Err(_) => Err(ReadFault::Memory),
    }
}

/// Reads texts, one after another, from the file with number 1 on. The key is that of the hashes of their
/// names, and changes no answer.
pub fn read_texts(
    alloc: Global,
    key: HashKey,
    levels: u8,
    texts: &[Text],
) -> Result<Program, ReadFault>
    requires bytes { total_bytes texts.now ≤ 2 ^ 20 }
    requires files { length texts.now ≤ 16 }
    ensures ok { IfOk result (λ program. outcomes.TextsRead levels 1 texts.now [] program.statements program.symbols) }
    ensures err { IfErr result (λ why. why ≢ ReadFault.Memory → outcomes.TextsFail levels 1 texts.now [] why) }
    ensures few { IfOk result (λ program. length program.statements ≤ total_bytes texts.now) }
{
    let symbols = Symbols::keyed(alloc, key);
    let statements = Items::new(alloc);
    let mut before = SoFar {
        symbols,
        statements,
    };
    let mut file = 1;
    for bytes in texts {
        before = match read_file(alloc, key, levels, file, bytes, before) {
            Ok(after) => after,
            Err(fault) => return Err(fault),
        };
        file += 1;
    }
    let SoFar {
        symbols,
        statements,
    } = before;
    Ok(Program {
        statements,
        symbols,
    })
}
