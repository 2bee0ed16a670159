//! Statements, one after another.
ghost use Rattle.std.specs.Prelude.{◌≡◌, ℕ, ◌-◌, ◌^◌, ◌<◌, ◌≤◌, List, [], length, IfOk, IfErr};
ghost use Rattle.tel_base.specs.Members.{In};
ghost use Rattle.tel_term.specs.declared.terms.Term.{Term as SymbolTerm};
ghost use Rattle.tel_rule.specs.declared.statements.Kind.TheVariants as kinds;
ghost use Rattle.tel_rule.specs.declared.statements.Statement.{Statement as RuleStatement};
ghost use Rattle.program_theory.specs.Ready.{IsReady};
ghost use Rattle.program_instances.specs.Tables.{AreTablesOf};
ghost use Rattle.program_instances.specs.Adding.{Gathers, Overflows, GathersAll, OverflowsAll};

use crate::adding::{add_bindings, add_rows};
use crate::counting::body_nodes;
use crate::fault::GatherFault;
use crate::live::{rule_live, tuples_live};
use atom_table::AtomSet;
use fact_rows::ProgramTables;
use sqlite_items::Items;
use std::alloc::Global;
use tel_rule::{Fact, Head, Kind, Literal, Program, Statement};
use tel_term::Value;

/// The live instances of a statement, and for how many places there is room behind them and their nodes.
#[derive(Drop)]
pub struct Found {
    pub live: Items<Items<Value>>,
    pub left: usize,
}

/// Gathers a rule of a program where so much room is left.
fn gather_rule(
    alloc: Global,
    program: &Program,
    tables: &ProgramTables,
    rule: &Statement,
    head: &Head,
    body: &[Literal],
    atoms: &mut AtomSet,
    room: usize,
) -> Result<Found, GatherFault>
    requires ready { IsReady program.now }
    requires tables { AreTablesOf program.now tables.now }
    requires there { In rule.now program.now.statements }
    requires rule { rule.now.kind ≡ kinds.Rule head.now body.now }
    requires room { room < 2 ^ 64 - 1 }
    ensures gathered { IfOk result (λ found. Gathers program.now.statements program.now.symbols (length rule.now.vars) (kinds.Rule head.now body.now) atoms.old atoms.new room found.left found.live) }
    ensures large { IfErr result (λ fault. fault ≡ GatherFault.Large → Overflows program.now.statements program.now.symbols (length rule.now.vars) (kinds.Rule head.now body.now) atoms.old room) }
{
    let cost = body_nodes(body).saturating_add(1);
    let live = match rule_live(alloc, program, tables, rule, head, body, room / cost) {
        Ok(live) => live,
        Err(fault) => return Err(fault),
    };
    let left = room - live.len() * cost;
    match add_bindings(atoms, head, body, live.as_slice(), left) {
        Ok(()) => Ok(Found { live, left }),
        Err(fault) => Err(fault),
    }
}

/// Gathers a fact where so much room is left.
fn gather_fact(
    alloc: Global,
    fact: &Fact,
    atoms: &mut AtomSet,
    room: usize,
) -> Result<Found, GatherFault>
    ensures gathered { IfOk result (λ found. (statements : List RuleStatement) (symbols : List SymbolTerm) (count : ℕ) → Gathers statements symbols count (kinds.Facts fact.now) atoms.old atoms.new room found.left found.live) }
    ensures large { IfErr result (λ fault. fault ≡ GatherFault.Large → (statements : List RuleStatement) (symbols : List SymbolTerm) (count : ℕ) → Overflows statements symbols count (kinds.Facts fact.now) atoms.old room) }
{
    let live = match tuples_live(alloc, fact.tuples.as_slice(), room) {
        Ok(live) => live,
        Err(fault) => return Err(fault),
    };
    let left = room - live.len();
    match add_rows(alloc, atoms, fact, live.as_slice(), left) {
        Ok(()) => Ok(Found { live, left }),
        Err(fault) => Err(fault),
    }
}

/// Gathers a statement of a program where so much room is left.
fn gather_statement(
    alloc: Global,
    program: &Program,
    tables: &ProgramTables,
    statement: &Statement,
    atoms: &mut AtomSet,
    room: usize,
) -> Result<Found, GatherFault>
    requires ready { IsReady program.now }
    requires tables { AreTablesOf program.now tables.now }
    requires there { In statement.now program.now.statements }
    requires room { room < 2 ^ 64 - 1 }
    requires few { length atoms.old ≤ room }
    ensures gathered { IfOk result (λ found. Gathers program.now.statements program.now.symbols (length statement.now.vars) statement.now.kind atoms.old atoms.new room found.left found.live) }
    ensures large { IfErr result (λ fault. fault ≡ GatherFault.Large → Overflows program.now.statements program.now.symbols (length statement.now.vars) statement.now.kind atoms.old room) }
{
    match &statement.kind {
        Kind::Rule(head, body) => gather_rule(
            alloc,
            program,
            tables,
            statement,
            head,
            body.as_slice(),
            atoms,
            room,
        ),
        Kind::Facts(fact) => gather_fact(alloc, fact, atoms, room),
        Kind::Const(_, _) => Ok(Found {
            live: Items::new(alloc),
            left: room,
        }),
        Kind::Show(_) => Ok(Found {
            live: Items::new(alloc),
            left: room,
        }),
    }
}

/// Gathers these statements, which are all of a program, where there is so much room.
pub fn gather_statements(
    alloc: Global,
    program: &Program,
    tables: &ProgramTables,
    statements: &[Statement],
    atoms: &mut AtomSet,
    room: usize,
) -> Result<Items<Items<Items<Value>>>, GatherFault>
    requires ready { IsReady program.now }
    requires tables { AreTablesOf program.now tables.now }
    requires all { statements.now ≡ program.now.statements }
    requires none { atoms.old ≡ [] }
    requires room { room < 2 ^ 64 - 1 }
    ensures gathered { IfOk result (λ live. (left : ℕ) × GathersAll program.now.statements program.now.symbols statements.now live atoms.new room left) }
    ensures large { IfErr result (λ fault. fault ≡ GatherFault.Large → OverflowsAll program.now.statements program.now.symbols statements.now room) }
{
    let mut live = Items::new(alloc);
    let mut left = room;
    for statement in statements {
        let found = match gather_statement(alloc, program, tables, statement, atoms, left) {
            Ok(found) => found,
            Err(fault) => return Err(fault),
        };
        left = found.left;
        live.push(found.live)?;
    }
    Ok(live)
}
