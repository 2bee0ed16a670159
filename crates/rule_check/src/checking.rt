//! The first cause of a program.
ghost use Rattle.std.specs.Prelude.{◌≡◌, ◌≢◌, ◌≤◌, ◌<◌, ℕ, length, true, slice_get, IfOk, IfErr, OnOk};
ghost use Rattle.tel_rule.specs.declared.statements.Signature.{Signature};
ghost use Rattle.std.specs.Prelude.{Some};
ghost use Rattle.rule_binding.specs.Binding.{IsFirstUnbound};
ghost use Rattle.rule_binding.specs.Heads.{tells};
ghost use Rattle.tel_semantics.specs.Tables.{is_table};
ghost use Rattle.rule_constants.specs.Constants.{links_of, IsFirstFaulty};
ghost use Rattle.rule_constants.specs.Operands.{by_number};
ghost use Rattle.rule_constants.specs.Replaced.{AreValues};
ghost use Rattle.rule_check.specs.declared.faults.CheckFault.TheVariants as CheckFault;
ghost use Rattle.rule_check.specs.Causes.{IsSound, IsFirstCause};
ghost use Rattle.rule_check.specs.Checking.{IsClear, IsUnclear, AreClear, IsFirstUnclear, defines_a_name, IsConstOf};

use crate::faults::CheckFault;
use crate::statements::{has_bad_prime, has_bare_arrow};
use rule_binding::{Tables, first_unbound};
use rule_constants::{Constants, ConstantsFault, find_constants};
use std::alloc::Global;
use tel_base::{HashKey, Text};
use tel_rule::{Kind, Program, Statement};

// The fault of an unbound variable.
fn unbound(alloc: Global, _tables: &Tables, statement: &Statement, variable: usize) -> CheckFault
    requires { IsFirstUnbound (tells _tables.now) statement.now (Some variable) }
    ensures { result ≢ CheckFault.Memory → IsUnclear (tells _tables.now) statement.now result }
{
    let name = &statement.vars.as_slice()[variable];
    match Text::from_slice(alloc, name.as_slice()) {
        Ok(name) => CheckFault::Unbound(statement.place, name),
        Err(_) => CheckFault::Memory,
    }
}

// Looks for an unbound variable, an arrow and a prime in a statement.
fn examine(alloc: Global, tables: &Tables, statement: &Statement) -> Result<(), CheckFault>
    ensures ok { OnOk result (IsClear (tells tables.now) statement.now) }
    ensures fault { IfErr result (λ fault. fault ≢ CheckFault.Memory → IsUnclear (tells tables.now) statement.now fault) }
{
    let first = match first_unbound(alloc, tables, statement) {
        Ok(first) => first,
        Err(_) => return Err(CheckFault::Memory),
    };
    if let Some(variable) = first {
        return Err(unbound(alloc, tables, statement, variable));
    }
    if has_bare_arrow(&statement.kind) {
        return Err(CheckFault::Arrow(statement.place));
    }
    if has_bad_prime(&statement.kind) {
        return Err(CheckFault::Prime(statement.place));
    }
    Ok(())
}

// Looks for these causes in the first statements, so many.
fn examine_first(
    alloc: Global,
    tables: &Tables,
    statements: &[Statement],
    count: usize,
) -> Result<(), CheckFault>
    requires { count ≤ length statements.now }
    ensures ok { OnOk result (AreClear (tells tables.now) statements.now count) }
    ensures fault { IfErr result (λ fault. fault ≢ CheckFault.Memory → IsFirstUnclear (tells tables.now) statements.now count fault) }
{
    for number in 0..count {
        match examine(alloc, tables, &statements[number]) {
            Ok(()) => {}
            Err(fault) => return Err(fault),
        }
    }
    Ok(())
}

// The fault of the constant that a statement defines.
fn const_fault(alloc: Global, statement: &Statement) -> CheckFault
    requires { defines_a_name statement.now.kind ≡ true }
    ensures { IsConstOf statement.now result }
{
    match &statement.kind {
        Kind::Const(name, _) => match Text::from_slice(alloc, name.as_slice()) {
            Ok(name) => CheckFault::Const(statement.place, name),
            Err(_) => CheckFault::Memory,
        },
        _ => unreachable!(),
    }
}

// The first cause of a program, whose first faulty constant is that of the statement with this number.
fn cause_up_to(alloc: Global, tables: &Tables, program: &Program, number: usize) -> CheckFault
    requires tables { (predicate : Signature) → tells tables.now predicate ≡ is_table program.now.statements predicate }
    requires faulty { IsFirstFaulty program.now.statements program.now.symbols number }
    ensures { result ≢ CheckFault.Memory → IsFirstCause program.now result }
{
    match examine_first(alloc, tables, program.statements.as_slice(), number) {
        Ok(()) => {}
        Err(fault) => return fault,
    }
    match program.statements.get(number) {
        Some(statement) => match examine(alloc, tables, statement) {
            Ok(()) => const_fault(alloc, statement),
            Err(fault) => fault,
        },
        None => unreachable!(),
    }
}

/// The constants of a program in which no cause stands; or its first cause.
pub fn first_cause(alloc: Global, key: HashKey, program: &Program) -> Result<Constants, CheckFault>
    ensures sound { OnOk result (IsSound program.now) }
    ensures links { IfOk result (λ constants. constants.links.items ≡ links_of program.now.statements program.now.symbols) }
    ensures values { IfOk result (λ constants. AreValues program.now.statements program.now.symbols (by_number constants.values.items)) }
    ensures fault { IfErr result (λ fault. fault ≢ CheckFault.Memory → IsFirstCause program.now fault) }
{
    let statements = program.statements.as_slice();
    let tables = match Tables::of(alloc, key, statements) {
        Ok(tables) => tables,
        Err(_) => return Err(CheckFault::Memory),
    };
    match find_constants(alloc, key, program) {
        Ok(constants) => match examine_first(alloc, &tables, statements, statements.len()) {
            Ok(()) => Ok(constants),
            Err(fault) => Err(fault),
        },
        Err(ConstantsFault::Faulty(number)) => { Err(cause_up_to(alloc, &tables, program, number)) }
        Err(ConstantsFault::Memory) => Err(CheckFault::Memory),
    }
}
