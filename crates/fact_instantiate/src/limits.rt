//! The live instances of a program within the limits of rows, of numbers and of places.
ghost use Rattle.std.specs.Prelude.{◌≡◌, ◌*◌, ◌≤◌, ℕ, length, IfOk, IfErr, OnOk};
ghost use Rattle.fact_rows.specs.Limit.{HaveMoreRows};
ghost use Rattle.range_faults.specs.Ranges.{NoneLeavesRange};
ghost use Rattle.program_theory.specs.Ready.{IsReady};
ghost use Rattle.program_instances.specs.Tables.{AreTablesOf};
ghost use Rattle.program_instances.specs.Gathered.{place_count, IsGathered};
ghost use Rattle.fact_instantiate.specs.Instantiated.{most_places, IsGroundFault};

use crate::fault::GroundFault;
use fact_rows::{ProgramTables, RowsFault};
use program_instances::{GatherFault, Gathered, gather};
use range_faults::first_leaving;
use std::alloc::Global;
use tel_base::HashKey;
use tel_rule::Program;

/// The most places that all states of the greatest length may have together, and the most rows of all tables.
const MOST_PLACES: usize = 4194304;

/// The tables of a program, where they haven't too many rows.
fn tables_of(alloc: Global, key: HashKey, program: &Program) -> Result<ProgramTables, GroundFault>
    requires { IsReady program.now }
    ensures tables { IfOk result (λ tables. AreTablesOf program.now tables) }
    ensures few { OnOk result (HaveMoreRows program.now.statements most_places → ⊥) }
    ensures fault { IfErr result (λ fault. (greatest : ℕ) → 1 ≤ greatest → IsGroundFault program.now greatest fault) }
{
    match ProgramTables::of(alloc, key, program.statements.as_slice(), MOST_PLACES) {
        Ok(tables) => Ok(tables),
        Err(RowsFault::Large) => Err(GroundFault::Large),
        Err(RowsFault::Memory) => Err(GroundFault::Memory),
    }
}

/// Looks for the first statement that leaves the range of numbers.
fn check_ranges(alloc: Global, program: &Program, tables: &ProgramTables) -> Result<(), GroundFault>
    requires ready { IsReady program.now }
    requires tables { AreTablesOf program.now tables.now }
    requires few { HaveMoreRows program.now.statements most_places → ⊥ }
    ensures none { OnOk result (NoneLeavesRange program.now.statements program.now.symbols) }
    ensures fault { IfErr result (λ fault. (greatest : ℕ) → IsGroundFault program.now greatest fault) }
{
    let statements = program.statements.as_slice();
    match first_leaving(
        alloc,
        tables.numbers(),
        tables.tables(),
        &program.symbols,
        statements,
    ) {
        Ok(None) => Ok(()),
        Ok(Some(place)) => Err(GroundFault::Range(place)),
        Err(_) => Err(GroundFault::Memory),
    }
}

/// The live instances of a program, where the states of the greatest length haven't too many places.
fn gather_within(
    alloc: Global,
    key: HashKey,
    program: &Program,
    tables: &ProgramTables,
    greatest: u32,
) -> Result<Gathered, GroundFault>
    requires ready { IsReady program.now }
    requires tables { AreTablesOf program.now tables.now }
    requires ranges { NoneLeavesRange program.now.statements program.now.symbols }
    requires greatest { 1 ≤ greatest }
    ensures gathered { IfOk result (λ found. IsGathered program.now found.live found.atoms) }
    ensures few { IfOk result (λ found. greatest * place_count program.now.statements found.live (length found.atoms) ≤ most_places) }
    ensures fault { IfErr result (λ fault. IsGroundFault program.now greatest fault) }
{
    let room = MOST_PLACES / greatest as usize;
    match gather(alloc, key, program, tables, room) {
        Ok(found) => Ok(found),
        Err(GatherFault::Large) => Err(GroundFault::Large),
        Err(GatherFault::Memory) => Err(GroundFault::Memory),
    }
}

/// The live instances of a program, by its tables, where no statement leaves the range of numbers and the states of the greatest length
/// haven't too many places.
fn gather_by(
    alloc: Global,
    key: HashKey,
    program: &Program,
    tables: &ProgramTables,
    greatest: u32,
) -> Result<Gathered, GroundFault>
    requires ready { IsReady program.now }
    requires tables { AreTablesOf program.now tables.now }
    requires few { HaveMoreRows program.now.statements most_places → ⊥ }
    requires greatest { 1 ≤ greatest }
    ensures gathered { IfOk result (λ found. IsGathered program.now found.live found.atoms) }
    ensures ranges { IfOk result (λ found. NoneLeavesRange program.now.statements program.now.symbols) }
    ensures few { IfOk result (λ found. greatest * place_count program.now.statements found.live (length found.atoms) ≤ most_places) }
    ensures fault { IfErr result (λ fault. IsGroundFault program.now greatest fault) }
{
    match check_ranges(alloc, program, tables) {
        Ok(()) => {}
        Err(fault) => return Err(fault),
    }
    match gather_within(alloc, key, program, tables, greatest) {
        Ok(found) => Ok(found),
        Err(fault) => Err(fault),
    }
}

/// The live instances of a program, where its tables haven't too many rows, no statement leaves the range of numbers, and the states of
/// the greatest length haven't too many places.
pub fn gather_checked(
    alloc: Global,
    key: HashKey,
    program: &Program,
    greatest: u32,
) -> Result<Gathered, GroundFault>
    requires ready { IsReady program.now }
    requires greatest { 1 ≤ greatest }
    ensures gathered { IfOk result (λ found. IsGathered program.now found.live found.atoms) }
    ensures ranges { IfOk result (λ found. NoneLeavesRange program.now.statements program.now.symbols) }
    ensures few { IfOk result (λ found. greatest * place_count program.now.statements found.live (length found.atoms) ≤ most_places) }
    ensures fault { IfErr result (λ fault. IsGroundFault program.now greatest fault) }
{
    let tables = match tables_of(alloc, key, program) {
        Ok(tables) => tables,
        Err(fault) => return Err(fault),
    };
    gather_by(alloc, key, program, &tables, greatest)
}
