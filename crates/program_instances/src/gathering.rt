//! The live instances of a program and their atoms.
ghost use Rattle.std.specs.Prelude.{◌≡◌, ◌≤◌, length, IfOk, IfErr};
ghost use Rattle.program_theory.specs.Ready.{IsReady};
ghost use Rattle.program_instances.specs.Tables.{AreTablesOf};
ghost use Rattle.program_instances.specs.Gathered.{place_count, IsGathered, HasMorePlaces};

use crate::fault::GatherFault;
use crate::statements::gather_statements;
use atom_table::AtomSet;
use fact_rows::ProgramTables;
use sqlite_items::Items;
use std::alloc::Global;
use tel_base::HashKey;
use tel_rule::Program;
use tel_term::Value;

/// The live instances of a program, statement by statement, and their atoms, each once.
#[derive(Drop)]
pub struct Gathered {
    pub live: Items<Items<Items<Value>>>,
    pub atoms: AtomSet,
}

/// The live instances of a program that can be instantiated, by its tables, and their atoms, where a state has at most `room` places: one
/// for each atom, each node and each instance, and one more. `Large` says that it has more; then not many more instances than that were
/// made. Atoms are hashed by the key, which changes no answer.
pub fn gather(
    alloc: Global,
    key: HashKey,
    program: &Program,
    tables: &ProgramTables,
    room: usize,
) -> Result<Gathered, GatherFault>
    requires ready { IsReady program.now }
    requires tables { AreTablesOf program.now tables.now }
    ensures gathered { IfOk result (λ found. IsGathered program.now found.live found.atoms) }
    ensures few { IfOk result (λ found. place_count program.now.statements found.live (length found.atoms) ≤ room) }
    ensures large { IfErr result (λ fault. fault ≡ GatherFault.Large → HasMorePlaces program.now room) }
{
    if room == 0 {
        return Err(GatherFault::Large);
    }
    let mut atoms = AtomSet::new(alloc, key);
    match gather_statements(
        alloc,
        program,
        tables,
        program.statements.as_slice(),
        &mut atoms,
        room - 1,
    ) {
        Ok(live) => Ok(Gathered { live, atoms }),
        Err(fault) => Err(fault),
    }
}
