//! The live instances of a rule and of a fact.
ghost use Rattle.std.specs.Prelude.{◌≡◌, ◌-◌, ◌^◌, ◌<◌, ◌≤◌, List, length, IfOk, IfErr};
ghost use Rattle.std.specs.List.{flat_map};
ghost use Rattle.tel_base.specs.Members.{In};
ghost use Rattle.tel_term.specs.declared.terms.Value.{Value as RowValue};
ghost use Rattle.tel_rule.specs.declared.statements.Kind.TheVariants as kinds;
ghost use Rattle.tel_semantics.specs.Tables.{tuple_rows};
ghost use Rattle.live_instances.specs.Instances.{AreLive};
ghost use Rattle.program_theory.specs.Ready.{IsReady};
ghost use Rattle.program_instances.specs.Tables.{AreTablesOf};

use crate::fault::GatherFault;
use fact_rows::{ProgramTables, RowsFault, push_rows};
use live_bindings::LiveFault;
use rule_bindings::rule_bindings;
use sqlite_items::Items;
use std::alloc::Global;
use tel_rule::{Arg, Head, Literal, Program, Statement};
use tel_term::Value;

/// The live instances of a rule of a program. `Large` says that there are more than `most`.
pub fn rule_live(
    alloc: Global,
    program: &Program,
    tables: &ProgramTables,
    rule: &Statement,
    head: &Head,
    body: &[Literal],
    most: usize,
) -> Result<Items<Items<Value>>, GatherFault>
    requires ready { IsReady program.now }
    requires tables { AreTablesOf program.now tables.now }
    requires there { In rule.now program.now.statements }
    requires rule { rule.now.kind ≡ kinds.Rule head.now body.now }
    requires most { most < 2 ^ 64 - 1 }
    ensures live { IfOk result (λ live. AreLive program.now.statements program.now.symbols (length rule.now.vars) head.now body.now live) }
    ensures few { IfOk result (λ live. length live ≤ most) }
    ensures large { IfErr result (λ fault. fault ≡ GatherFault.Large → (live : List (List RowValue)) → AreLive program.now.statements program.now.symbols (length rule.now.vars) head.now body.now live → most < length live) }
{
    match rule_bindings(
        alloc,
        tables.numbers(),
        tables.tables(),
        &program.symbols,
        rule,
        head,
        body,
        most,
    ) {
        Ok(found) => Ok(Items::from_vec(found)),
        Err(LiveFault::Large) => Err(GatherFault::Large),
        Err(LiveFault::Memory) => Err(GatherFault::Memory),
    }
}

/// The arguments of each atom that these tuples of a fact stand for. `Large` says that there are more than `most`.
pub fn tuples_live(
    alloc: Global,
    tuples: &[Items<Arg>],
    most: usize,
) -> Result<Items<Items<Value>>, GatherFault>
    ensures live { IfOk result (λ live. live ≡ flat_map tuple_rows tuples.now) }
    ensures few { IfOk result (λ live. length live ≤ most) }
    ensures large { IfErr result (λ fault. fault ≡ GatherFault.Large → most < length (flat_map tuple_rows tuples.now)) }
{
    let mut rows = Vec::new(alloc);
    for tuple in tuples {
        match push_rows(alloc, tuple.as_slice(), most, &mut rows) {
            Ok(()) => {}
            Err(RowsFault::Large) => return Err(GatherFault::Large),
            Err(RowsFault::Memory) => return Err(GatherFault::Memory),
        }
    }
    Ok(Items::from_vec(rows))
}
