//! The atoms of live instances.
ghost use Rattle.std.specs.Prelude.{◌≡◌, ◌<◌, ◌≤◌, length, IfOk, IfErr, OnOk};
ghost use Rattle.tel_rule.specs.declared.statements.Kind.TheVariants as kinds;
ghost use Rattle.program_instances.specs.Gathered.{kind_named};
ghost use Rattle.program_instances.specs.Adding.{with_all};

use crate::fault::GatherFault;
use atom_table::AtomSet;
use fact_table::Row;
use sqlite_items::Items;
use std::alloc::Global;
use tel_base::Memory;
use tel_rule::{Fact, Head, Literal};
use tel_term::Value;

/// Adds the atoms of the live instances of a rule with these bindings. `Large` says that there are more than `most` with them.
pub fn add_bindings(
    atoms: &mut AtomSet,
    head: &Head,
    body: &[Literal],
    live: &[Items<Value>],
    most: usize,
) -> Result<(), GatherFault>
    ensures added { OnOk result (atoms.new ≡ with_all atoms.old (kind_named (kinds.Rule head.now body.now) live.now)) }
    ensures few { OnOk result (length atoms.new ≤ most) }
    ensures large { IfErr result (λ fault. fault ≡ GatherFault.Large → most < length (with_all atoms.old (kind_named (kinds.Rule head.now body.now) live.now))) }
{
    if most < atoms.len() {
        return Err(GatherFault::Large);
    }
    for binding in live {
        atoms.add_rule(head, body, binding.as_slice())?;
        if most < atoms.len() {
            return Err(GatherFault::Large);
        }
    }
    Ok(())
}

/// A copy of the arguments of an atom.
fn row_of(alloc: Global, values: &[Value]) -> Result<Row, Memory>
    ensures { IfOk result (λ row. row ≡ values.now) }
{
    let copy = Vec::from_slice(alloc, values)?;
    Ok(Row::from_vec(copy))
}

/// Adds the atoms of a fact with these arguments. `Large` says that there are more than `most` with them.
pub fn add_rows(
    alloc: Global,
    atoms: &mut AtomSet,
    fact: &Fact,
    live: &[Items<Value>],
    most: usize,
) -> Result<(), GatherFault>
    ensures added { OnOk result (atoms.new ≡ with_all atoms.old (kind_named (kinds.Facts fact.now) live.now)) }
    ensures few { OnOk result (length atoms.new ≤ most) }
    ensures large { IfErr result (λ fault. fault ≡ GatherFault.Large → most < length (with_all atoms.old (kind_named (kinds.Facts fact.now) live.now))) }
{
    if most < atoms.len() {
        return Err(GatherFault::Large);
    }
    for values in live {
        let row = row_of(alloc, values.as_slice())?;
        atoms.add_fact(fact, row)?;
        if most < atoms.len() {
            return Err(GatherFault::Large);
        }
    }
    Ok(())
}
