//! The instances of rules.
ghost use Rattle.std.specs.Prelude.{◌≡◌, ◌++◌, ◌<◌, length, IfOk, OnOk};
ghost use Rattle.instance_build.specs.Instances.{ground_head, ground_rule};

use crate::literals::ground_body;
use crate::numbers::AtomNumbers;
use sqlite_items::Items;
use std::alloc::Global;
use tel_base::Memory;
use tel_rule::{GroundHead, Head, Instance, Literal, Node, Part};

/// A head over the numbers of the atoms.
fn ground_head<N: AtomNumbers>(numbers: &N, head: &Head) -> Result<GroundHead, Memory>
    ensures { IfOk result (λ made. made ≡ ground_head (N.number numbers.now) head.now) }
{
    match head {
        Head::Normal(atom) => Ok(GroundHead::Normal {
            atom: numbers.number(atom)?,
            after: atom.after > 0,
        }),
        Head::Choice(atom) => Ok(GroundHead::Choice {
            atom: numbers.number(atom)?,
            after: atom.after > 0,
        }),
        Head::None => Ok(GroundHead::None),
    }
}

/// The instance of a rule under these numbers of its atoms, where the rule is a statement with this
/// number and of this part. The nodes of its formulas come behind those that are there; its
/// comparisons are left out. More nodes than numbers count as want of memory, and after want of memory
/// some of the nodes may have come. It takes time linear in the rule.
pub fn build_rule<N: AtomNumbers>(
    alloc: Global,
    numbers: &N,
    statement: u32,
    part: Part,
    head: &Head,
    body: &[Literal],
    nodes: &mut Items<Node>,
) -> Result<Instance, Memory>
    ensures instance { IfOk result (λ instance. instance ≡ (ground_rule (N.number numbers.now) statement part head.now body.now (length nodes.old)).0) }
    ensures nodes { OnOk result (nodes.new ≡ nodes.old ++ (ground_rule (N.number numbers.now) statement part head.now body.now (length nodes.old)).1) }
{
    let head = ground_head(numbers, head)?;
    let body = ground_body(alloc, numbers, nodes, body)?;
    Ok(Instance {
        statement,
        part,
        head,
        body,
    })
}
