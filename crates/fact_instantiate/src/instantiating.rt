//! The template of a program.
ghost use Rattle.std.specs.Prelude.{◌≡◌, ◌≤◌, length, IfOk, IfErr};
ghost use Rattle.tel_rule.specs.Ground.{IsGround, ground_of};
ghost use Rattle.program_theory.specs.Templates.{IsTemplateOf};
ghost use Rattle.program_theory.specs.Ready.{IsReady};
ghost use Rattle.program_instances.specs.Gathered.{place_count, IsGathered};
ghost use Rattle.fact_instantiate.specs.Instantiated.{template_width, IsInstantiated, IsGroundFault};

use crate::building::{Built, build};
use crate::fault::GroundFault;
use crate::limits::gather_checked;
use crate::showing::show_of;
use atom_table::SortedAtoms;
use program_instances::Gathered;
use sqlite_items::Items;
use std::alloc::Global;
use tel_base::{HashKey, Memory};
use tel_rule::{Program, Show, Template};

/// The template over these atoms that has these instances and shows these atoms.
fn assemble(sorted: SortedAtoms, pairs: Items<(u32, u32)>, built: Built, show: Show) -> Template
    requires { IsGround (ground_of sorted.symbols sorted.atoms pairs built.nodes built.instances show) }
    ensures { result ≡ ground_of sorted.symbols sorted.atoms pairs built.nodes built.instances show }
{
    Template {
        symbols: sorted.symbols,
        atoms: sorted.atoms,
        pairs,
        nodes: built.nodes,
        instances: built.instances,
        show,
    }
}

/// The template of a program with these live instances.
fn template_of(
    alloc: Global,
    key: HashKey,
    program: Program,
    gathered: Gathered,
) -> Result<Template, Memory>
    requires ready { IsReady program }
    requires gathered { IsGathered program gathered.live gathered.atoms }
    ensures template { IfOk result (λ template. IsTemplateOf program gathered.live template) }
    ensures few { IfOk result (λ template. template_width template ≤ place_count program.statements gathered.live (length gathered.atoms)) }
{
    let sorted = gathered.atoms.sort(program.symbols)?;
    let pairs = sorted.pairs()?;
    let built = build(
        alloc,
        &sorted.numbers,
        program.statements.as_slice(),
        gathered.live.as_slice(),
    )?;
    let show = show_of(
        alloc,
        key,
        program.statements.as_slice(),
        &sorted.symbols,
        sorted.atoms.as_slice(),
    )?;
    Ok(assemble(sorted, pairs, built, show))
}

/// The template of a program that can be instantiated: its live instances over the numbers of their atoms, which are in their order. Its
/// symbols are those of the program and the names of its atoms, and it shows what the program shows. `greatest` is the greatest length, at least 1.
///
/// `Range` says that the statement at this place is the first one that leaves the range of numbers; then no instance was made. `Large`
/// says that the states of the greatest length have more than 4194304 places together, one for each atom, node and instance and one
/// more, or that there are more rows than that, which are instances, too. Not many more than these are made. Keys of hashes change no
/// answer.
pub fn instantiate(
    alloc: Global,
    key: HashKey,
    program: Program,
    greatest: u32,
) -> Result<Template, GroundFault>
    requires ready { IsReady program }
    requires greatest { 1 ≤ greatest }
    ensures template { IfOk result (λ template. IsInstantiated program greatest template) }
    ensures fault { IfErr result (λ fault. IsGroundFault program greatest fault) }
{
    let gathered = match gather_checked(alloc, key, &program, greatest) {
        Ok(gathered) => gathered,
        Err(fault) => return Err(fault),
    };
    match template_of(alloc, key, program, gathered) {
        Ok(template) => Ok(template),
        Err(_) => Err(GroundFault::Memory),
    }
}
