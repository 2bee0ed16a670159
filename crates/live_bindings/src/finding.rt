//! The search for the live bindings of a rule.
ghost use Rattle.std.specs.Prelude.{◌≡◌, ◌-◌, ◌^◌, ◌<◌, ◌≤◌, List, length, replicate, pos, IfOk, IfErr};
ghost use Rattle.tel_term.specs.declared.terms.Value.TheVariants as values;
ghost use Rattle.tel_rule.specs.declared.statements.Statement.{Statement};
ghost use Rattle.live_instances.specs.Instances.{AreLive};
ghost use Rattle.rule_plans.specs.Goals.{Rows};
ghost use Rattle.plan_search.specs.Steps.{HaveTerms, RowsHaveTerms};
ghost use Rattle.live_bindings.specs.Planned.{IsPlanned};
ghost use Rattle.live_bindings.specs.Limits.{AreMore, IfLarge};

use crate::fault::LiveFault;
use crate::instances::MakesInstance;
use binding_sort::sort_bindings;
use fact_table::Tables;
use plan_search::{Step, search};
use sqlite_items::Items;
use std::alloc::Global;
use tel_base::Memory;
use tel_rule::{Head, Literal};
use tel_term::{Symbols, Value};

/// So many places, each with the number 0.
fn zeros(alloc: Global, places: usize) -> Result<Items<Value>, Memory>
    ensures { IfOk result (λ env. env ≡ replicate places (values.Num (pos 0))) }
{
    let env = vec![in alloc; Value::Num(0); places]?;
    Ok(Items::from_vec(env))
}

/// The live bindings of a rule of so many variables, each once, in their order. The steps are a plan of it,
/// with so many places. `Large` says that there are more than `most`. No more are held than one above that.
pub fn find_live_bindings(
    alloc: Global,
    tables: &Tables,
    symbols: &Symbols,
    steps: &[Step<'_>],
    places: usize,
    vars: usize,
    head: &Head,
    body: &[Literal],
    most: usize,
) -> Result<Vec<Items<Value>>, LiveFault>
    requires planned { (statements : List Statement) × (rows : Rows) × IsPlanned tables.now symbols.now steps.now places vars head.now body.now statements rows }
    requires terms { HaveTerms symbols.now steps.now }
    requires rows { RowsHaveTerms symbols.now tables.now }
    requires most { most < 2 ^ 64 - 1 }
    ensures live { IfOk result (λ found. (statements : List Statement) (rows : Rows) → IsPlanned tables.now symbols.now steps.now places vars head.now body.now statements rows → AreLive statements symbols.now vars head.now body.now found.items) }
    ensures few { IfOk result (λ found. length found.items ≤ most) }
    ensures large { IfErr result (λ fault. IfLarge fault ((statements : List Statement) (rows : Rows) → IsPlanned tables.now symbols.now steps.now places vars head.now body.now statements rows → AreMore statements symbols.now vars head.now body.now most)) }
{
    let env = zeros(alloc, places)?;
    let mut test = MakesInstance { vars, head, body };
    let mut live = search(
        alloc,
        tables,
        symbols,
        steps,
        env,
        vars,
        &mut test,
        most + 1,
    )?;
    if live.len() > most {
        return Err(LiveFault::Large);
    }
    sort_bindings(symbols, &mut live)?;
    Ok(live)
}
