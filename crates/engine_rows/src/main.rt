//! `engine_rows`: how the lengths of three programs end, within limits and budgets.
//!
//! It prints a line for each length: the limit of traces and the budget of clauses, how the length ended, and how many traces were
//! printed.
#![tactic(auto)]

ghost use Rattle.std.specs.Prelude.{◌≡◌, ◌<◌, OnOk};

mod templates;

use anyhow::{Result, bail, ensure};
use std::alloc::Global;
use tel_base::NullSink;
use tel_engine::{Engine, EngineFault, LengthEnd, Stage};
use tel_semantics::How;
use templates::{GREATEST, template_of};
use unfounded_sets::LeastScan;

/// What is asked for of a length.
#[derive(Clone, Copy)]
struct Asked {
    /// How many traces; 0 asks for all.
    models: u64,
    /// How many loop clauses and learnt ones may be added.
    conflicts: Option<u64>,
}

/// All traces, within a budget.
const fn within(budget: u64) -> Asked {
    Asked {
        models: 0,
        conflicts: Some(budget),
    }
}

/// So many traces, without a budget.
const fn first(models: u64) -> Asked {
    Asked {
        models,
        conflicts: None,
    }
}

/// The word for how a length ended.
fn word(how: How) -> &'static str {
    match how {
        How::Complete => "complete",
        How::Limit => "limit",
        How::Budget => "budget",
    }
}

/// Goes on to the next length and lists it.
fn list_next(engine: &mut Engine<LeastScan>, asked: Asked) -> Result<LengthEnd>
    requires stage { engine.old.stage ≡ Stage.Listed }
    requires greatest { engine.old.greatest ≡ GREATEST }
    ensures stage { OnOk result (engine.new.stage ≡ Stage.Listed) }
    ensures greatest { engine.new.greatest ≡ GREATEST }
{
    ensure!(engine.length() < GREATEST, "too many lengths");
    engine.extend()?;
    match engine.list_into(&mut NullSink, &mut NullSink, asked.models, asked.conflicts) {
        Ok(end) => Ok(end),
        Err(EngineFault::Write) => bail!("a write failed"),
        Err(EngineFault::Memory) => bail!("no memory"),
    }
}

/// Prints how the lengths of a program end, from 1 on.
fn print_lengths(rt: &HostRuntime, text: &str, lengths: &[Asked]) -> Result<()> {
    println!(rt; "{text}")?;
    let alloc = rt.alloc();
    let template = template_of(alloc, text)?;
    let mut engine = Engine::new(alloc, template, GREATEST, LeastScan::new(alloc));
    for asked in lengths {
        let end = list_next(&mut engine, *asked)?;
        println!(rt; "{} {} {}", engine.length(), word(end.how), end.traces)?;
    }
    Ok(())
}

/// Runs the three programs.
fn main(rt: HostRuntime) -> Result<()> {
    let conflicts = "{a}. {b}. :- a, b. :- a, not b. :- not a, b. :- not a, not b.";
    print_lengths(&rt, conflicts, &[within(0)])?;
    print_lengths(&rt, conflicts, &[within(1), within(0), within(0)])?;
    let choices = "#program always. a :- not b. b :- not a.";
    print_lengths(&rt, choices, &[first(1), first(4), first(0), first(9)])?;
    Ok(())
}
