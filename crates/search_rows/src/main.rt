//! `search_rows`: what the search answers, step by step, at the lengths of three programs.
//!
//! It prints a line for each answer. A literal is its variable, and behind a `-` its negation; a clause stands behind its number,
//! and a trace is the true atoms of each state.
#![tactic(auto)]

ghost use Rattle.std.specs.Prelude.{◌<◌, ◌≤◌, is_some, IsTrue, OnOk};

mod lines;
mod runs;
mod templates;

use anyhow::{Result, bail};
use cdcl_search::Step;
use clause_store::ClauseId;
use lines::{clause_line, trace_line};
use runs::Run;
use templates::GREATEST;

/// More answers than a length here has.
const MANY: u32 = 20;

/// Prints a clause behind a word that says why it came.
fn print_clause(rt: &HostRuntime, run: &Run, word: &str, id: ClauseId) -> Result<()> {
    let clause = clause_line(rt.alloc(), &run.search, id)?;
    println!(rt; "{word}{clause}")?;
    Ok(())
}

/// Prints the trace that was found.
fn print_trace(rt: &HostRuntime, run: &Run, n: u32) -> Result<()>
    requires { n ≤ GREATEST }
{
    let trace = trace_line(rt.alloc(), run.search.trail(), &run.space, n)?;
    println!(rt; "found{trace}")?;
    Ok(())
}

/// Prints the trace that was found, and the clause that blocks it.
fn print_found(rt: &HostRuntime, run: &mut Run, n: u32) -> Result<()>
    requires begun { IsTrue (is_some run.old.search.begun) }
    requires within { n ≤ GREATEST }
    ensures { OnOk result (IsTrue (is_some run.new.search.begun)) }
{
    print_trace(rt, run, n)?;
    let id = run.block()?;
    print_clause(rt, run, "block", id)
}

/// Prints the last answer of a length.
fn print_last(rt: &HostRuntime, word: &str) -> Result<()> {
    println!(rt; "{word}")?;
    Ok(())
}

/// Prints the next answer of a length within a budget, and returns whether it is the last.
fn print_answer(rt: &HostRuntime, run: &mut Run, n: u32, budget: Option<u64>) -> Result<bool>
    requires begun { IsTrue (is_some run.old.search.begun) }
    requires within { n ≤ GREATEST }
    ensures { OnOk result (IsTrue (is_some run.new.search.begun)) }
{
    match run.next(budget)? {
        Step::Added(id) => {
            print_clause(rt, run, "added", id)?;
            Ok(false)
        }
        Step::Found => {
            print_found(rt, run, n)?;
            Ok(false)
        }
        Step::Closed => {
            print_last(rt, "closed")?;
            Ok(true)
        }
        Step::Spent => {
            print_last(rt, "spent")?;
            Ok(true)
        }
    }
}

/// Prints the answers of a length up to the last one, within a budget.
fn print_answers(rt: &HostRuntime, run: &mut Run, n: u32, budget: Option<u64>) -> Result<()>
    requires begun { IsTrue (is_some run.old.search.begun) }
    requires within { n ≤ GREATEST }
    ensures { OnOk result (IsTrue (is_some run.new.search.begun)) }
{
    for _ in 0..MANY {
        if print_answer(rt, run, n, budget)? {
            return Ok(());
        }
    }
    bail!("too many answers")
}

/// Begins a length, and prints its answers within each of the budgets.
fn print_length(rt: &HostRuntime, run: &mut Run, n: u32, budgets: &[Option<u64>]) -> Result<()>
    requires some { 0 < n }
    requires within { n ≤ GREATEST }
{
    println!(rt; "length {n}")?;
    run.begin(rt.alloc(), n)?;
    for budget in budgets {
        print_answers(rt, run, n, *budget)?;
    }
    Ok(())
}

/// Prints a program.
fn print_program(rt: &HostRuntime, text: &str) -> Result<Run> {
    println!(rt; "{text}")?;
    Run::new(rt.alloc(), text)
}

/// Two atoms that exclude each other, at the lengths 1 and 2.
fn print_choices(rt: &HostRuntime) -> Result<()> {
    let mut run = print_program(rt, "#program always. a :- not b. b :- not a.")?;
    print_length(rt, &mut run, 1, &[None])?;
    print_length(rt, &mut run, 2, &[None])
}

/// Atoms that may support each other across states, with one clause more at each of the lengths 1, 2 and 3.
fn print_loops(rt: &HostRuntime) -> Result<()> {
    let mut run = print_program(
        rt,
        "#program always. p :- &tel { >? q }. #program dynamic. q :- 'p.",
    )?;
    print_length(rt, &mut run, 1, &[Some(1)])?;
    print_length(rt, &mut run, 2, &[Some(1)])?;
    print_length(rt, &mut run, 3, &[Some(1)])
}

/// Two atoms of which no choice is allowed: without a clause more and with one at the length 1, and without one at 2 and 3.
fn print_conflicts(rt: &HostRuntime) -> Result<()> {
    let mut run = print_program(
        rt,
        "{a}. {b}. :- a, b. :- a, not b. :- not a, b. :- not a, not b.",
    )?;
    print_length(rt, &mut run, 1, &[Some(0), Some(1)])?;
    print_length(rt, &mut run, 2, &[Some(0)])?;
    print_length(rt, &mut run, 3, &[Some(0)])
}

/// Runs the three programs.
fn main(rt: HostRuntime) -> Result<()> {
    print_choices(&rt)?;
    print_loops(&rt)?;
    print_conflicts(&rt)
}
