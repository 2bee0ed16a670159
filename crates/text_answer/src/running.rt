//! A run: the lengths that are printed, in order.
ghost use Rattle.std.specs.Prelude.{◌≡◌, ℕ, ◌+◌, ◌<◌, ◌≤◌, ◌||◌, nat_lt, if◌then◌else◌, OnOk};
ghost use Rattle.tel_settings.specs.Run.{is_unfinished};
ghost use Rattle.fact_instantiate.specs.Instantiated.{most_places, template_width};
ghost use Rattle.text_answer.specs.Delivery.{code_of};
ghost use Rattle.text_answer.specs.Running.{PrintsLength, PrintsRun};
ghost use Rattle.text_answer.specs.Verdict.{places_in};

use crate::status::Status;
use std::alloc::Global;
use tel_base::{NullSink, Sink};
use tel_engine::{Engine, EngineFault, LengthEnd, Stage};
use tel_rule::Template;
use tel_semantics::How;
use tel_settings::{Settings, stops};
use unfounded_sets::LeastScan;

/// Why a run was cut short.
#[derive(Clone, Copy, PartialEq, Eq)]
pub enum RunFault {
    /// A write failed.
    Write,
    /// There was no memory for the search.
    Memory,
}

/// Goes on to the next length and prints it, and says how it ended.
fn print_next<O: Sink>(
    out: &mut O,
    settings: &Settings,
    engine: &mut Engine<LeastScan>,
) -> Result<LengthEnd, RunFault>
    requires within { engine.old.length < engine.old.greatest }
    requires listed { engine.old.stage ≡ Stage.Listed }
    ensures template { engine.new.template ≡ engine.old.template }
    ensures greatest { engine.new.greatest ≡ engine.old.greatest }
    ensures length { OnOk result (engine.new.length ≡ engine.old.length + 1) }
    ensures stage { OnOk result (engine.new.stage ≡ Stage.Listed) }
    ensures prints { PrintsLength settings.now engine.old.template (engine.old.length + 1) result (O.bytes out.old) (O.bytes out.new) (O.faults out.old) (O.faults out.new) }
{
    match engine.extend() {
        Ok(()) => {}
        Err(_) => return Err(RunFault::Memory),
    }
    match engine.list_into(out, &mut NullSink, settings.models, settings.conflicts) {
        Ok(end) => Ok(end),
        Err(EngineFault::Write) => Err(RunFault::Write),
        Err(EngineFault::Memory) => Err(RunFault::Memory),
    }
}

/// Whether a trace was printed before, or one was at this length.
fn has_trace(found: bool, end: LengthEnd) -> bool
    ensures { result ≡ (found || nat_lt 0 end.traces) }
{
    found || end.traces > 0
}

/// Whether the budget cut a length before, or this one.
fn has_cut(cut: bool, end: LengthEnd) -> bool
    ensures { result ≡ (cut || is_unfinished end.how) }
{
    cut || match end.how {
        How::Budget => true,
        How::Complete | How::Limit => false,
    }
}

/// The status of a run.
fn status_after(found: bool, cut: bool) -> Status
    ensures { code_of result ≡ (if found then 10 else (if cut then 30 else 20)) }
{
    if found {
        Status::Models
    } else if cut {
        Status::Unfinished
    } else {
        Status::NoModel
    }
}

/// Prints the lengths of a run from an engine that has no length yet, and answers its status.
fn print_lengths<O: Sink>(
    out: &mut O,
    settings: &Settings,
    engine: &mut Engine<LeastScan>,
) -> Result<Status, RunFault>
    requires begun { engine.old.length ≡ 0 }
    requires listed { engine.old.stage ≡ Stage.Listed }
    requires within { settings.now.imax ≤ engine.old.greatest }
    ensures prints { PrintsRun settings.now engine.old.template result (O.bytes out.old) (O.bytes out.new) (O.faults out.old) (O.faults out.new) }
{
    let imax = settings.imax;
    let mut found = false;
    let mut cut = false;
    let mut n = 0;
    'running: while n < imax {
        let next = n + 1;
        let end = match print_next(out, settings, engine) {
            Ok(end) => end,
            Err(fault) => return Err(fault),
        };
        let some = has_trace(found, end);
        let short = has_cut(cut, end);
        found = some;
        cut = short;
        n = next;
        if stops(settings, next, end.how, end.traces) {
            return Ok(status_after(found, cut));
        }
    }
    Ok(status_after(found, cut))
}

/// Prints the lengths of a run, and answers its status.
pub fn print_run<O: Sink>(
    alloc: Global,
    out: &mut O,
    settings: &Settings,
    template: Template,
) -> Result<Status, RunFault>
    requires { places_in settings.now (template_width template) ≤ most_places }
    ensures prints { PrintsRun settings.now template result (O.bytes out.old) (O.bytes out.new) (O.faults out.old) (O.faults out.new) }
{
    let founded = LeastScan::new(alloc);
    let mut engine = Engine::new(alloc, template, settings.imax.max(1), founded);
    print_lengths(out, settings, &mut engine)
}
