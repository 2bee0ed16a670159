//! A whole length, printed as the run goes.
ghost use Rattle.std.specs.Prelude.{◌≡◌, ℕ, ◌++◌, length, IsTrue};
ghost use Rattle.std.specs.List.{flat_map, list_all};
ghost use Rattle.tel_semantics.specs.Print.{trace_lines, print};
ghost use Rattle.trace_print.specs.States.{are_below};
ghost use Rattle.trace_print.specs.Waiting.{Writes};

use crate::printing::{print_end, print_length, print_trace};
use tel_base::{Failed, Sink};
use tel_rule::{Template, Trace};
use tel_semantics::How;

/// Prints the lines of these traces.
fn print_traces<O: Sink>(out: &mut O, template: &Template, traces: &[Trace]) -> Result<(), Failed>
    requires { IsTrue (list_all (list_all (are_below (length template.now.atoms))) traces.now) }
    ensures { Writes result (flat_map (trace_lines template.now) traces.now) (O.bytes out.old) (O.bytes out.new) (O.faults out.old) (O.faults out.new) }
{
    for trace in traces {
        match print_trace(out, template, trace) {
            Ok(()) => {}
            Err(fault) => return Err(fault),
        }
    }
    Ok(())
}

/// Prints all that belongs to length `n`: its header, its traces and its closing line.
pub fn print_all<O: Sink>(
    out: &mut O,
    template: &Template,
    n: u32,
    traces: &[Trace],
    how: How,
) -> Result<(), Failed>
    requires { IsTrue (list_all (list_all (are_below (length template.now.atoms))) traces.now) }
    ensures { Writes result (print template.now n traces.now how) (O.bytes out.old) (O.bytes out.new) (O.faults out.old) (O.faults out.new) }
{
    match print_length(out, n) {
        Ok(()) => {}
        Err(fault) => return Err(fault),
    }
    match print_traces(out, template, traces) {
        Ok(()) => print_end(out, how, traces.len() as u64),
        Err(fault) => Err(fault),
    }
}
