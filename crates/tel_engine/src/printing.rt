//! The traces of a length, printed as they are found.

ghost use Rattle.std.specs.Prelude.{◌≡◌, ◌+◌, ◌*◌, ◌≤◌, [], IfOk, OnOk};
ghost use Rattle.tel_rule.specs.Ground.{IsGround};
ghost use Rattle.atom_space.specs.Numbers.{width};
ghost use Rattle.formula_unfold.specs.Nodes.{counts_of};
ghost use Rattle.trace_list.specs.Lengths.{HasLeft};
ghost use Rattle.trace_list.specs.Listing.{IsListing};
ghost use Rattle.tel_engine.specs.Lists.{lines_of, text_of, Prints, Keeps};

use crate::ends::{EngineFault, LengthEnd};
use cdcl_search::Search;
use std::alloc::Global;
use tel_base::{NullSink, Sink};
use tel_rule::Template;
use tel_semantics::How;
use trace_list::{Listing, Next};
use trace_print::{print_end, print_length, print_trace};
use unfounded_sets::Founded;

/// Prints the traces of a listing, each before the next one is looked for, until there is none, or as many are printed as are asked
/// for, or the budget is used up.
fn print_traces<F: Founded + Drop, O: Sink>(
    alloc: Global,
    listing: &mut Listing,
    search: &mut Search<F>,
    template: &Template,
    models: u64,
    out: &mut O,
) -> Result<LengthEnd, EngineFault>
    requires ground { IsGround template.now }
    requires listing { IsListing template.now listing.old.n search.old.kept listing.old search.old [] }
    requires few { search.old.vars ≤ (listing.old.n + 1) * width (counts_of template.now) }
    ensures prints { Prints (lines_of template.now) template.now listing.old.n models listing.old.conflicts result (O.bytes out.old) (O.bytes out.new) (O.faults out.old) (O.faults out.new) }
    ensures left { OnOk result (HasLeft template.now listing.old.n search.new) }
    ensures keeps { IfOk result (λ end. Keeps template.now listing.old.n listing.old.conflicts end.how search.old.kept search.new.kept) }
    ensures vars { search.new.vars ≡ search.old.vars }
{
    let mut traces: u64 = 0;
    'listing: loop {
        let next = match listing.next_trace(search, alloc, &mut NullSink) {
            Ok(next) => next,
            Err(_) => return Err(EngineFault::Memory),
        };
        let trace = match next {
            Next::Trace(trace) => trace,
            Next::Complete => {
                return Ok(LengthEnd {
                    how: How::Complete,
                    traces,
                });
            }
            Next::Spent => {
                return Ok(LengthEnd {
                    how: How::Budget,
                    traces,
                });
            }
        };
        match print_trace(out, template, &trace) {
            Ok(()) => {}
            Err(_) => return Err(EngineFault::Write),
        }
        traces = traces.saturating_add(1);
        if traces == models {
            return Ok(LengthEnd {
                how: How::Limit,
                traces,
            });
        }
    }
}

/// Prints all that belongs to the length of a listing: its header, its traces and its closing line.
pub fn print_listing<F: Founded + Drop, O: Sink>(
    alloc: Global,
    listing: &mut Listing,
    search: &mut Search<F>,
    template: &Template,
    n: u32,
    models: u64,
    out: &mut O,
) -> Result<LengthEnd, EngineFault>
    requires ground { IsGround template.now }
    requires listing { IsListing template.now n search.old.kept listing.old search.old [] }
    requires few { search.old.vars ≤ (n + 1) * width (counts_of template.now) }
    ensures prints { Prints (text_of template.now n) template.now n models listing.old.conflicts result (O.bytes out.old) (O.bytes out.new) (O.faults out.old) (O.faults out.new) }
    ensures left { OnOk result (HasLeft template.now n search.new) }
    ensures keeps { IfOk result (λ end. Keeps template.now n listing.old.conflicts end.how search.old.kept search.new.kept) }
    ensures vars { search.new.vars ≡ search.old.vars }
{
    match print_length(out, n) {
        Ok(()) => {}
        Err(_) => return Err(EngineFault::Write),
    }
    let end = match print_traces(alloc, listing, search, template, models, out) {
        Ok(end) => end,
        Err(fault) => return Err(fault),
    };
    match print_end(out, end.how, end.traces) {
        Ok(()) => Ok(end),
        Err(_) => Err(EngineFault::Write),
    }
}
