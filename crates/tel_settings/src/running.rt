//! After which length a run stops.
ghost use Rattle.std.specs.Prelude.{◌≡◌};
ghost use Rattle.tel_settings.specs.Run.{is_complete, is_unfinished, stops_at};
ghost use Rattle.tel_settings.specs.Laws.{RunsSo, StatusTells};

use crate::fields::{Settings, Stop};
use tel_semantics::How;

/// Whether all traces of a length were listed.
fn is_complete(how: How) -> bool
    ensures { result ≡ is_complete how }
{
    match how {
        How::Complete => true,
        How::Limit | How::Budget => false,
    }
}

/// Whether the budget cut a length.
fn is_unfinished(how: How) -> bool
    ensures { result ≡ is_unfinished how }
{
    match how {
        How::Budget => true,
        How::Complete | How::Limit => false,
    }
}

/// Whether a run stops after length `n`, which ended so, with so many of its traces listed.
pub fn stops(settings: &Settings, n: u32, how: How, traces: u64) -> bool
    ensures { result ≡ stops_at settings.now n how traces }
{
    n >= settings.imin
        && match settings.stop {
            Stop::Sat => traces > 0,
            Stop::Unsat => is_complete(how) && traces == 0,
            Stop::Unknown => is_unfinished(how),
        }
}

/// The lengths of a run are 1, 2, .. and at most `imax`; no length before the last one stops the run, and
/// the last one stops it or is `imax`. The status is 10 exactly where some length has a trace, 30 exactly
/// where none has and the budget cut one, and else 20.
pub fn printed_lengths()
    ensures run { RunsSo }
    ensures status { StatusTells }
{}
