//! A row through `telingo`, over texts and sinks in memory.

use crate::portions::Portions;
use crate::rows::{Outcome, Row, Setting};
use row_tables::{Difference, quoted};
use std::alloc::{AllocError, Global};
use tel_base::{MemSink, MemSource, Memory};
use telingo_cli::telingo;

/// What `telingo` gives in this setting. Its log has no room, so that a byte for it would be a failed write.
fn outcome(alloc: Global, setting: Setting) -> Result<Outcome, Memory> {
    let source = MemSource::new(setting.files, setting.failed_reads);
    let mut texts = Portions {
        texts: source,
        most: setting.read,
    };
    let mut out = MemSink::new(alloc, setting.room, setting.write, setting.failed_writes)?;
    let mut log = MemSink::new(alloc, 0, 1, Vec::new(alloc))?;
    let status = telingo(
        alloc,
        setting.words.as_slice(),
        &mut texts,
        &mut out,
        &mut log,
    );
    let output = Vec::from_slice(alloc, out.bytes())?;
    Ok(Outcome { status, output })
}

/// A status and an output as a table says them.
fn said(alloc: Global, outcome: &Outcome) -> Result<String, AllocError> {
    let status = outcome.status;
    let output = quoted(alloc, outcome.output.as_slice())?;
    format!(in alloc; "status {status} output {output}")
}

/// The difference between what is wanted of a row and what comes, if there is one.
pub fn difference_of(alloc: Global, row: Row) -> Result<Option<Difference>, Memory> {
    let came = outcome(alloc, row.setting)?;
    if came == row.wanted {
        return Ok(None);
    }
    Ok(Some(Difference {
        wanted: said(alloc, &row.wanted)?,
        came: said(alloc, &came)?,
    }))
}
