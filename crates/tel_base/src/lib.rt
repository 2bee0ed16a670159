//! What every crate of telingo stands on: texts and places in them, the two refusals that anything
//! may give, and the outside, where texts come from and bytes go to.
#![tactic(auto)]

mod edge;
mod file_sink;
mod keys;
mod literals;
mod outside;
mod places;
mod sinks;
mod sources;
mod texts;
mod writing;

pub use edge::{FileSource, OutSink};
pub use file_sink::FileSink;
pub use keys::HashKey;
pub use literals::{Clause, Lit};
pub use outside::{Failed, Memory, Sink, Source};
pub use places::Place;
pub use sinks::{MemSink, NullSink};
pub use sources::{MemSource, PlainSource};
pub use texts::Text;
pub use writing::write_whole;
