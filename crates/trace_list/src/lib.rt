//! Traces of a search.
#![tactic(auto)]

mod laws;
mod listing;
mod reading;
mod stages;

pub use laws::{found_models, listed_traces, program_lengths};
pub use listing::Listing;
pub use reading::read_trace;
pub use search_log::ListFault;
pub use stages::Next;
