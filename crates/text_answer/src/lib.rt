//! What texts are answered: their verdict, and what is printed for it.
#![tactic(auto)]

mod answering;
mod laws;
mod refusing;
mod running;
mod status;

pub use answering::answer;
pub use laws::some_verdict;
pub use refusing::{refuse_at, refuse_large, refuse_read, refuse_usage};
pub use status::Status;
