//! The top call of `telingo`: from the words of the command to the printed bytes and the status.
#![tactic(auto)]

mod files;
mod reading;
mod top;

pub use text_answer::Status;
pub use top::telingo;
pub use walker_text::generate;
