//! The settings of a run, as the words of the command line give them, and which lengths a run prints.
#![tactic(auto)]

mod command;
mod fields;
mod running;
mod values;

pub use command::settings;
pub use fields::{Input, Settings, SettingsFault, Stop, Word};
pub use running::{printed_lengths, stops};
