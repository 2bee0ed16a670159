//! The walk of a search along a trail: the end of a length first, and then always the first visible variable without a value, false
//! first.
#![tactic(auto)]

mod walking;

pub use walking::{Walked, close, open_end, walk};
