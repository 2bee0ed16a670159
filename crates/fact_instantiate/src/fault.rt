//! Why a program has no template.
use tel_base::Place;
use thiserror::Error;

/// Why a program has no template.
#[derive(Clone, Copy, Debug, PartialEq, Eq, Error)]
pub enum GroundFault {
    /// The first statement that leaves the range of numbers begins here.
    #[error("a number leaves its range")]
    Range(Place),
    /// The states of the greatest length have too many places together.
    #[error("too many instances")]
    Large,
    /// Want of memory.
    #[error("out of memory")]
    Memory,
}
