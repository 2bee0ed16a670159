//! Where a listing stands, and what it answers.

use tel_rule::Trace;

/// Where a listing stands.
#[derive(Clone, Copy)]
pub enum Stage {
    /// The next trace is still to be found.
    Seeking,
    /// The trail of the search is a trace that isn't blocked yet.
    Found,
    /// There is no further trace.
    Complete,
    /// The budget is used up.
    Spent,
}

/// The answer of a listing.
#[derive(Drop)]
pub enum Next {
    /// The next trace of the length.
    Trace(Trace),
    /// The length has no further trace.
    Complete,
    /// A further clause is needed, and as many as the budget were added since the listing began.
    Spent,
}
