//! What a step of the search answers.

use clause_store::ClauseId;

/// The answer of a step.
#[derive(Clone, Copy)]
pub enum Step {
    /// A clause was added: a loop clause or a learnt one.
    Added(ClauseId),
    /// The walk is total and its set stable; the trail is this walk.
    Found,
    /// The walk is closed: no further stable set.
    Closed,
    /// A further clause is needed, and as many as the budget were added.
    Spent,
}
