//! What the search for stable sets answers: the walk over the clauses that it holds, the origin of each
//! clause, and the laws by which its sets are the stable sets, each once and in order.
#![tactic(auto)]

mod laws;

pub use laws::{
    composed_lengths, counted_clauses, found_trails, founded_trails, kept_clauses, search_order,
    walk_ends, walk_levels,
};
