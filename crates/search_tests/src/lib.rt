//! Tests of the calls of the store, the trail, propagation and learning together.
#![tactic(auto)]

#[cfg(test)]
mod session;
#[cfg(test)]
mod tests;
