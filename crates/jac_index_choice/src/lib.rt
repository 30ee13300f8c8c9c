//! Chooses which value in a query's condition an index looks up. The answers stay the same.
#![tactic(auto)]

mod laws;
mod predicate;

pub use laws::{found_at, narrower};
pub use predicate::{EqualityPredicate, predicate_of};
