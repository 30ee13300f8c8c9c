//! Computes a request's page and its change of the store, and commits the change. Both are those of
//! the ordinary interpreter.
#![tactic(auto)]

mod answer;
mod lookup;
mod parameters;
mod refusal;
mod visit;

pub use answer::{Manner, Prepared, PreparedWithCache, commit, prepare};
