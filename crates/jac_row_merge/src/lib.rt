//! Merges two rows of a record if their cells are equal and their guards differ only in one label's
//! sign.
#![tactic(auto)]

mod guards;
mod merge;

pub use guards::join_guards;
pub use merge::merge_rows;
