//! The caches of at most 64 viewers. A change invalidates what it may affect in each of them.
#![tactic(auto)]

mod viewer_caches;

pub use viewer_caches::{ViewerCaches, ViewerEntry};
