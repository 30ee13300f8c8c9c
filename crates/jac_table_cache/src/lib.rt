//! A keeper that caches the tables of another keeper. It answers as the other would.
#![tactic(auto)]

mod cache;
mod held;
mod indexes;
mod keeper;
mod places;
mod shared;

pub use cache::TableCache;
pub use keeper::CachedKeeper;
