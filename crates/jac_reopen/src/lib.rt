//! A keeper that opens its store again after a disk fault closed it.
#![tactic(auto)]

mod keeper;
mod known;
mod maker;
mod reopened;

pub use keeper::ReopeningKeeper;
pub use known::KnownStore;
pub use maker::VaultMaker;
pub use reopened::ReopenedKeeper;
