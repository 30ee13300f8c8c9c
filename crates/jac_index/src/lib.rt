//! An index of records by the values of their fields.
#![tactic(auto)]

mod by_value;
mod index;
mod rising_ids;

pub use by_value::ByValue;
pub use index::Index;
pub use rising_ids::RisingIds;
