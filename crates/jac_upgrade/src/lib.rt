//! Tests whether one application extends another, and makes the change that converts a store.
#![tactic(auto)]

mod collection;
mod drafts;
mod extension;
mod fault;
mod laws;
mod likeness;
mod order;
mod records;
mod renewal;
mod schema;

pub use extension::extends;
pub use fault::UpgradeFault;
pub use laws::{extends_itself, upgraded_to_itself};
pub use renewal::upgrade;
