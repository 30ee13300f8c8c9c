//! Joins the pieces of interleaved connections into requests. How the bytes were cut changes
//! nothing.
#![tactic(auto)]

mod channel;
mod handler;
mod hub;
mod laws;
mod sent;

pub use handler::{Handler, Heard};
pub use hub::{Hub, HubFault, HubOut};
pub use laws::{any_cutting_is_heard, events_are_heard, events_are_heard_in_part, runs_are_heard};
pub use sent::Sent;
