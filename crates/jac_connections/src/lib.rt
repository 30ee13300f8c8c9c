//! Serves the connections of a listening socket one after another. The replies are those of a
//! replay of the same pieces.
#![tactic(auto)]

mod door;
mod link;
mod wire;

pub use door::{DoorHalt, Tally, serve_links};
pub use link::{Halt, serve_link};
