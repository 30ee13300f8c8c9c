//! Reads the lines of an events file: requests, and the beginnings, pieces and ends of connections.
#![tactic(auto)]

mod ask;
mod event;
mod line;
mod numbers;
mod quoted;
mod words;

pub use event::{Event, LineFault};
pub use line::read_line;
