//! Implements the traits of `jac_io` for the machine. A ghost journal says what the system gave and
//! took. Each object counts its failures, and prints to standard error what the system reported.
#![tactic(auto)]

mod ahead;
mod calls;
mod door;
mod faults;
mod files;
mod frames;
mod handed;
mod handed_link;
mod inherited;
mod journal;
mod laws;
mod link;
mod outside;
mod pace;
mod room;
mod sinks;
mod told;

pub use door::HostDoor;
pub use files::HostFiles;
pub use laws::some_input_agrees;
pub use link::HostLink;
pub use outside::{Outside, Unknown};
pub use sinks::{HostAudit, Stdout};
