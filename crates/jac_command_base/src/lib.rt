//! What all commands share: reading files, attaching a store, and how a command ends.
#![tactic(auto)]

mod attachment;
mod exit_reason;
mod files;
mod names;
mod startup;
mod status;

pub use attachment::attach;
pub use exit_reason::{ExitReason, put_fault, status_of};
pub use files::{open_app, open_next, read_app, read_file, read_sessions};
pub use names::named;
pub use startup::{Opened, StoreCommand, open_store};
pub use status::Status;
