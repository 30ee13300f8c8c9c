//! The function `run`, which does what a command line says. Its contract is the promise.
#![tactic(auto)]

mod attach;
mod check;
mod counts;
mod demo;
mod link;
mod program;
mod replay;
mod server;
mod summary;

pub use attach::attach as attach_store;
pub use jac_command_base::{ExitReason, Status};
pub use link::serve_link;
pub use program::run;
