//! Takes events one after another. It writes each audit line before its reply.
#![tactic(auto)]

mod dispatcher;
mod outputs;
mod outside;
mod puts;
mod reply_writer;
mod serve;

pub use dispatcher::{AskOutcome, Dispatch};
pub use outputs::{EventOutcome, FailedSink, WriteFailure, put_given};
pub use outside::{put, put_five, put_four, put_three, put_two};
pub use puts::{put_asked, put_failed_audit, put_numbered};
pub use reply_writer::ReplyWriter;
pub use serve::{EventFault, ReplayError, serve_events};
