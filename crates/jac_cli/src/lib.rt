//! Reads the command line: which command the words after the program's name give.
#![tactic(auto)]

mod role;
mod words;

pub use role::Role;
pub use words::{Command, DumpArgs, Labels, Replay, ServeArgs, UpgradeArgs, WhyArgs, command_of};
