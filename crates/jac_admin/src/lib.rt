//! The commands that answer no requests: `dump`, `why` and `upgrade`.
#![tactic(auto)]

mod dump_command;
mod hidden;
mod upgrade_command;

pub use dump_command::dump;
pub use hidden::explain;
pub use upgrade_command::upgrade;
