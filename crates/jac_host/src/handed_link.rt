//! What is left of a connection that was handed back, for contracts alone.
ghost use Rattle.std.specs.Prelude.{◌≡◌, true};
ghost use Rattle.jac_host.specs.Links.{ends_for_good};

use crate::journal::Journal;

/// What the system gave from the connection and took for it, and how often it failed. The input of
/// the connection ended for good.
#[derive(Drop)]
pub struct HandedLink {
    pub journal: Journal,
    pub faults: u64,
    ghost ended: { ends_for_good journal.events ≡ true },
}
