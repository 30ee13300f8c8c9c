//! The allocator and the counters of a command.
ghost use Rattle.std.specs.Prelude.{◌≡◌};

use jac_world::Steps;
use std::alloc::Global;
use std::sync::ledger::Ledger;

/// The allocator and the counters of a run. A run makes it once, and lends it to its steps.
pub struct Counts<'s, 'e, L: Ledger, M: Ledger> {
    /// The number of facets that were split.
    pub splits: &'s mut Steps<L>,
    /// The number of policy evaluations.
    pub evaluations: &'e mut Steps<M>,
    pub alloc: Global,
}

impl<L: Ledger, M: Ledger> Drop for Counts<'_, '_, L, M> {
    fn drop(self)
        ensures splits { self.exit.0.now ≡ self.entry.splits.now }
        ensures evaluations { self.exit.1.0.now ≡ self.entry.evaluations.now }
    {
        let Counts {
            splits: _,
            evaluations: _,
            alloc: _,
        } = self;
    }
}
