ghost use Rattle.std.specs.Prelude.{◌≤◌};
ghost use Rattle.jac_io.specs.Faults.{Rose};

use jac_io::Failed;

// Counts a failed call.
pub(crate) fn counted(faults: &mut u64) -> Failed
    ensures later { faults.old ≤ faults.new }
    ensures rose { Rose faults.old faults.new }
{
    *faults = faults.saturating_add(1);
    Failed
}
