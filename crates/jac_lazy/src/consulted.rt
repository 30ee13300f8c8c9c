//! The labels that were consulted, as an assignment.
ghost use Rattle.std.specs.Prelude.{◌≡◌, IfOk};

use jac_shown_rows::Support;
use jac_value::Memory;
use jac_world::Assignment;
use std::alloc::Global;

/// The same labels as an assignment.
pub(crate) fn assignment_of(alloc: Global, consulted: &Support) -> Result<Assignment, Memory>
    ensures { IfOk result (λ a. a ≡ consulted.now) }
{
    let mut a = Assignment::empty(alloc);
    'labels: for label in consulted.as_slice() {
        a.add(*label)?;
    }
    // Reading the labels of an assignment shows that they ascend.
    let _ = a.as_slice();
    Ok(a)
}
