ghost use Rattle.std.specs.Prelude.{◌≡◌, ℕ, IfOk, IsErrOf};
ghost use Rattle.jac_row_codec.specs.Faults.{IsGuardFault, IsFaultBehindGuard, IsRowOf};

use crate::body::cells;
use crate::guard::guard;
use crate::stop::Stop;
use jac_rows::Row;
use jac_value::{Id, Kind};
use std::alloc::Global;
use thiserror::Error;

/// Why bytes are no stored row. A place is the length of the longest beginning that can go on to a
/// right spelling.
#[derive(Clone, Copy, Debug, PartialEq, Eq, Error)]
pub enum RowFault {
    /// The place in the bytes of the guard. A fault of the guard is reported before a fault of the
    /// cells.
    #[error("no guard at {0}")]
    Guard(u64),
    /// The place in the bytes of the cells.
    #[error("no cells at {0}")]
    Body(u64),
    #[error("out of memory")]
    Memory,
}

/// The row of this id and of cells of these kinds. The bytes are those of `encode_row`.
#[tactic(auto, using(crate::proofs::Places::fault_at, crate::proofs::Places::left_within))]
pub fn decode_row(
    alloc: Global,
    id: Id,
    kinds: &[Kind],
    jvars: &[u8],
    body: &[u8],
) -> Result<Row, RowFault>
    ensures row { IfOk result (IsRowOf id kinds.now jvars.now body.now) }
    ensures guard_fault { (at : ℕ) → IsErrOf result (RowFault.Guard at)
        → IsGuardFault jvars.now at }
    ensures body_fault { (at : ℕ) → IsErrOf result (RowFault.Body at)
        → IsFaultBehindGuard kinds.now jvars.now body.now at }
{
    let guard = match guard(alloc, jvars) {
        Ok(guard) => guard,
        Err(Stop::Left(left)) => return Err(RowFault::Guard((jvars.len() - left) as u64)),
        Err(Stop::Memory) => return Err(RowFault::Memory),
    };
    match cells(alloc, kinds, body) {
        Ok(cells) => Ok(Row { id, guard, cells }),
        Err(Stop::Left(left)) => Err(RowFault::Body((body.len() - left) as u64)),
        Err(Stop::Memory) => Err(RowFault::Memory),
    }
}
