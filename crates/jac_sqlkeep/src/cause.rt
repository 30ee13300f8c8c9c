ghost use Rattle.std.specs.Prelude.{◌≡◌, ◌≤◌};
ghost use Rattle.jac_io.specs.Faults.{Rose};

use jac_keep::Stop;
use sqlite::{Error, ErrorCode};

/// Out of memory, as an error of the crate `sqlite`.
pub const NO_MEMORY: Error = Error::SqliteFailure(ErrorCode::OutOfMemory);

/// What is stored is nothing that a keeper stores.
pub const CORRUPT: Error = Error::SqliteFailure(ErrorCode::DatabaseCorrupt);

/// Why a call stops after its statement was refused: memory ran out, or there is another cause,
/// which is counted.
pub fn stop_of(error: Error, faults: &mut u64) -> Stop
    ensures later { faults.old ≤ faults.new }
    ensures rose { result ≡ Stop.Keeper → Rose faults.old faults.new }
    ensures memory { result ≡ Stop.Memory → error ≡ Error.SqliteFailure ErrorCode.OutOfMemory }
    ensures uncounted { result ≡ Stop.Memory → faults.new ≡ faults.old }
{
    match error {
        Error::SqliteFailure(ErrorCode::OutOfMemory) => Stop::Memory,
        _ => {
            *faults = faults.saturating_add(1);
            Stop::Keeper
        }
    }
}

/// Why a stored database isn't attached.
#[derive(Clone, Copy)]
pub enum Unfit {
    /// A statement was refused.
    Refused(Error),
    /// The database has other tables than a keeper's.
    Form,
    /// The table of the number and the schema doesn't have its one row.
    Meta,
    /// The row at this place, in the order of models, records and alternatives, isn't allowed
    /// there.
    Row(usize),
}

/// The error for a database that isn't attached.
pub fn error_of(unfit: Unfit) -> Error {
    match unfit {
        Unfit::Refused(error) => error,
        Unfit::Form => CORRUPT,
        Unfit::Meta => CORRUPT,
        Unfit::Row(_) => CORRUPT,
    }
}
