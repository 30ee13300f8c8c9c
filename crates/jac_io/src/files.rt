ghost use Rattle.std.specs.Prelude.{◌≡◌};
ghost use Rattle.jac_io.specs.Seen.{FilesSeen, ReadsFile};

use jac_value::{Bytes, Memory, Txt};
use std::alloc::Global;

/// Why a file wasn't read.
#[derive(Clone, Copy, Debug, PartialEq, Eq)]
pub enum FileFault {
    /// There is no such file, or it can't be read.
    Failed,
    /// It holds more bytes than the limit.
    TooLong,
    Memory,
}

impl From<Memory> for FileFault {
    ghost use Rattle.std.specs.Prelude.{◌≡◌};
    ghost use Rattle.jac_io.specs.declared.files.FileFault.TheVariants.{Memory};

    ghost from_gives = { λ _ fault. fault ≡ Memory };

    fn from(_: Memory) -> FileFault {
        FileFault::Memory
    }
}

/// A place where files are read by name.
pub trait Files {
    /// What contracts see of it. Its count of faults never falls, and stops at 2^64 - 1.
    ghost seen: { Self → FilesSeen };

    /// Reads the whole file, if it holds at most `limit` bytes.
    fn read_all(&mut self, alloc: Global, name: &Txt, limit: usize) -> Result<Bytes, FileFault>
        ensures { ReadsFile (seen self.old) (seen self.new) name.now limit result };
}
