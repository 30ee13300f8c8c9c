ghost use Rattle.std.specs.Prelude.{◌≡◌};
ghost use Rattle.jac_tree.specs.declared.fault.TreeFault.TheVariants as faults;

use jac_value::Memory;
use thiserror::Error;

/// Why bytes weren't read as a tree. Places count bytes from 0.
#[derive(Clone, Copy, Debug, PartialEq, Eq, Error)]
pub enum TreeFault {
    /// More than 1,048,576 bytes.
    #[error("too long")]
    Long,
    /// The bytes aren't UTF-8. Their longest prefix that is UTF-8 has this length.
    #[error("not UTF-8 at {0}")]
    NotUtf8(u64),
    /// No text of a tree continues with this byte.
    #[error("stray at {0}")]
    Stray(u64),
    /// This byte opens a list inside 64 lists.
    #[error("deep at {0}")]
    Deep(u64),
    /// The bytes end, at this length, before their tree does.
    #[error("unclosed at {0}")]
    Unclosed(u64),
    #[error("out of memory")]
    Memory,
}

impl From<Memory> for TreeFault {
    ghost from_gives = { λ _ f. f ≡ faults.Memory };

    fn from(_: Memory) -> TreeFault {
        TreeFault::Memory
    }
}
