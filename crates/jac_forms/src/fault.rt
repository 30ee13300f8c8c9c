ghost use Rattle.std.specs.Prelude.{◌≡◌};
ghost use Rattle.jac_forms.specs.declared.fault.FormFault.TheVariants as faults;

use jac_value::{List, Memory};
use std::alloc::{AllocError, AllocFailed, Global};

/// The position of a tree within another: child numbers from the root. The head of a list is child
/// 0. The root has the empty path.
pub type Path = List<u32>;

/// What is wanted at the place of a fault.
#[derive(Clone, Copy, PartialEq, Eq)]
pub enum Want {
    App,
    Item,
    Name,
    Fields,
    Field,
    Kind,
    Group,
    Guard,
    Policy,
    Method,
    Path,
    Params,
    Param,
    Statement,
    Set,
    Cell,
    Body,
    Query,
    Binder,
    Order,
    Expression,
}

/// A kind of items with a limit: 64 models, 32 fields of a model, 8 groups of a model, 64 `create`
/// statements of a view, or 3 binders of a query.
#[derive(Clone, Copy, PartialEq, Eq)]
pub enum What {
    Models,
    Fields,
    Groups,
    Sites,
    Binders,
}

/// Why a tree can't be read: its first fault in reading order. For a list, first come its head and
/// the number of its trees, then the limit on its items, then each tree from the left.
#[derive(Drop)]
pub enum FormFault {
    /// The tree at this path isn't what is wanted there.
    Form { path: Path, want: Want },
    /// The tree at this path has `have` of these, which is too many.
    TooMany { path: Path, what: What, have: u64 },
    Memory,
}

impl From<Memory> for FormFault {
    ghost from_gives = { λ _ f. f ≡ faults.Memory };

    fn from(_: Memory) -> FormFault {
        FormFault::Memory
    }
}

impl From<AllocError> for FormFault {
    ghost from_gives = { λ _ f. f ≡ faults.Memory };

    fn from(_: AllocError) -> FormFault {
        FormFault::Memory
    }
}

impl<T: Drop> From<AllocFailed<T>> for FormFault {
    ghost from_gives = { λ _ f. f ≡ faults.Memory };

    fn from(_: AllocFailed<T>) -> FormFault {
        FormFault::Memory
    }
}
