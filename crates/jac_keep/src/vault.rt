ghost use Rattle.std.specs.Prelude.{◌≡◌, List, Option, IsTrue, IfOk, length, false};
ghost use Rattle.std.specs.Option.{option_copied};
ghost use Rattle.jac_rows.specs.Good.{ModelShape};
ghost use Rattle.jac_keep.specs.ChangedState.{changed_state};
ghost use Rattle.jac_keep.specs.Schema.{IsSchema, IsFit};
ghost use Rattle.jac_keep.specs.Attaching.{Attaches};
ghost use Rattle.jac_keep.specs.Reshaping.{widened_state, Reshapes};
ghost use Rattle.jac_keep.specs.declared.vault.AttachFault.TheVariants as faults;

use crate::{Change, Keeper, Stop};
use jac_value::{Memory, Txt};
use std::alloc::Global;

/// Why a store wasn't attached.
#[derive(Debug, Drop)]
pub enum AttachFault {
    /// The store failed, and counted a fault.
    Failed,
    Memory,
    /// The store has another schema, which is given.
    Other(Txt),
}

impl From<Memory> for AttachFault {
    ghost from_gives = { λ _ fault. fault ≡ faults.Memory };

    fn from(_: Memory) -> AttachFault {
        AttachFault::Memory
    }
}

/// A keeper over a store. It is attached before other calls.
pub trait Vault: Keeper {
    /// Opens the store of this name for states of this schema. Without a name, the store lasts as
    /// long as the program. A new store keeps the schema, and has one empty table for each of its
    /// models.
    fn attach(&mut self, alloc: Global, name: Option<&Txt>, schema: &Txt) -> Result<(), AttachFault>
        requires first { (Self.seen self.old).store.called ≡ false }
        requires schema { (shapes : List ModelShape) × IsSchema schema.now shapes }
        ensures { Attaches (Self.seen self.old) (Self.seen self.new) (option_copied name.entry)
            schema.now result };

    /// Applies the change, stores this schema, and adds an empty table for each new model, all or
    /// nothing. The change contains records of the models that the store has. The schema begins
    /// with these models.
    fn reshape(&mut self, alloc: Global, change: &Change, schema: &Txt) -> Result<(), Stop>
        requires attached { IsTrue (Self.seen self.old).store.attached }
        requires schema { (shapes : List ModelShape) × IsSchema schema.now shapes
            × (IsTrue (Self.seen self.old).tells
            → IsFit shapes
            (widened_state (length shapes) (changed_state change.now (Self.seen self.old).state))) }
        ensures reshapes { Reshapes (Self.seen self.old) (Self.seen self.new) change.now schema.now
            result }
        ensures goes { Self.goes.holds self.old self.new };
}
