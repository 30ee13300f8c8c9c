ghost use Rattle.std.specs.Prelude.{◌≡◌, ℕ, List, Option, false, IfOk, IfErr, OnOk, OnErr, IsTrue};
ghost use Rattle.std.specs.Option.{option_copied};
ghost use Rattle.jac_io.specs.Faults.{one_more_fault};
ghost use Rattle.jac_rows.specs.Good.{ModelShape};
ghost use Rattle.jac_keep.specs.Attaching.{Attaches};
ghost use Rattle.jac_keep.specs.Schema.{IsSchema};
ghost use Rattle.jac_reopen.specs.Reopened.{Supposed, waiting_keeper, known_store, HasShapes};

use crate::KnownStore;
use jac_keep::{AttachFault, Stop, Vault};
use jac_value::Txt;
use std::alloc::Global;

/// What opens the first vault over a store. This uses it up, so a value of this type has opened
/// none.
pub trait VaultMaker: Drop {
    type Vault: Vault + Drop;

    /// What opens other vaults after a fault closed the first.
    type Spare: Drop;

    /// What is supposed of the store before it is opened. A vault that was attached is compared
    /// with it.
    ghost supposes: { Supposed };

    /// What is known of a vault that was attached with this schema.
    ghost begins: { List ℕ → Self.Vault → Type 0 };

    /// What is known of a vault that wasn't attached to the store of this name: how it left what it
    /// opened, compared with what was there, and why it was refused.
    ghost leaves: { Option (List ℕ) → Self.Vault → Type 0 };

    /// What is known of a vault at any time: what its rows are as long as its state is known.
    ghost stands: { Self.Vault → Type 0 };

    /// How many openings of a vault there were, with the first.
    ghost made: { Self.Spare → ℕ };

    /// A law: `stands` is true of each vault.
    fn rows_stand(vault: &Self::Vault)
        ensures { stands vault.now };

    /// The first vault, over the store of this name, and what opens others. The vault is attached,
    /// or the result says why it isn't.
    fn attach(
        self,
        alloc: Global,
        name: Option<&Txt>,
        schema: &Txt,
    ) -> (Self::Vault, Self::Spare, Result<(), AttachFault>)
        requires schema { (shapes : List ModelShape) × IsSchema schema.now shapes }
        ensures attaches { Attaches (waiting_keeper supposes) (Self.Vault.Keeper.seen result.0)
            (option_copied name.entry) schema.now result.2 }
        ensures begins { OnOk result.2 (begins schema.now result.0) }
        ensures left { OnErr result.2 (leaves (option_copied name.entry) result.0) }
        ensures made { made result.1 ≡ 1 };

    /// A vault over a store that was attached before. It is attached under the same name, with the
    /// same schema. Its state isn't known, because the store may have changed meanwhile.
    fn attach_again(
        spare: &mut Self::Spare,
        alloc: Global,
        store: &KnownStore,
    ) -> Result<Self::Vault, Stop>
        requires schema { HasShapes store.now }
        ensures attached { IfOk result (λ v. IsTrue (Self.Vault.Keeper.seen v).store.attached) }
        ensures store { IfOk result (λ v. (Self.Vault.Keeper.seen v).store
            ≡ known_store store.now) }
        ensures untold { IfOk result (λ v. (Self.Vault.Keeper.seen v).tells ≡ false) }
        ensures made { made spare.new ≡ one_more_fault (made spare.old) };

    /// Reports to the person who runs the program that a call of the vault over this store failed.
    fn tell_fault(spare: &mut Self::Spare, vault: &Self::Vault, store: &KnownStore)
        ensures made { made spare.new ≡ made spare.old };

    /// How often the vault failed.
    fn faults(vault: &Self::Vault) -> u64
        ensures { result ≡ (Self.Vault.Keeper.seen vault.now).faults };
}
