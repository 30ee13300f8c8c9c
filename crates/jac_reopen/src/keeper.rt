ghost use Rattle.std.specs.Prelude.{◌≡◌, ◌≤◌, ◌^◌, List, Some, None, length, IfOk, IfSome, IsErrOf, IsSomeAnd, OnOk, OnErr, IsTrue, false};
ghost use Rattle.std.specs.Option.{option_copied, option_map};
ghost use Rattle.jac_rows.specs.Good.{ModelShape, IsSound};
ghost use Rattle.jac_keep.specs.Attaching.{Attaches};
ghost use Rattle.jac_keep.specs.KeeperSeen.{IsLeft};
ghost use Rattle.jac_keep.specs.ChangedState.{changed_state};
ghost use Rattle.jac_keep.specs.Reshaping.{widened_state, Reshapes};
ghost use Rattle.jac_keep.specs.Schema.{IsSchema, IsFit};
ghost use Rattle.jac_reopen.specs.Reopened.{seen_reopening, waiting_keeper, known_store, HasShapes, GivesUpAtFault, IsLeftUnattached, IsOnlyVault};
ghost use Rattle.jac_reopen.specs.GoesOn.{gives_up_at_fault};

use crate::{KnownStore, ReopenedKeeper, VaultMaker};
use jac_keep::{AttachFault, Change, Keeper, Place, Stop, Vault};
use jac_rows::{Row, Rows};
use jac_value::{Id, Memory, Txt, Value};
use std::alloc::Global;
use std::marker::Model;

/// A keeper over a store that was attached. If a fault of the disk closed the store, the next call
/// opens it again, with all the tests of attaching. From then on calls answer from what the store
/// holds, and the keeper's state isn't known.
#[derive(Drop)]
pub struct ReopeningKeeper<M: VaultMaker> {
    alloc: Global,
    first: Option<M::Vault>,
    spare: Option<M::Spare>,
    store: Option<KnownStore>,
    again: Option<ReopenedKeeper<M>>,
}

impl<M: VaultMaker> Model for ReopeningKeeper<M> {
    ghost use Rattle.std.specs.Prelude.{◌≡◌, IfSome, Some, None};
    ghost use Rattle.std.specs.Option.{option_map};
    ghost use Rattle.jac_reopen.specs.Reopened.{ReopenSeen, HasShapes, known_store, IsLeftUnattached};

    ghost Value = { ReopenSeen M.Vault };

    ghost view = { λ k. record {
      first = k.first;
      again = k.again;
      made = option_map M.made k.spare;
    } };

    ghost invariant = { λ k. IfSome k.store (λ s. HasShapes s × IfSome k.first (λ v.
        (M.Vault.Keeper.seen v).store ≡ known_store s))
        × IfSome k.first (IsLeftUnattached M.Vault.Keeper.seen M.leaves)
        × (k.again ≡ None → option_map M.made k.spare ≡ Some 1) };
}

impl<M: VaultMaker> ReopeningKeeper<M> {
    /// A keeper over the store of this name. It is attached, or the result says why it isn't.
    pub fn attach(
        alloc: Global,
        maker: M,
        name: Option<&Txt>,
        schema: &Txt,
    ) -> (ReopeningKeeper<M>, Result<(), AttachFault>)
        requires schema { (shapes : List ModelShape) × IsSchema schema.now shapes }
        ensures attaches { Attaches (waiting_keeper M.supposes)
            (seen_reopening M.Vault.Keeper.seen result.0)
            (option_copied name.entry) schema.now result.1 }
        ensures begins { OnOk result.1 (IsSomeAnd result.0.first (M.begins schema.now)) }
        ensures left { OnErr result.1
            (IsSomeAnd result.0.first (M.leaves (option_copied name.entry))) }
        ensures first { result.0.again ≡ None }
    {
        let (vault, spare, attached) = maker.attach(alloc, name, schema);
        match attached {
            Ok(()) => {
                let store = store_of(alloc, name, schema);
                (ReopeningKeeper::over(alloc, vault, spare, store), Ok(()))
            }
            Err(fault) => (ReopeningKeeper::over(alloc, vault, spare, None), Err(fault)),
        }
    }

    fn over(
        alloc: Global,
        vault: M::Vault,
        spare: M::Spare,
        store: Option<KnownStore>,
    ) -> ReopeningKeeper<M>
        requires known { IfSome store (λ s. HasShapes s
            × ((M.Vault.Keeper.seen vault).store ≡ known_store s)) }
        requires left { IsLeftUnattached M.Vault.Keeper.seen M.leaves vault }
        requires made { M.made spare ≡ 1 }
        ensures { result ≡ record {
          first = Some vault;
          again = None;
          made = Some (M.made spare);
        } }
    {
        ReopeningKeeper {
            alloc,
            first: Some(vault),
            spare: Some(spare),
            store,
            again: None,
        }
    }

    /// A law: if the vault isn't attached, it left the refused store as its maker says.
    pub fn stand(&self)
        ensures { IfSome self.now.first (IsLeftUnattached M.Vault.Keeper.seen M.leaves) }
    {
        let _ = &self.first;
    }

    /// A law: as long as the store wasn't opened again, one vault was opened.
    pub fn made_once(&self)
        ensures { IsOnlyVault self.now }
    {
        let _ = &self.spare;
    }

    /// A law: the rows of the vault that was attached first are as its maker says.
    pub fn rows_stand(&self)
        ensures { IfSome self.now.first M.stands }
    {
        if let Some(first) = &self.first {
            M::rows_stand(first);
        }
    }

    // After a fault: if the store answers no more calls, it is closed, and the next call opens it
    // again.
    #[tactic(auto, using(crate::proofs::Going::first_goes, crate::proofs::Going::closed_goes))]
    fn close_if_shut(&mut self)
        requires attached { IsTrue (seen_reopening M.Vault.Keeper.seen self.old).store.attached }
        requires first { self.old.again ≡ None }
        ensures left { IsLeft (seen_reopening M.Vault.Keeper.seen self.old)
            (seen_reopening M.Vault.Keeper.seen self.new) }
        ensures good { IsTrue (seen_reopening M.Vault.Keeper.seen self.new).tells
            → IsSound (seen_reopening M.Vault.Keeper.seen self.new).state }
        ensures goes { GivesUpAtFault M.Vault.Keeper.seen M.Vault.Keeper.goes.holds self.old
            self.new }
    {
        let Some(first) = &mut self.first else {
            unreachable!()
        };
        tell_fault::<M>(&mut self.spare, first, &self.store);
        match first.number() {
            Err(Stop::Keeper) => self.close(),
            _ => (),
        }
    }

    fn close(&mut self)
        requires attached { IsTrue (seen_reopening M.Vault.Keeper.seen self.old).store.attached }
        requires first { self.old.again ≡ None }
        requires good { IsTrue (seen_reopening M.Vault.Keeper.seen self.old).tells
            → IsSound (seen_reopening M.Vault.Keeper.seen self.old).state }
        ensures left { IsLeft (seen_reopening M.Vault.Keeper.seen self.old)
            (seen_reopening M.Vault.Keeper.seen self.new) }
        ensures good { IsTrue (seen_reopening M.Vault.Keeper.seen self.new).tells
            → IsSound (seen_reopening M.Vault.Keeper.seen self.new).state }
        ensures kept { self.new.again ≡ None → self.new ≡ self.old }
    {
        let Some(store) = self.store.take() else {
            return;
        };
        let Some(spare) = self.spare.take() else {
            unreachable!()
        };
        let Some(first) = self.first.take() else {
            unreachable!()
        };
        let faults = M::faults(&first);
        drop(first);
        self.again = Some(ReopenedKeeper::new(self.alloc, spare, store, faults));
    }
}

impl<M: VaultMaker> ReopeningKeeper<M> {
    /// As for a vault. A store that was opened again isn't brought to another schema.
    #[tactic(auto, using(crate::proofs::Left::reshapes_then, crate::proofs::Going::first_goes, crate::proofs::Going::then_goes, crate::proofs::Going::again_goes))]
    pub fn reshape(&mut self, alloc: Global, change: &Change, schema: &Txt) -> Result<(), Stop>
        requires attached { IsTrue (seen_reopening M.Vault.Keeper.seen self.old).store.attached }
        requires schema { (shapes : List ModelShape) × IsSchema schema.now shapes
            × (IsTrue (seen_reopening M.Vault.Keeper.seen self.old).tells
            → IsFit shapes (widened_state (length shapes) (changed_state change.now
            (seen_reopening M.Vault.Keeper.seen self.old).state))) }
        ensures reshapes { Reshapes (seen_reopening M.Vault.Keeper.seen self.old)
            (seen_reopening M.Vault.Keeper.seen self.new) change.now schema.now result }
        ensures goes { GivesUpAtFault M.Vault.Keeper.seen M.Vault.Keeper.goes.holds self.old
            self.new }
    {
        if let Some(again) = &mut self.again {
            return again.refuse();
        }
        let Some(first) = &mut self.first else {
            unreachable!()
        };
        match first.reshape(alloc, change, schema) {
            Ok(()) => {
                self.store = None;
                Ok(())
            }
            Err(Stop::Memory) => Err(Stop::Memory),
            Err(Stop::Keeper) => {
                self.close_if_shut();
                Err(Stop::Keeper)
            }
        }
    }
}

// If memory runs out, the store won't be opened again.
fn store_of(alloc: Global, name: Option<&Txt>, schema: &Txt) -> Option<KnownStore>
    ensures { IfSome result (λ s. s ≡ record {
      name = option_copied name.entry;
      schema =
          schema.now;
    }) }
{
    match KnownStore::new(alloc, name, schema) {
        Ok(store) => Some(store),
        Err(Memory) => None,
    }
}

// Says that a call of the vault failed, if its store is known.
fn tell_fault<M: VaultMaker>(
    spare: &mut Option<M::Spare>,
    vault: &M::Vault,
    store: &Option<KnownStore>,
)
    ensures { option_map M.made spare.new ≡ option_map M.made spare.old }
{
    let Some(spare) = spare else {
        return;
    };
    let Some(store) = store else {
        return;
    };
    M::tell_fault(spare, vault, store);
}

impl<M: VaultMaker> Keeper for ReopeningKeeper<M> {
    ghost seen = { seen_reopening M.Vault.Keeper.seen };

    ghost goes = { gives_up_at_fault M.Vault.Keeper.seen M.Vault.Keeper.goes };

    #[tactic(auto, using(crate::proofs::Left::reads_then, crate::proofs::Going::first_goes, crate::proofs::Going::then_goes, crate::proofs::Going::again_goes))]
    fn number(&mut self) -> Result<u64, Stop> {
        if let Some(again) = &mut self.again {
            return again.number();
        }
        let Some(first) = &mut self.first else {
            unreachable!()
        };
        match first.number() {
            Ok(number) => Ok(number),
            Err(Stop::Memory) => Err(Stop::Memory),
            Err(Stop::Keeper) => {
                self.close_if_shut();
                Err(Stop::Keeper)
            }
        }
    }

    #[tactic(auto, using(crate::proofs::Left::reads_then, crate::proofs::Going::first_goes, crate::proofs::Going::then_goes, crate::proofs::Going::again_goes))]
    fn rows(&mut self, alloc: Global, model: u8) -> Result<Rows, Stop> {
        if let Some(again) = &mut self.again {
            return again.rows(alloc, model);
        }
        let Some(first) = &mut self.first else {
            unreachable!()
        };
        match first.rows(alloc, model) {
            Ok(rows) => Ok(rows),
            Err(Stop::Memory) => Err(Stop::Memory),
            Err(Stop::Keeper) => {
                self.close_if_shut();
                Err(Stop::Keeper)
            }
        }
    }

    #[tactic(auto, using(crate::proofs::Left::reads_then, crate::proofs::Going::first_goes, crate::proofs::Going::then_goes, crate::proofs::Going::again_goes))]
    fn one(&mut self, alloc: Global, id: Id) -> Result<Rows, Stop> {
        if let Some(again) = &mut self.again {
            return again.one(alloc, id);
        }
        let Some(first) = &mut self.first else {
            unreachable!()
        };
        match first.one(alloc, id) {
            Ok(rows) => Ok(rows),
            Err(Stop::Memory) => Err(Stop::Memory),
            Err(Stop::Keeper) => {
                self.close_if_shut();
                Err(Stop::Keeper)
            }
        }
    }

    #[tactic(auto, using(crate::proofs::Left::reads_then, crate::proofs::Going::first_goes, crate::proofs::Going::then_goes, crate::proofs::Going::again_goes))]
    fn rows_with(
        &mut self,
        alloc: Global,
        model: u8,
        field: u8,
        value: &Value,
    ) -> Result<Rows, Stop> {
        if let Some(again) = &mut self.again {
            return again.rows_with(alloc, model, field, value);
        }
        let Some(first) = &mut self.first else {
            unreachable!()
        };
        match first.rows_with(alloc, model, field, value) {
            Ok(rows) => Ok(rows),
            Err(Stop::Memory) => Err(Stop::Memory),
            Err(Stop::Keeper) => {
                self.close_if_shut();
                Err(Stop::Keeper)
            }
        }
    }

    #[tactic(auto, using(crate::proofs::Left::looks_then, crate::proofs::Going::first_goes, crate::proofs::Going::then_goes, crate::proofs::Going::again_goes))]
    fn find(&mut self, id: Id) -> Result<Option<Place>, Stop> {
        if let Some(again) = &mut self.again {
            return again.find(id);
        }
        let Some(first) = &mut self.first else {
            unreachable!()
        };
        match first.find(id) {
            Ok(place) => Ok(place),
            Err(Stop::Memory) => Err(Stop::Memory),
            Err(Stop::Keeper) => {
                self.close_if_shut();
                Err(Stop::Keeper)
            }
        }
    }

    fn held(&self, id: Id, near: Place) -> Option<&[Row]> {
        if let Some(again) = &self.again {
            return again.held(id, near);
        }
        match &self.first {
            Some(first) => first.held(id, near),
            None => None,
        }
    }

    #[tactic(auto, using(crate::proofs::Left::looks_then, crate::proofs::Going::first_goes, crate::proofs::Going::then_goes, crate::proofs::Going::again_goes))]
    fn find_rows(&mut self, alloc: Global, model: u8) -> Result<bool, Stop> {
        if let Some(again) = &mut self.again {
            return again.find_rows(alloc, model);
        }
        let Some(first) = &mut self.first else {
            unreachable!()
        };
        match first.find_rows(alloc, model) {
            Ok(found) => Ok(found),
            Err(Stop::Memory) => Err(Stop::Memory),
            Err(Stop::Keeper) => {
                self.close_if_shut();
                Err(Stop::Keeper)
            }
        }
    }

    fn held_rows(&self, model: u8) -> Option<&[Row]> {
        if let Some(again) = &self.again {
            return again.held_rows(model);
        }
        match &self.first {
            Some(first) => first.held_rows(model),
            None => None,
        }
    }

    #[tactic(auto, using(crate::proofs::Left::keeps_then, crate::proofs::Left::refused_then, crate::proofs::Going::first_goes, crate::proofs::Going::then_goes, crate::proofs::Going::again_goes))]
    fn apply(&mut self, alloc: Global, change: &Change) -> Result<(), Stop> {
        if let Some(again) = &mut self.again {
            return again.apply(alloc, change);
        }
        let Some(first) = &mut self.first else {
            unreachable!()
        };
        match first.apply(alloc, change) {
            Ok(()) => Ok(()),
            Err(Stop::Memory) => Err(Stop::Memory),
            Err(Stop::Keeper) => {
                self.close_if_shut();
                Err(Stop::Keeper)
            }
        }
    }
}
