ghost use Rattle.std.specs.Prelude.{◌≡◌, ◌≤◌, ◌^◌, List, length, Err, IfOk, IfSome, IsErrOf, OnOk, OnErr, IsTrue, false};
ghost use Rattle.jac_io.specs.Faults.{Rose};
ghost use Rattle.jac_reopen.specs.Reopened.{seen_untold, HasShapes};

use crate::{KnownStore, VaultMaker};
use jac_keep::{Change, Keeper, Place, Stop, Vault};
use jac_rows::{Row, Rows};
use jac_value::{Id, Value};
use std::alloc::Global;
use std::marker::Model;

/// A keeper over a store that was attached before and that is opened again when the keeper is
/// called. Its state isn't known. After a fault the next call opens the store once more.
#[derive(Drop)]
pub struct ReopenedKeeper<M: VaultMaker> {
    alloc: Global,
    spare: M::Spare,
    store: KnownStore,
    vault: Option<M::Vault>,
    faults: u64,
}

impl<M: VaultMaker> Model for ReopenedKeeper<M> {
    ghost use Rattle.std.specs.Prelude.{◌≡◌, IfSome, IsTrue, false};
    ghost use Rattle.jac_reopen.specs.Reopened.{UntoldSeen, HasShapes};

    ghost Value = { UntoldSeen };

    ghost view = { λ k. record { known = k.store; faults = k.faults } };

    ghost invariant = { λ k. HasShapes k.store × IfSome k.vault (λ v.
        IsTrue (M.Vault.Keeper.seen v).store.attached × ((M.Vault.Keeper.seen v).tells ≡ false)) };
}

impl<M: VaultMaker> ReopenedKeeper<M> {
    /// A keeper over the store. It starts with this number of faults, and the store isn't open.
    pub fn new(alloc: Global, spare: M::Spare, store: KnownStore, faults: u64) -> ReopenedKeeper<M>
        requires { HasShapes store }
        ensures { result ≡ record { known = store; faults = faults } }
    {
        ReopenedKeeper {
            alloc,
            spare,
            store,
            vault: None,
            faults,
        }
    }

    /// Refuses a call that isn't possible on a store that was opened again, and counts a fault.
    pub fn refuse(&mut self) -> Result<(), Stop>
        ensures refused { result ≡ Err Stop.Keeper }
        ensures known { self.new.known ≡ self.old.known }
        ensures rose { Rose self.old.faults self.new.faults }
        ensures later { self.old.faults ≤ self.new.faults }
    {
        self.faults = self.faults.saturating_add(1);
        Err(Stop::Keeper)
    }

    // Takes the vault out. If there is none, the store is opened.
    fn take(&mut self) -> Result<M::Vault, Stop>
        ensures attached { IfOk result (λ v. IsTrue (M.Vault.Keeper.seen v).store.attached) }
        ensures untold { IfOk result (λ v. (M.Vault.Keeper.seen v).tells ≡ false) }
        ensures known { self.new.known ≡ self.old.known }
        ensures later { self.old.faults ≤ self.new.faults }
        ensures rose { IsErrOf result Stop.Keeper → Rose self.old.faults self.new.faults }
    {
        if let Some(vault) = self.vault.take() {
            return Ok(vault);
        }
        match M::attach_again(&mut self.spare, self.alloc, &self.store) {
            Ok(vault) => Ok(vault),
            Err(Stop::Keeper) => {
                self.faults = self.faults.saturating_add(1);
                Err(Stop::Keeper)
            }
            Err(Stop::Memory) => Err(Stop::Memory),
        }
    }

    // Puts the vault back after a call with this outcome. If it doesn't recover from a fault, it is
    // closed.
    fn put<T: Drop>(&mut self, vault: M::Vault, outcome: Result<T, Stop>) -> Result<T, Stop>
        requires attached { IsTrue (M.Vault.Keeper.seen vault).store.attached }
        requires untold { (M.Vault.Keeper.seen vault).tells ≡ false }
        ensures same { result ≡ outcome }
        ensures known { self.new.known ≡ self.old.known }
        ensures later { self.old.faults ≤ self.new.faults }
        ensures rose { IsErrOf result Stop.Keeper → Rose self.old.faults self.new.faults }
    {
        match outcome {
            Ok(done) => {
                self.vault = Some(vault);
                Ok(done)
            }
            Err(Stop::Memory) => {
                self.vault = Some(vault);
                Err(Stop::Memory)
            }
            Err(Stop::Keeper) => {
                M::tell_fault(&mut self.spare, &vault, &self.store);
                self.faults = self.faults.saturating_add(1);
                self.vault = if_it_answers(vault);
                Err(Stop::Keeper)
            }
        }
    }
}

// The vault, if it can still be read.
fn if_it_answers<V: Vault + Drop>(vault: V) -> Option<V>
    requires attached { IsTrue (V.Keeper.seen vault).store.attached }
    requires untold { (V.Keeper.seen vault).tells ≡ false }
    ensures attached { IfSome result (λ v. IsTrue (V.Keeper.seen v).store.attached) }
    ensures untold { IfSome result (λ v. (V.Keeper.seen v).tells ≡ false) }
{
    let mut vault = vault;
    match vault.number() {
        Ok(_) => Some(vault),
        Err(_) => None,
    }
}

impl<M: VaultMaker> Keeper for ReopenedKeeper<M> {
    ghost seen = { seen_untold };

    fn number(&mut self) -> Result<u64, Stop> {
        let mut vault = self.take()?;
        let number = vault.number();
        self.put(vault, number)
    }

    fn rows(&mut self, alloc: Global, model: u8) -> Result<Rows, Stop> {
        let mut vault = self.take()?;
        let rows = vault.rows(alloc, model);
        self.put(vault, rows)
    }

    fn one(&mut self, alloc: Global, id: Id) -> Result<Rows, Stop> {
        let mut vault = self.take()?;
        let rows = vault.one(alloc, id);
        self.put(vault, rows)
    }

    fn rows_with(
        &mut self,
        alloc: Global,
        model: u8,
        field: u8,
        value: &Value,
    ) -> Result<Rows, Stop> {
        let mut vault = self.take()?;
        let rows = vault.rows_with(alloc, model, field, value);
        self.put(vault, rows)
    }

    fn find(&mut self, id: Id) -> Result<Option<Place>, Stop> {
        let mut vault = self.take()?;
        let place = vault.find(id);
        self.put(vault, place)
    }

    fn held(&self, id: Id, near: Place) -> Option<&[Row]> {
        match &self.vault {
            Some(vault) => vault.held(id, near),
            None => None,
        }
    }

    fn find_rows(&mut self, alloc: Global, model: u8) -> Result<bool, Stop> {
        let mut vault = self.take()?;
        let found = vault.find_rows(alloc, model);
        self.put(vault, found)
    }

    fn held_rows(&self, model: u8) -> Option<&[Row]> {
        match &self.vault {
            Some(vault) => vault.held_rows(model),
            None => None,
        }
    }

    fn apply(&mut self, alloc: Global, change: &Change) -> Result<(), Stop> {
        let mut vault = self.take()?;
        let applied = vault.apply(alloc, change);
        self.put(vault, applied)
    }
}
