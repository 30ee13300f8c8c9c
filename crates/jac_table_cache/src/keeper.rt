ghost use Rattle.std.specs.Prelude.{◌≡◌, ◌≤◌, ◌^◌, List, length, IfOk, OnOk, OnErr, IsTrue, false};
ghost use Rattle.std.specs.Option.{option_copied};
ghost use Rattle.jac_value.specs.Ids.{model_of_id};
ghost use Rattle.jac_rows.specs.Good.{ModelShape, IsSound};
ghost use Rattle.jac_rows.specs.Tables.{rows_of};
ghost use Rattle.jac_keep.specs.Records.{alternatives};
ghost use Rattle.jac_keep.specs.MatchingRecords.{holders};
ghost use Rattle.jac_keep.specs.KeeperSeen.{Keeps, Reads};
ghost use Rattle.jac_keep.specs.ChangedState.{changed_state};
ghost use Rattle.jac_keep.specs.Schema.{IsSchema, IsFit};
ghost use Rattle.jac_keep.specs.Attaching.{Attaches};
ghost use Rattle.jac_keep.specs.Reshaping.{widened_state, Reshapes};

use crate::TableCache;
use jac_keep::{AttachFault, Change, Keeper, Place, Stop, Vault};
use jac_rows::{Row, Rows};
use jac_value::{Id, Txt, Value};
use std::alloc::Global;
use std::marker::Model;

/// A keeper over another keeper. Contracts see it as that keeper. Each call is the call of its
/// `TableCache`, where the contracts also say when a table is held.
#[derive(Drop)]
pub struct CachedKeeper<K: Keeper> {
    cache: TableCache<K>,
}

impl<K: Keeper> Model for CachedKeeper<K> {
    ghost Value = { K };

    ghost view = { λ c. c.cache.keeper };
}

impl<K: Keeper> CachedKeeper<K> {
    /// A keeper that holds nothing yet.
    pub fn new(alloc: Global, keeper: K) -> CachedKeeper<K>
        ensures { result ≡ keeper }
    {
        CachedKeeper {
            cache: TableCache::new(alloc, keeper),
        }
    }

    /// The underlying keeper.
    pub fn keeper(&self) -> &K
        ensures { result.now ≡ self.now }
    {
        self.cache.keeper()
    }
}

impl<K: Keeper> Keeper for CachedKeeper<K> {
    ghost seen = { K.seen };

    ghost goes = { K.goes };

    fn number(&mut self) -> Result<u64, Stop> {
        self.cache.number()
    }

    fn rows(&mut self, alloc: Global, model: u8) -> Result<Rows, Stop> {
        self.cache.rows(alloc, model)
    }

    fn one(&mut self, alloc: Global, id: Id) -> Result<Rows, Stop> {
        self.cache.one(alloc, id)
    }

    fn find(&mut self, id: Id) -> Result<Option<Place>, Stop> {
        self.cache.find(id)
    }

    fn held(&self, id: Id, near: Place) -> Option<&[Row]> {
        self.cache.held(id, near)
    }

    fn find_rows(&mut self, alloc: Global, model: u8) -> Result<bool, Stop> {
        self.cache.find_rows(alloc, model)
    }

    fn held_rows(&self, model: u8) -> Option<&[Row]> {
        self.cache.held_rows(model)
    }

    fn rows_with(
        &mut self,
        alloc: Global,
        model: u8,
        field: u8,
        value: &Value,
    ) -> Result<Rows, Stop> {
        self.cache.rows_with(alloc, model, field, value)
    }

    fn apply(&mut self, alloc: Global, change: &Change) -> Result<(), Stop> {
        self.cache.apply(alloc, change)
    }
}

impl<K: Vault> Vault for CachedKeeper<K> {
    fn attach(
        &mut self,
        alloc: Global,
        name: Option<&Txt>,
        schema: &Txt,
    ) -> Result<(), AttachFault> {
        self.cache.attach(alloc, name, schema)
    }

    fn reshape(&mut self, alloc: Global, change: &Change, schema: &Txt) -> Result<(), Stop> {
        self.cache.reshape(alloc, change, schema)
    }
}
