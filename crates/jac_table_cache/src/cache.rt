ghost use Rattle.std.specs.Prelude.{◌≡◌, ◌≤◌, ◌^◌, List, [], length, IfOk, IfSome, IsErrOf, OnOk, OnErr, IsTrue, false};
ghost use Rattle.std.specs.Option.{option_copied};
ghost use Rattle.jac_value.specs.Ids.{model_of_id};
ghost use Rattle.jac_rows.specs.Good.{ModelShape, IsSound};
ghost use Rattle.jac_rows.specs.Tables.{rows_of};
ghost use Rattle.jac_keep.specs.Records.{alternatives};
ghost use Rattle.jac_keep.specs.MatchingRecords.{holders};
ghost use Rattle.jac_keep.specs.KeeperSeen.{Keeps, Looks, Reads};
ghost use Rattle.jac_keep.specs.ChangedState.{changed_state};
ghost use Rattle.jac_keep.specs.Schema.{IsSchema, IsFit};
ghost use Rattle.jac_keep.specs.Attaching.{Attaches};
ghost use Rattle.jac_keep.specs.Reshaping.{widened_state, Reshapes};
ghost use Rattle.jac_table_cache.specs.Held.{HoldsNothing};

use crate::held::HeldTables;
use crate::places::own_rows;
use crate::shared::shared_rows;
use jac_keep::{AttachFault, Change, Keeper, LastPlaces, Place, Stop, Vault, holders, own_near};
use jac_rows::{Row, Rows};
use jac_value::{Id, Txt, Value, id_model};
use std::alloc::Global;
use std::marker::Model;

/// A keeper, and the tables that were read from it. Held tables and their records are read from
/// memory. A change that is applied to the keeper is made in the held tables too. After a fault of
/// the keeper nothing is held: no table, and no record in an index, because each index is over held
/// rows.
#[derive(Drop)]
pub struct TableCache<K: Keeper> {
    alloc: Global,
    keeper: K,
    tables: HeldTables,
    places: LastPlaces,
}

impl<K: Keeper> Model for TableCache<K> {
    ghost use Rattle.jac_table_cache.specs.Held.{Cached, AreHeld};

    ghost Value = { Cached K };

    ghost view = { λ c. record { keeper = c.keeper; tables = c.tables } };

    ghost invariant = { λ c. AreHeld (K.seen c.keeper) c.tables };
}

impl<K: Keeper> TableCache<K> {
    pub fn new(alloc: Global, keeper: K) -> TableCache<K>
        ensures { result ≡ record { keeper = keeper; tables = [] } }
    {
        TableCache {
            alloc,
            keeper,
            tables: HeldTables::none(alloc),
            places: LastPlaces::none(),
        }
    }

    /// The underlying keeper.
    pub fn keeper(&self) -> &K
        ensures { result.now ≡ self.now.keeper }
    {
        &self.keeper
    }

    // The reason why the keeper stopped a call. If the keeper failed, everything that was held is
    // dropped.
    fn stopped(&mut self, stop: Stop) -> Stop
        ensures same { result ≡ stop }
        ensures same_keeper { self.new.keeper ≡ self.old.keeper }
        ensures forgotten { stop ≡ Stop.Keeper → HoldsNothing self.new }
    {
        match stop {
            Stop::Keeper => self.tables.forget_all(self.alloc),
            Stop::Memory => (),
        }
        stop
    }

    // Reads the table from the keeper.
    fn read(&mut self, alloc: Global, model: u8) -> Result<Rows, Stop>
        requires { IsTrue (K.seen self.old.keeper).store.attached }
        ensures exact { IsTrue (K.seen self.new.keeper).tells
            → IfOk result (λ rows. rows ≡ rows_of (K.seen self.old.keeper).state.tables model) }
        ensures reads { Reads (K.seen self.old.keeper) (K.seen self.new.keeper) result }
        ensures goes { K.goes.holds self.old.keeper self.new.keeper }
        ensures forgotten { IsErrOf result Stop.Keeper → HoldsNothing self.new }
    {
        match self.keeper.rows(alloc, model) {
            Ok(rows) => {
                let rows = shared_rows(alloc, rows)?;
                Ok(rows)
            }
            Err(stop) => Err(self.stopped(stop)),
        }
    }
}

impl<K: Keeper> TableCache<K> {
    /// The number of the next accepted request.
    pub fn number(&mut self) -> Result<u64, Stop>
        requires { IsTrue (K.seen self.old.keeper).store.attached }
        ensures exact { IsTrue (K.seen self.new.keeper).tells
            → IfOk result (λ n. n ≡ (K.seen self.old.keeper).state.number) }
        ensures in_range { IfOk result (λ n. (1 ≤ n) × (n ≤ 2 ^ 40)) }
        ensures reads { Reads (K.seen self.old.keeper) (K.seen self.new.keeper) result }
        ensures goes { K.goes.holds self.old.keeper self.new.keeper }
        ensures forgotten { IsErrOf result Stop.Keeper → HoldsNothing self.new }
    {
        match self.keeper.number() {
            Ok(number) => Ok(number),
            Err(stop) => Err(self.stopped(stop)),
        }
    }

    /// All rows of the model, by rising id.
    pub fn rows(&mut self, alloc: Global, model: u8) -> Result<Rows, Stop>
        requires { IsTrue (K.seen self.old.keeper).store.attached }
        ensures exact { IsTrue (K.seen self.new.keeper).tells
            → IfOk result (λ rows. rows ≡ rows_of (K.seen self.old.keeper).state.tables model) }
        ensures reads { Reads (K.seen self.old.keeper) (K.seen self.new.keeper) result }
        ensures goes { K.goes.holds self.old.keeper self.new.keeper }
        ensures forgotten { IsErrOf result Stop.Keeper → HoldsNothing self.new }
    {
        if let Some(rows) = self.tables.find(model) {
            let rows = rows.copy(alloc)?;
            return Ok(rows);
        }
        let rows = self.read(alloc, model)?;
        let held = rows.copy(alloc)?;
        self.tables.hold(model, held)?;
        Ok(rows)
    }

    /// The alternatives of one record.
    pub fn one(&mut self, alloc: Global, id: Id) -> Result<Rows, Stop>
        requires { IsTrue (K.seen self.old.keeper).store.attached }
        ensures exact { IsTrue (K.seen self.new.keeper).tells
            → IfOk result (λ rows. rows ≡ alternatives id
            (rows_of (K.seen self.old.keeper).state.tables (model_of_id id))) }
        ensures reads { Reads (K.seen self.old.keeper) (K.seen self.new.keeper) result }
        ensures goes { K.goes.holds self.old.keeper self.new.keeper }
        ensures forgotten { IsErrOf result Stop.Keeper → HoldsNothing self.new }
    {
        if let Some(rows) = self.tables.find(id_model(id)) {
            let rows = own_rows(alloc, rows.as_slice(), id)?;
            return Ok(rows);
        }
        match self.keeper.one(alloc, id) {
            Ok(rows) => Ok(rows),
            Err(stop) => Err(self.stopped(stop)),
        }
    }

    /// The place of the alternatives of one record, if they are in memory.
    pub fn find(&mut self, id: Id) -> Result<Option<Place>, Stop>
        requires { IsTrue (K.seen self.old.keeper).store.attached }
        ensures looks { Looks (K.seen self.old.keeper) (K.seen self.new.keeper) result }
        ensures goes { K.goes.holds self.old.keeper self.new.keeper }
        ensures forgotten { IsErrOf result Stop.Keeper → HoldsNothing self.new }
    {
        if let Some(rows) = self.tables.find(id_model(id)) {
            return Ok(Some(self.places.find(rows.as_slice(), id)));
        }
        match self.keeper.find(id) {
            Ok(place) => Ok(place),
            Err(stop) => Err(self.stopped(stop)),
        }
    }

    /// The alternatives of one record, borrowed, if they are in memory.
    pub fn held(&self, id: Id, near: Place) -> Option<&[Row]>
        ensures { IfSome result (λ rows. IsTrue (K.seen self.now.keeper).tells
            → rows.now ≡ alternatives id (rows_of (K.seen self.now.keeper).state.tables
            (model_of_id id))) }
    {
        match self.tables.find(id_model(id)) {
            Some(rows) => Some(own_near(rows.as_slice(), id, near)),
            None => self.keeper.held(id, near),
        }
    }

    /// Whether the rows of the model are in memory after the call. If the table isn't held, this
    /// reads the whole table and holds it.
    pub fn find_rows(&mut self, alloc: Global, model: u8) -> Result<bool, Stop>
        requires { IsTrue (K.seen self.old.keeper).store.attached }
        ensures looks { Looks (K.seen self.old.keeper) (K.seen self.new.keeper) result }
        ensures goes { K.goes.holds self.old.keeper self.new.keeper }
        ensures forgotten { IsErrOf result Stop.Keeper → HoldsNothing self.new }
    {
        if self.tables.holds(model) {
            return Ok(true);
        }
        let table = self.read(alloc, model)?;
        self.tables.hold(model, table)?;
        Ok(self.tables.holds(model))
    }

    /// All rows of the model, by rising id, borrowed, if they are in memory.
    pub fn held_rows(&self, model: u8) -> Option<&[Row]>
        ensures { IfSome result (λ rows. IsTrue (K.seen self.now.keeper).tells
            → rows.now ≡ rows_of (K.seen self.now.keeper).state.tables model) }
    {
        match self.tables.find(model) {
            Some(rows) => Some(rows.as_slice()),
            None => self.keeper.held_rows(model),
        }
    }

    /// All alternatives of each record of the model that has an alternative with the value at the
    /// field. If the table isn't held, this reads the whole table and holds it. A held table is
    /// searched by an index.
    pub fn rows_with(
        &mut self,
        alloc: Global,
        model: u8,
        field: u8,
        value: &Value,
    ) -> Result<Rows, Stop>
        requires { IsTrue (K.seen self.old.keeper).store.attached }
        ensures exact { IsTrue (K.seen self.new.keeper).tells
            → IfOk result (λ rows. rows ≡ holders field value.now
            (rows_of (K.seen self.old.keeper).state.tables model)) }
        ensures reads { Reads (K.seen self.old.keeper) (K.seen self.new.keeper) result }
        ensures goes { K.goes.holds self.old.keeper self.new.keeper }
        ensures forgotten { IsErrOf result Stop.Keeper → HoldsNothing self.new }
    {
        if let Some(found) = self.tables.find_with(alloc, model, field, value)? {
            return Ok(found);
        }
        let rows = self.read(alloc, model)?;
        let found = holders(alloc, rows.as_slice(), field, value)?;
        self.tables.hold(model, rows)?;
        Ok(found)
    }

    /// Replaces the named records and sets the number, all or nothing.
    pub fn apply(&mut self, alloc: Global, change: &Change) -> Result<(), Stop>
        requires attached { IsTrue (K.seen self.old.keeper).store.attached }
        requires good { IsTrue (K.seen self.old.keeper).tells
            → IsSound (changed_state change.now (K.seen self.old.keeper).state) }
        ensures exact { IsTrue (K.seen self.new.keeper).tells
            → OnOk result ((K.seen self.new.keeper).state
            ≡ changed_state change.now (K.seen self.old.keeper).state) }
        ensures refused { IsTrue (K.seen self.new.keeper).tells
            → OnErr result ((K.seen self.new.keeper).state ≡ (K.seen self.old.keeper).state) }
        ensures kept { Keeps (K.seen self.old.keeper) (K.seen self.new.keeper) result }
        ensures goes { K.goes.holds self.old.keeper self.new.keeper }
        ensures forgotten { IsErrOf result Stop.Keeper → HoldsNothing self.new }
    {
        match self.keeper.apply(alloc, change) {
            Ok(()) => {
                self.tables.alter(alloc, &change.changed);
                Ok(())
            }
            Err(stop) => Err(self.stopped(stop)),
        }
    }
}

impl<K: Vault> TableCache<K> {
    /// Attaches the keeper.
    pub fn attach(
        &mut self,
        alloc: Global,
        name: Option<&Txt>,
        schema: &Txt,
    ) -> Result<(), AttachFault>
        requires first { (K.Keeper.seen self.old.keeper).store.called ≡ false }
        requires schema { (shapes : List ModelShape) × IsSchema schema.now shapes }
        ensures attaches { Attaches (K.Keeper.seen self.old.keeper) (K.Keeper.seen self.new.keeper)
            (option_copied name.entry) schema.now result }
        ensures forgotten { HoldsNothing self.new }
    {
        self.tables.forget_all(alloc);
        self.keeper.attach(alloc, name, schema)
    }

    /// Brings the keeper to another schema.
    pub fn reshape(&mut self, alloc: Global, change: &Change, schema: &Txt) -> Result<(), Stop>
        requires attached { IsTrue (K.Keeper.seen self.old.keeper).store.attached }
        requires schema { (shapes : List ModelShape) × IsSchema schema.now shapes
            × (IsTrue (K.Keeper.seen self.old.keeper).tells
            → IsFit shapes (widened_state (length shapes) (changed_state change.now
            (K.Keeper.seen self.old.keeper).state))) }
        ensures reshapes { Reshapes (K.Keeper.seen self.old.keeper) (K.Keeper.seen self.new.keeper)
            change.now schema.now result }
        ensures goes { K.Keeper.goes.holds self.old.keeper self.new.keeper }
        ensures forgotten { HoldsNothing self.new }
    {
        self.tables.forget_all(alloc);
        self.keeper.reshape(alloc, change, schema)
    }
}
