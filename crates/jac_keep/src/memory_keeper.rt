ghost use Rattle.std.specs.Prelude.{◌≡◌, ◌≤◌, ◌^◌, ◌↔◌, ◌++◌, ◌∷◌, [], ℕ, List, Some, None, Err, true, false, IfOk, IfSome, OnOk, OnErr, IsTrue, IsErrOf, length};
ghost use Rattle.jac_rows.specs.declared.row.Row.{Row as Seen};
ghost use Rattle.std.specs.Option.{option_copied};
ghost use Rattle.jac_rows.specs.Good.{ModelShape};
ghost use Rattle.jac_value.specs.Ids.{model_of_id};
ghost use Rattle.jac_rows.specs.Good.{IsSound};
ghost use Rattle.jac_rows.specs.Tables.{rows_of};
ghost use Rattle.jac_keep.specs.Records.{alternatives};
ghost use Rattle.jac_keep.specs.MatchingRecords.{holders};
ghost use Rattle.jac_keep.specs.Indexed.{AreIndexesOf, AreIndexesIfMade};
ghost use Rattle.jac_keep.specs.Cause.{HasCause};
ghost use Rattle.jac_keep.specs.KeeperSeen.{Keeps, Looks, Reads};
ghost use Rattle.jac_keep.specs.ChangedState.{changed_state};
ghost use Rattle.jac_keep.specs.Attaching.{Attaches};
ghost use Rattle.jac_keep.specs.Reshaping.{widened_state, Reshapes};
ghost use Rattle.jac_keep.specs.Schema.{IsSchema, IsFit, empties};
ghost use Rattle.jac_keep.specs.declared.vault.AttachFault.TheVariants.{Failed, Other};

use crate::opening::{reshape_tables, widen};
use crate::places::{own_near, place_in};
use crate::together::alter_together;
use crate::{AttachFault, Change, Keeper, LastPlaces, Place, Stop, TableIndexes, Vault, shape_of};
use jac_io::Calls;
use jac_rows::{Row, Rows, State, Tables};
use jac_value::{Id, Memory, Txt, Value, copy_name, id_model};
use std::alloc::Global;
use std::marker::Model;

/// A keeper in memory. Its state is known. A call fails if its number is listed. The calls of
/// `number`, `rows`, `rows_with`, `one`, `find` and `find_rows` are counted as reads, those of
/// `apply` and `reshape` as applies. Both counts begin with 1.
#[derive(Debug, Drop)]
pub struct MemoryKeeper {
    called: bool,
    attached: bool,
    schema: Option<Txt>,
    name: Option<Txt>,
    state: State,
    // The indexes of the fields that `rows_with` was called for. They are altered with their
    // tables.
    indexes: Option<TableIndexes>,
    places: LastPlaces,
    fail_reads: Calls,
    fail_applies: Calls,
    reads: u64,
    applies: u64,
    faults: u64,
}

impl Model for MemoryKeeper {
    ghost use Rattle.jac_keep.specs.KeeperState.{KeeperState, IsKeeping};

    ghost Value = { KeeperState };

    ghost view = { λ k. record { state = k.state; store = record { called = k.called; attached = k.attached; schema = k.schema; name = k.name }; fail_reads = k.fail_reads; fail_applies = k.fail_applies; reads = k.reads; applies = k.applies; faults = k.faults } };

    ghost invariant = { λ k. IsKeeping k.state (record { called = k.called; attached = k.attached; schema = k.schema; name = k.name }) k.indexes };
}

impl MemoryKeeper {
    ghost use Rattle.jac_keep.specs.KeeperState.{IsStored, attached_store, unattached_store};

    /// A keeper that isn't attached. If there is a schema, the state is what is stored with it.
    /// Otherwise the store is new.
    pub fn new(
        state: State,
        schema: Option<Txt>,
        fail_reads: Calls,
        fail_applies: Calls,
    ) -> MemoryKeeper
        requires { IsStored schema state }
        ensures { result ≡ record {
          state = state;
          store = unattached_store schema;
          fail_reads = fail_reads;
          fail_applies = fail_applies;
          reads = 0;
          applies = 0;
          faults = 0;
        } }
    {
        MemoryKeeper {
            called: false,
            attached: false,
            schema,
            name: None,
            state,
            indexes: None,
            places: LastPlaces::none(),
            fail_reads,
            fail_applies,
            reads: 0,
            applies: 0,
            faults: 0,
        }
    }

    /// A keeper that is attached without a name or a schema.
    pub fn attached(state: State, fail_reads: Calls, fail_applies: Calls) -> MemoryKeeper
        requires { IsSound state }
        ensures { result ≡ record {
          state = state;
          store = attached_store;
          fail_reads = fail_reads;
          fail_applies = fail_applies;
          reads = 0;
          applies = 0;
          faults = 0;
        } }
    {
        MemoryKeeper {
            called: true,
            attached: true,
            schema: None,
            name: None,
            state,
            indexes: None,
            places: LastPlaces::none(),
            fail_reads,
            fail_applies,
            reads: 0,
            applies: 0,
            faults: 0,
        }
    }

    pub fn state(&self) -> &State
        ensures state { result.now ≡ self.now.state }
        ensures good { IsSound self.now.state }
    {
        &self.state
    }
}

impl MemoryKeeper {
    ghost use Rattle.jac_keep.specs.KeeperState.{read_fails, after_read};
    ghost use Rattle.jac_keep.specs.KeeperState.{apply_fails, after_apply};

    // Counts a read, and fails if its number is listed.
    fn count_read(&mut self) -> Result<(), Stop>
        ensures left { self.new ≡ after_read self.old }
        ensures stopped { IsErrOf result Stop.Keeper ↔ IsTrue (read_fails self.old) }
        ensures good { IsSound self.new.state }
        ensures cause { HasCause self.old.faults self.new.faults result }
    {
        self.reads = self.reads.saturating_add(1);
        let listed = self.fail_reads.lists(self.reads);
        if listed {
            self.faults = self.faults.saturating_add(1);
            return Err(Stop::Keeper);
        }
        Ok(())
    }

    // Counts an apply, and fails if its number is listed.
    fn count_apply(&mut self) -> Result<(), Stop>
        ensures left { self.new ≡ after_apply self.old }
        ensures stopped { IsErrOf result Stop.Keeper ↔ IsTrue (apply_fails self.old) }
        ensures good { IsSound self.new.state }
        ensures cause { HasCause self.old.faults self.new.faults result }
    {
        self.applies = self.applies.saturating_add(1);
        let listed = self.fail_applies.lists(self.applies);
        if listed {
            self.faults = self.faults.saturating_add(1);
            return Err(Stop::Keeper);
        }
        Ok(())
    }
}

impl Keeper for MemoryKeeper {
    ghost use Rattle.jac_keep.specs.KeeperState.{read_fails, after_read, apply_fails, after_apply, seen_keeper};

    ghost seen = { seen_keeper };

    fn number(&mut self) -> Result<u64, Stop>
        ensures left { self.new ≡ after_read self.old }
        ensures stopped { IsErrOf result Stop.Keeper ↔ IsTrue (read_fails self.old) }
        ensures exact { IfOk result (λ n. n ≡ self.old.state.number) }
        ensures in_range { IfOk result (λ n. (1 ≤ n) × (n ≤ 2 ^ 40)) }
        ensures reads { Reads (seen_keeper self.old) (seen_keeper self.new) result }
    {
        self.count_read()?;
        Ok(self.state.number)
    }

    fn rows(&mut self, alloc: Global, model: u8) -> Result<Rows, Stop>
        ensures left { self.new ≡ after_read self.old }
        ensures stopped { IsErrOf result Stop.Keeper ↔ IsTrue (read_fails self.old) }
        ensures exact { IfOk result (λ rows. rows ≡ rows_of self.old.state.tables model) }
        ensures reads { Reads (seen_keeper self.old) (seen_keeper self.new) result }
    {
        self.count_read()?;
        let rows = Rows::from_slice(alloc, self.state.tables.rows(model))?;
        Ok(rows)
    }

    fn one(&mut self, alloc: Global, id: Id) -> Result<Rows, Stop>
        ensures left { self.new ≡ after_read self.old }
        ensures stopped { IsErrOf result Stop.Keeper ↔ IsTrue (read_fails self.old) }
        ensures exact { IfOk result (λ rows. rows ≡ alternatives id (rows_of self.old.state.tables
            (model_of_id id))) }
        ensures reads { Reads (seen_keeper self.old) (seen_keeper self.new) result }
    {
        self.count_read()?;
        let rows = copy_of(alloc, &self.state, id)?;
        Ok(rows)
    }

    fn rows_with(
        &mut self,
        alloc: Global,
        model: u8,
        field: u8,
        value: &Value,
    ) -> Result<Rows, Stop>
        ensures left { self.new ≡ after_read self.old }
        ensures stopped { IsErrOf result Stop.Keeper ↔ IsTrue (read_fails self.old) }
        ensures exact { IfOk result (λ rows. rows ≡ holders field value.now
            (rows_of self.old.state.tables model)) }
        ensures reads { Reads (seen_keeper self.old) (seen_keeper self.new) result }
    {
        self.count_read()?;
        let rows = find(alloc, &self.state, &mut self.indexes, model, field, value)?;
        Ok(rows)
    }

    fn find(&mut self, id: Id) -> Result<Option<Place>, Stop>
        ensures left { self.new ≡ after_read self.old }
        ensures stopped { IsErrOf result Stop.Keeper ↔ IsTrue (read_fails self.old) }
        ensures looks { Looks (seen_keeper self.old) (seen_keeper self.new) result }
    {
        self.count_read()?;
        let rows = self.state.tables.rows(id_model(id));
        Ok(Some(self.places.find(rows, id)))
    }

    fn held(&self, id: Id, near: Place) -> Option<&[Row]>
        ensures { IfSome result (λ rows. rows.now ≡ alternatives id
            (rows_of self.now.state.tables (model_of_id id))) }
    {
        Some(own_of(&self.state, id, near))
    }

    fn find_rows(&mut self, alloc: Global, model: u8) -> Result<bool, Stop>
        ensures left { self.new ≡ after_read self.old }
        ensures stopped { IsErrOf result Stop.Keeper ↔ IsTrue (read_fails self.old) }
        ensures looks { Looks (seen_keeper self.old) (seen_keeper self.new) result }
    {
        let _ = alloc;
        let _ = model;
        self.count_read()?;
        Ok(true)
    }

    fn held_rows(&self, model: u8) -> Option<&[Row]>
        ensures { IfSome result (λ rows. rows.now ≡ rows_of self.now.state.tables model) }
    {
        Some(self.state.tables.rows(model))
    }

    fn apply(&mut self, alloc: Global, change: &Change) -> Result<(), Stop>
        requires attached { IsTrue self.old.store.attached }
        requires good { IsSound (changed_state change.now self.old.state) }
        ensures ok { OnOk result (self.new ≡ record (after_apply self.old)
            { state = changed_state change.now self.old.state }) }
        ensures err { OnErr result (self.new ≡ after_apply self.old) }
        ensures stopped { IsErrOf result Stop.Keeper ↔ IsTrue (apply_fails self.old) }
        ensures kept { Keeps (seen_keeper self.old) (seen_keeper self.new) result }
    {
        self.count_apply()?;
        alter_together(
            alloc,
            &mut self.state.tables,
            &mut self.indexes,
            &change.changed,
        )?;
        self.state.number = change.number;
        Ok(())
    }
}

impl Vault for MemoryKeeper {
    ghost use Rattle.jac_keep.specs.KeeperState.{after_attach, after_refusal, after_apply, after_reshape, apply_fails, seen_keeper};

    /// It never gives `Failed`. The name is kept, but not used.
    fn attach(&mut self, alloc: Global, name: Option<&Txt>, schema: &Txt) -> Result<(), AttachFault>
        requires first { self.old.store.called ≡ false }
        requires schema { (shapes : List ModelShape) × IsSchema schema.now shapes }
        ensures ok { OnOk result ((shapes : List ModelShape) → IsSchema schema.now shapes
            → self.new ≡ after_attach (option_copied name.entry) schema.now (length shapes)
            self.old) }
        ensures err { OnErr result (self.new ≡ after_refusal self.old) }
        ensures never_failed { ¬ (result ≡ Err Failed) }
        ensures other { (stored : List ℕ) → result ≡ Err (Other stored)
            → (self.old.store.schema ≡ Some stored) × ¬ (stored ≡ schema.now) }
        ensures attaches { Attaches (seen_keeper self.old) (seen_keeper self.new)
            (option_copied name.entry) schema.now result }
    {
        self.called = true;
        let name = copy_name(alloc, name)?;
        match made_for(alloc, &self.schema, schema)? {
            Some(made) => {
                self.begin(name, made);
                Ok(())
            }
            None => {
                self.reopen(name);
                Ok(())
            }
        }
    }

    /// It counts as an apply.
    fn reshape(&mut self, alloc: Global, change: &Change, schema: &Txt) -> Result<(), Stop>
        requires attached { IsTrue self.old.store.attached }
        requires schema { (shapes : List ModelShape) × IsSchema schema.now shapes
            × (IsTrue (seen_keeper self.old).tells
            → IsFit shapes
            (widened_state (length shapes) (changed_state change.now
            (seen_keeper self.old).state))) }
        ensures ok { OnOk result ((shapes : List ModelShape) → IsSchema schema.now shapes
            → self.new ≡ after_reshape change.now schema.now (length shapes) self.old) }
        ensures err { OnErr result (self.new ≡ after_apply self.old) }
        ensures stopped { IsErrOf result Stop.Keeper ↔ IsTrue (apply_fails self.old) }
        ensures reshapes { Reshapes (seen_keeper self.old) (seen_keeper self.new) change.now
            schema.now result }
    {
        self.count_apply()?;
        let models = count_models(alloc, schema)?;
        let schema = schema.copy(alloc)?;
        reshape_tables(alloc, &mut self.state.tables, &change.changed, models)?;
        self.state.number = change.number;
        self.schema = Some(schema);
        self.indexes = None;
        Ok(())
    }
}

impl MemoryKeeper {
    // Attaches a new store.
    fn begin(&mut self, name: Option<Txt>, made: Made)
        requires { IsSound (record self.old.state { tables = made.tables }) }
        ensures { self.new ≡ record self.old {
          state = record self.old.state
              { tables = made.tables };
          store = record {
            called = true;
            attached = true;
            schema = Some made.schema;
            name = name;
          };
        } }
    {
        self.state.tables = made.tables;
        self.indexes = None;
        self.schema = Some(made.schema);
        self.name = name;
        self.called = true;
        self.attached = true;
    }

    // Attaches the store with what it has stored.
    fn reopen(&mut self, name: Option<Txt>)
        ensures { self.new ≡ record self.old {
          store = record {
            called = true;
            attached = true;
            schema = self.old.store.schema;
            name = name;
          };
        } }
    {
        self.name = name;
        self.called = true;
        self.attached = true;
    }
}

// The schema and the tables of a new store.
#[derive(Drop)]
struct Made {
    schema: Txt,
    tables: Tables,
}

// The schema and the tables of a new store, or `None` if this schema is stored already.
fn made_for(alloc: Global, stored: &Option<Txt>, schema: &Txt) -> Result<Option<Made>, AttachFault>
    requires { (shapes : List ModelShape) × IsSchema schema.now shapes }
    ensures known { IfOk result (λ made. made ≡ None → stored.now ≡ Some schema.now) }
    ensures new { IfOk result (λ made. IfSome made (λ m. (stored.now ≡ None)
        × (m.schema ≡ schema.now))) }
    ensures tables { IfOk result (λ made. IfSome made (λ m. (shapes : List ModelShape)
        → IsSchema schema.now shapes → m.tables ≡ empties (length shapes))) }
    ensures never_failed { ¬ (result ≡ Err Failed) }
    ensures other { (text : List ℕ) → result ≡ Err (Other text) → (stored.now ≡ Some text)
        × ¬ (text ≡ schema.now) }
{
    match stored {
        Some(stored) => {
            if stored.as_bytes() == schema.as_bytes() {
                Ok(None)
            } else {
                let stored = stored.copy(alloc)?;
                Err(AttachFault::Other(stored))
            }
        }
        None => {
            let tables = new_tables(alloc, schema)?;
            let schema = schema.copy(alloc)?;
            Ok(Some(Made { schema, tables }))
        }
    }
}

// An empty table for each model of the schema.
fn new_tables(alloc: Global, schema: &Txt) -> Result<Tables, Memory>
    requires { (shapes : List ModelShape) × IsSchema schema.now shapes }
    ensures { IfOk result (λ tables. (shapes : List ModelShape) → IsSchema schema.now shapes
        → tables ≡ empties (length shapes)) }
{
    let models = count_models(alloc, schema)?;
    let room = Vec::with_capacity(alloc, models)?;
    Ok(Tables::from_vec(widen(alloc, room, models)))
}

// The number of models of the schema.
fn count_models(alloc: Global, schema: &Txt) -> Result<usize, Memory>
    requires { (shapes : List ModelShape) × IsSchema schema.now shapes }
    ensures { IfOk result (λ models. (shapes : List ModelShape) → IsSchema schema.now shapes
        → models ≡ length shapes) }
{
    match shape_of(alloc, schema)? {
        Some(shape) => Ok(shape.kinds.as_slice().len()),
        None => unreachable!(),
    }
}

// All alternatives of the records that have an alternative with the value in the field. The first
// call for a field makes its index.
fn find(
    alloc: Global,
    state: &State,
    indexes: &mut Option<TableIndexes>,
    model: u8,
    field: u8,
    value: &Value,
) -> Result<Rows, Memory>
    requires sound { IsSound state.now }
    requires indexed { AreIndexesIfMade state.now.tables indexes.old }
    ensures found { IfOk result (λ rows. rows ≡ holders field value.now
        (rows_of state.now.tables model)) }
    ensures indexed { AreIndexesIfMade state.now.tables indexes.new }
{
    let rows = state.tables.rows(model);
    let mut made = take_indexes(alloc, indexes);
    let found = made.find(alloc, rows, model, field, value);
    *indexes = Some(made);
    found
}

// Takes the indexes. If there are none yet, they are empty.
fn take_indexes(alloc: Global, indexes: &mut Option<TableIndexes>) -> TableIndexes
    ensures { (tables : List (List Seen)) → AreIndexesIfMade tables indexes.old
        → AreIndexesOf tables result }
{
    match indexes.take() {
        Some(made) => made,
        None => TableIndexes::none(alloc),
    }
}

// Copies of the record's rows.
fn copy_of(alloc: Global, state: &State, id: Id) -> Result<Rows, Memory>
    requires { IsSound state.now }
    ensures { IfOk result (λ r. r ≡ alternatives id (rows_of state.now.tables (model_of_id id))) }
{
    let rows = state.tables.rows(id_model(id));
    let place = place_in(rows, id);
    let (_, from) = rows.split_at(place.start);
    let (own, _) = from.split_at(place.count);
    Rows::from_slice(alloc, own)
}

// The record's rows. They are sought near this place first.
fn own_of(state: &State, id: Id, near: Place) -> &[Row]
    requires { IsSound state.now }
    ensures { result.now ≡ alternatives id (rows_of state.now.tables (model_of_id id)) }
{
    let rows = state.tables.rows(id_model(id));
    own_near(rows, id, near)
}
