ghost use Rattle.std.specs.Prelude.{◌≡◌, ◌≤◌, ◌^◌, ◌||◌, ℕ, List, Option, Some, None, Err, IfOk, OnOk, OnErr, IsSomeAnd, IsTrue, true, false, is_some, length};
ghost use Rattle.std.specs.Option.{option_copied};
ghost use Rattle.jac_value.specs.Ids.{model_of_id};
ghost use Rattle.jac_io.specs.Faults.{Rose};
ghost use Rattle.jac_rows.specs.Good.{ModelShape, IsNext, IsSound};
ghost use Rattle.jac_rows.specs.Tables.{rows_of};
ghost use Rattle.jac_keep.specs.KeeperSeen.{Keeps, Reads};
ghost use Rattle.jac_keep.specs.ChangedState.{changed_state};
ghost use Rattle.jac_keep.specs.Records.{alternatives};
ghost use Rattle.jac_keep.specs.MatchingRecords.{holders};
ghost use Rattle.jac_keep.specs.Reshaping.{widened_state, Reshapes};
ghost use Rattle.jac_keep.specs.Schema.{IsSchema, IsFit, shapes_by};
ghost use Rattle.jac_keep.specs.Attaching.{Attaches};
ghost use Rattle.jac_keep.specs.declared.vault.AttachFault.TheVariants.{Other};
ghost use Rattle.jac_sqlkeep.specs.Kept.{HasSchema, HasStore, TellsSchema, IsKnownAs, IsRefusedAs, BeginsGiven, IsLeftAs, LearnsSchema, KeeperGoesOn};

use crate::Opener;
use crate::cause::{Unfit, error_of, stop_of};
use crate::database::Database;
use jac_keep::{AttachFault, Change, Keeper, Stop, Vault, shape_of};
use jac_rows::{Rows, Shape};
use jac_value::{Id, Memory, Txt, Value, copy_name};
use sqlite::{Connection, Error};
use std::alloc::Global;
use std::marker::Model;

/// A keeper in a database. Its state is known after it is attached, as long as the connection is
/// open. It counts each statement that was refused, unless memory ran out. It also counts each
/// store whose tables or rows aren't those of a state that fits its schema, each stored row that
/// isn't a row of its model, each change of a record that belongs to none of its models, and each
/// opening that failed.
#[derive(Drop)]
pub struct SqlKeeper<O: Opener> {
    opener: O,
    called: bool,
    schema: Option<Txt>,
    name: Option<Txt>,
    database: Option<Database<O::Store>>,
    refused: Option<Database<O::Store>>,
    unfit: Option<Unfit>,
    error: Option<Error>,
    faults: u64,
}

impl<O: Opener> Model for SqlKeeper<O> {
    ghost use Rattle.std.specs.Prelude.{is_some, IsTrue, IfSome};
    ghost use Rattle.std.specs.Coded.{codes};
    ghost use Rattle.sqlite_schema.specs.contracts.schema.Schema as tables;
    ghost use Rattle.jac_sqlkeep.specs.Kept.{Kept, IsKnownAs};

    ghost Value = { Kept };

    ghost coded = { Prim.hlevel (codes, tables.the_row.coded) };

    ghost view = { λ k. record { store = record { called = k.called; attached = is_some k.database; schema = k.schema; name = k.name }; faults = k.faults; unopened = O.faults k.opener; given = O.gave k.opener; database = k.database; refused = k.refused } };

    ghost invariant = { λ k. (IsTrue (is_some k.database) → IsTrue k.called)
        × IfSome k.database (IsKnownAs k.schema) };
}

impl<O: Opener> SqlKeeper<O> {
    ghost use Rattle.jac_sqlkeep.specs.Kept.{untouched_keeper};

    /// A keeper that isn't attached yet.
    pub fn new(opener: O) -> SqlKeeper<O>
        ensures { result ≡ untouched_keeper (O.faults opener) (O.gave opener) }
    {
        SqlKeeper {
            opener,
            called: false,
            schema: None,
            name: None,
            database: None,
            refused: None,
            unfit: None,
            error: None,
            faults: 0,
        }
    }

    pub fn opener(&self) -> &O
        ensures { O.gave result.now ≡ self.now.given }
    {
        &self.opener
    }

    /// Why the stored database wasn't attached, if it could be opened.
    pub fn unfit(&self) -> Option<Unfit> {
        self.unfit
    }
}

impl<O: Opener> SqlKeeper<O> {
    ghost use Rattle.jac_sqlkeep.specs.Kept.{seen_kept, HasStandingDatabase, KnowsSchema};

    pub fn is_attached(&self) -> bool
        ensures { result ≡ self.now.store.attached }
    {
        self.database.is_some()
    }

    /// How often the keeper failed.
    pub fn faults(&self) -> u64
        ensures { result ≡ self.now.faults }
    {
        self.faults
    }

    /// Why the last statement was refused, if one was.
    pub fn error(&self) -> Option<Error> {
        self.error
    }

    /// A law: as long as the state of its database is known, the database is well formed and
    /// committed.
    pub fn rows_stand(&self)
        ensures { HasStandingDatabase self.now }
    {
        if let Some(database) = &self.database {
            database.rows_stand();
        }
    }

    /// A law: as long as the state of its database is known, its schema is the text in that.
    pub fn schema_stands(&self)
        ensures { KnowsSchema self.now }
    {
        let _ = &self.database;
    }

    /// Makes the state unknown from then on.
    pub fn doubt(&mut self)
        ensures untold { (seen_kept self.new).tells ≡ false }
        ensures same_store { self.new.store ≡ self.old.store }
        ensures same_faults { self.new.faults ≡ self.old.faults }
    {
        if let Some(database) = &mut self.database {
            database.doubt();
        }
    }

    /// The opener, and the connection to the attached or refused store, if there is one.
    pub fn into_parts(self) -> (O, Option<Connection<O::Store>>)
        ensures some { is_some result.1 ≡ (is_some self.database || is_some self.refused) }
    {
        let SqlKeeper {
            opener,
            called: _,
            schema: _,
            name: _,
            database,
            refused,
            unfit: _,
            error: _,
            faults: _,
        } = self;
        let conn = match database {
            Some(database) => Some(database.into_connection()),
            None => match refused {
                Some(refused) => Some(refused.into_connection()),
                None => None,
            },
        };
        (opener, conn)
    }
}

impl<O: Opener> Keeper for SqlKeeper<O> {
    ghost use Rattle.jac_sqlkeep.specs.Kept.{seen_kept};
    ghost use Rattle.jac_sqlkeep.specs.GoesOn.{keeper_goes_on};

    ghost seen = { seen_kept };

    /// A known state stays known as long as the connection is open. Only faults of the disk shut
    /// the connection.
    ghost goes = { keeper_goes_on O.Store.Store };

    #[tactic(auto, using(crate::proofs::Attached::still_known))]
    fn number(&mut self) -> Result<u64, Stop>
        requires { IsTrue self.old.store.attached }
        ensures exact { IsTrue (seen_kept self.new).tells
            → IfOk result (λ n. n ≡ (seen_kept self.old).state.number) }
        ensures in_range { IfOk result (λ n. (1 ≤ n) × (n ≤ 2 ^ 40)) }
        ensures reads { Reads (seen_kept self.old) (seen_kept self.new) result }
        ensures goes { KeeperGoesOn O.Store.Store self.old.database self.new.database }
    {
        let Some(database) = &mut self.database else {
            unreachable!()
        };
        match database.number() {
            Ok(number) => Ok(number),
            Err(error) => {
                self.error = Some(error);
                Err(stop_of(error, &mut self.faults))
            }
        }
    }

    #[tactic(auto, using(crate::proofs::Attached::still_known))]
    fn rows(&mut self, alloc: Global, model: u8) -> Result<Rows, Stop>
        requires { IsTrue self.old.store.attached }
        ensures exact { IsTrue (seen_kept self.new).tells
            → IfOk result (λ rows. rows ≡ rows_of (seen_kept self.old).state.tables model) }
        ensures reads { Reads (seen_kept self.old) (seen_kept self.new) result }
        ensures goes { KeeperGoesOn O.Store.Store self.old.database self.new.database }
    {
        let Some(database) = &mut self.database else {
            unreachable!()
        };
        match database.rows(alloc, model) {
            Ok(rows) => Ok(rows),
            Err(error) => {
                self.error = Some(error);
                Err(stop_of(error, &mut self.faults))
            }
        }
    }

    #[tactic(auto, using(crate::proofs::Attached::still_known))]
    fn one(&mut self, alloc: Global, id: Id) -> Result<Rows, Stop>
        requires { IsTrue self.old.store.attached }
        ensures exact { IsTrue (seen_kept self.new).tells
            → IfOk result (λ rows. rows ≡ alternatives id (rows_of (seen_kept self.old).state.tables
            (model_of_id id))) }
        ensures reads { Reads (seen_kept self.old) (seen_kept self.new) result }
        ensures goes { KeeperGoesOn O.Store.Store self.old.database self.new.database }
    {
        let Some(database) = &mut self.database else {
            unreachable!()
        };
        match database.one(alloc, id) {
            Ok(rows) => Ok(rows),
            Err(error) => {
                self.error = Some(error);
                Err(stop_of(error, &mut self.faults))
            }
        }
    }

    /// Reads the whole table, and finds the records in it.
    #[tactic(auto, using(crate::proofs::Attached::still_known))]
    fn rows_with(
        &mut self,
        alloc: Global,
        model: u8,
        field: u8,
        value: &Value,
    ) -> Result<Rows, Stop>
        requires { IsTrue self.old.store.attached }
        ensures exact { IsTrue (seen_kept self.new).tells
            → IfOk result (λ rows. rows ≡ holders field value.now
            (rows_of (seen_kept self.old).state.tables model)) }
        ensures reads { Reads (seen_kept self.old) (seen_kept self.new) result }
        ensures goes { KeeperGoesOn O.Store.Store self.old.database self.new.database }
    {
        let Some(database) = &mut self.database else {
            unreachable!()
        };
        match database.rows_with(alloc, model, field, value) {
            Ok(rows) => Ok(rows),
            Err(error) => {
                self.error = Some(error);
                Err(stop_of(error, &mut self.faults))
            }
        }
    }

    #[tactic(auto, using(crate::proofs::Attached::still_known))]
    fn apply(&mut self, alloc: Global, change: &Change) -> Result<(), Stop>
        requires attached { IsTrue self.old.store.attached }
        requires good { IsTrue (seen_kept self.old).tells
            → IsSound (changed_state change.now (seen_kept self.old).state) }
        ensures exact { IsTrue (seen_kept self.new).tells
            → OnOk result ((seen_kept self.new).state
            ≡ changed_state change.now (seen_kept self.old).state) }
        ensures refused { IsTrue (seen_kept self.new).tells
            → OnErr result ((seen_kept self.new).state ≡ (seen_kept self.old).state) }
        ensures kept { Keeps (seen_kept self.old) (seen_kept self.new) result }
        ensures goes { KeeperGoesOn O.Store.Store self.old.database self.new.database }
    {
        let Some(database) = &mut self.database else {
            unreachable!()
        };
        match database.apply(alloc, change) {
            Ok(()) => Ok(()),
            Err(error) => {
                self.error = Some(error);
                Err(stop_of(error, &mut self.faults))
            }
        }
    }
}

impl<O: Opener> Vault for SqlKeeper<O> {
    ghost use Rattle.jac_sqlkeep.specs.Kept.{seen_kept};

    /// Reads and tests all of a store that was made before. A database that isn't a store is left
    /// as it is.
    #[tactic(auto, using(crate::proofs::Attached::learns_failed, crate::proofs::Attached::left_unopened, crate::proofs::Attached::begun_known, crate::proofs::Attached::none_before))]
    fn attach(&mut self, alloc: Global, name: Option<&Txt>, schema: &Txt) -> Result<(), AttachFault>
        requires first { self.old.store.called ≡ false }
        requires schema { (shapes : List ModelShape) × IsSchema schema.now shapes }
        ensures attaches { Attaches (seen_kept self.old) (seen_kept self.new)
            (option_copied name.entry) schema.now result }
        ensures stored { OnOk result (IsSomeAnd self.new.database (HasSchema schema.now)) }
        ensures other_stored { (stored : List ℕ) → result ≡ Err (Other stored)
            → IsSomeAnd self.new.refused (HasStore stored) }
        ensures begins { OnOk result (IsSomeAnd self.new.database
            (BeginsGiven O.Store.Store (O.gives (option_copied name.entry)) schema.now)) }
        ensures left { IsLeftAs O.Store.Store (O.gives (option_copied name.entry)) self.old self.new
            result }
        ensures learns { LearnsSchema self.old self.new result }
    {
        self.called = true;
        let Ok(known) = known_of(alloc, name, schema) else {
            return Err(AttachFault::Memory);
        };
        let conn = match self.opener.open(alloc, name) {
            Ok(conn) => conn,
            Err(fault) => return Err(counted(fault, &mut self.faults)),
        };
        let Known {
            name,
            shape,
            schema: copy,
        } = known;
        let (database, told) = Database::open(alloc, conn, shape, schema);
        match told {
            Ok(None) => {
                self.begin(database, name, copy);
                Ok(())
            }
            Ok(Some(stored)) => self.refuse(alloc, database, stored),
            Err(unfit) => Err(self.fail(database, unfit)),
        }
    }

    #[tactic(auto, using(crate::proofs::Attached::still_known, crate::proofs::Attached::known_after))]
    fn reshape(&mut self, alloc: Global, change: &Change, schema: &Txt) -> Result<(), Stop>
        requires attached { IsTrue self.old.store.attached }
        requires schema { (shapes : List ModelShape) × IsSchema schema.now shapes
            × (IsTrue (seen_kept self.old).tells
            → IsFit shapes
            (widened_state (length shapes) (changed_state change.now (seen_kept self.old).state))) }
        ensures reshapes { Reshapes (seen_kept self.old) (seen_kept self.new) change.now schema.now
            result }
        ensures stored { OnOk result (IsSomeAnd self.new.database (TellsSchema schema.now)) }
        ensures goes { KeeperGoesOn O.Store.Store self.old.database self.new.database }
    {
        let Ok(known) = known_of(alloc, None, schema) else {
            return Err(Stop::Memory);
        };
        let Known {
            name: _,
            shape,
            schema: copy,
        } = known;
        let Some(database) = &mut self.database else {
            unreachable!()
        };
        match database.reshape(alloc, change, shape, schema) {
            Ok(()) => {
                self.schema = Some(copy);
                Ok(())
            }
            Err(error) => {
                self.error = Some(error);
                Err(stop_of(error, &mut self.faults))
            }
        }
    }
}

impl<O: Opener> SqlKeeper<O> {
    // Makes the database that of the keeper.
    fn begin(&mut self, database: Database<O::Store>, name: Option<Txt>, schema: Txt)
        requires called { IsTrue self.old.store.called }
        requires known { IsKnownAs (Some schema) database }
        ensures { self.new ≡ record self.old {
          store = record {
            called = self.old.store.called;
            attached = true;
            schema = Some schema;
            name = name;
          };
          database = Some database;
        } }
    {
        self.name = name;
        self.schema = Some(schema);
        self.database = Some(database);
    }

    // Refuses a store with another schema.
    fn refuse(
        &mut self,
        alloc: Global,
        database: Database<O::Store>,
        stored: Txt,
    ) -> Result<(), AttachFault>
        requires none { self.old.database ≡ None }
        ensures refused { IsRefusedAs self.old self.new database stored result }
    {
        self.refused = Some(database);
        match stored.copy(alloc) {
            Ok(copy) => {
                self.schema = Some(copy);
                Err(AttachFault::Other(stored))
            }
            Err(Memory) => Err(AttachFault::Memory),
        }
    }

    // Refuses a store that can't be attached.
    fn fail(&mut self, database: Database<O::Store>, unfit: Unfit) -> AttachFault
        ensures later { self.old.faults ≤ self.new.faults }
        ensures rose { result ≡ AttachFault.Failed → Rose self.old.faults self.new.faults }
        ensures uncounted { result ≡ AttachFault.Memory → self.new.faults ≡ self.old.faults }
        ensures other { (stored : List ℕ) → ¬ (result ≡ AttachFault.Other stored) }
        ensures same { self.new ≡ record self.old {
          faults = self.new.faults;
          refused = Some database;
        } }
    {
        self.unfit = Some(unfit);
        self.refused = Some(database);
        fault_of(stop_of(error_of(unfit), &mut self.faults))
    }
}

// What the keeper knows of its store before opening it.
#[derive(Drop)]
struct Known {
    name: Option<Txt>,
    schema: Txt,
    shape: Shape,
}

fn known_of(alloc: Global, name: Option<&Txt>, schema: &Txt) -> Result<Known, Memory>
    requires { (shapes : List ModelShape) × IsSchema schema.now shapes }
    ensures name { IfOk result (λ known. known.name ≡ option_copied name.entry) }
    ensures schema { IfOk result (λ known. known.schema ≡ schema.now) }
    ensures shape { IfOk result (λ known. IsSchema schema.now (shapes_by known.shape.kinds
        known.shape.nested)) }
{
    let name = copy_name(alloc, name)?;
    let shape = known_shape(alloc, schema)?;
    let schema = schema.copy(alloc)?;
    Ok(Known {
        name,
        schema,
        shape,
    })
}

fn known_shape(alloc: Global, schema: &Txt) -> Result<Shape, Memory>
    requires { (shapes : List ModelShape) × IsSchema schema.now shapes }
    ensures { IfOk result (λ shape. IsSchema schema.now (shapes_by shape.kinds shape.nested)) }
{
    match shape_of(alloc, schema)? {
        Some(shape) => Ok(shape),
        None => unreachable!(),
    }
}

fn fault_of(stop: Stop) -> AttachFault
    ensures failed { result ≡ AttachFault.Failed → stop ≡ Stop.Keeper }
    ensures memory { result ≡ AttachFault.Memory → stop ≡ Stop.Memory }
    ensures other { (stored : List ℕ) → ¬ (result ≡ AttachFault.Other stored) }
{
    match stop {
        Stop::Keeper => AttachFault::Failed,
        Stop::Memory => AttachFault::Memory,
    }
}

// The fault of an opening. A failure that the opener counted is counted here too.
fn counted(fault: AttachFault, faults: &mut u64) -> AttachFault
    ensures later { faults.old ≤ faults.new }
    ensures rose { result ≡ AttachFault.Failed → Rose faults.old faults.new }
    ensures uncounted { result ≡ AttachFault.Memory → faults.new ≡ faults.old }
    ensures same { result ≡ fault }
{
    if let AttachFault::Failed = &fault {
        *faults = faults.saturating_add(1);
    }
    fault
}
