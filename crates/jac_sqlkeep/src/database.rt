//! A database with the tables of a keeper.
ghost use Rattle.std.specs.Prelude.{◌≡◌, false, length, Err, IfOk, IfErr, OnErr, IsTrue};
ghost use Rattle.sqlite.specs.Held.{state};
ghost use Rattle.sqlite.specs.State.{IsLive};
ghost use Rattle.jac_value.specs.Ids.{model_of_id};
ghost use Rattle.jac_rows.specs.Good.{IsNext, IsSound};
ghost use Rattle.jac_rows.specs.Tables.{rows_of};
ghost use Rattle.jac_keep.specs.ChangedState.{changed_state};
ghost use Rattle.jac_keep.specs.Records.{alternatives};
ghost use Rattle.jac_keep.specs.MatchingRecords.{holders};
ghost use Rattle.jac_keep.specs.Reshaping.{widened_state};
ghost use Rattle.jac_keep.specs.Schema.{IsFit, shapes_by};
ghost use Rattle.jac_sql_spec.specs.Lasting.{ConnectionLasts, IsSeenUnmoved};
ghost use Rattle.jac_sql_spec.specs.Tables.{no_tables, two_tables};
ghost use Rattle.jac_sqlkeep.specs.Based.{DatabaseGoesOn, ReadsBased, AppliesBased, ReshapesBased, OpensBased, ReadsWhole, KeepsText, TellsStanding, based_keeper};

use crate::cause::{CORRUPT, NO_MEMORY, Unfit};
use crate::form::has_form;
use crate::meta::{find_schema, has_nothing, make_tables, read_number, test_key};
use crate::models::kinds_of;
use crate::records::{read_model, read_record, write_change};
use crate::stored::test_stored;
use jac_keep::{Change, holders};
use jac_rows::{Rows, Shape};
use jac_value::{Id, Memory, Txt, Value, id_model};
use sqlite::{Alter, Connection, Error};
use std::alloc::Global;
use std::marker::Model;

/// A database with the tables of a keeper, and the shape of its models. If its rows are known, its
/// state is known as long as its connection is open.
#[derive(Drop)]
pub struct Database<S: Alter> {
    conn: Connection<S>,
    shape: Shape,
    known: bool,
}

impl<S: Alter> Model for Database<S> {
    ghost use Rattle.std.specs.Prelude.{◌≡◌, IsTrue, false, length};
    ghost use Rattle.sqlite.specs.Held.{state};
    ghost use Rattle.jac_sql_spec.specs.Telling.{IsAllCommitted};
    ghost use Rattle.std.specs.Coded.{codes};
    ghost use Rattle.sqlite_schema.specs.contracts.schema.Schema as schema;
    ghost use Rattle.jac_sqlkeep.specs.Based.{Based, based_keeper};

    ghost Value = { Based };

    ghost coded = { Prim.hlevel (codes, schema.the_row.coded) };

    ghost view = { λ d. based_keeper S.Store d.shape.kinds d.known d.conn };

    ghost invariant = { λ d. (d.conn.in_transaction ≡ false) × (IsTrue d.known → IsAllCommitted (length d.shape.kinds) (state S.Store d.conn)) };
}

impl<S: Alter> Database<S> {
    /// Opens what is stored with this schema, or makes it if the database is empty. If another
    /// schema is stored, it is returned. A database with another schema, or that isn't a keeper's,
    /// is left as it is, and nothing is known of it.
    #[tactic(auto, using(crate::proofs::Based::stood_here))]
    pub fn open(
        alloc: Global,
        conn: Connection<S>,
        shape: Shape,
        schema: &Txt,
    ) -> (Database<S>, Result<Option<Txt>, Unfit>)
        requires outside { conn.in_transaction ≡ false }
        ensures { OpensBased S.Store schema.now shape.kinds shape.nested conn result.0 result.1 }
    {
        if !conn.is_autocommit() {
            unreachable!()
        }
        if has_nothing(&conn) {
            return Database::found(conn, shape, schema);
        }
        if !has_form(&conn) {
            return (Database::untold(conn, shape), Err(Unfit::Form));
        }
        Database::reopen(alloc, conn, shape, schema)
    }

    // A database of which nothing is known.
    fn untold(conn: Connection<S>, shape: Shape) -> Database<S>
        requires outside { conn.in_transaction ≡ false }
        ensures { result ≡ based_keeper S.Store shape.kinds false conn }
    {
        Database {
            conn,
            shape,
            known: false,
        }
    }

    // Makes a new store.
    fn found(
        mut conn: Connection<S>,
        shape: Shape,
        schema: &Txt,
    ) -> (Database<S>, Result<Option<Txt>, Unfit>)
        requires outside { conn.in_transaction ≡ false }
        requires none { (state S.Store conn).now.schema ≡ no_tables }
        ensures { OpensBased S.Store schema.now shape.kinds shape.nested conn result.0 result.1 }
    {
        match make_tables(&mut conn, schema) {
            Ok(()) => (
                Database {
                    conn,
                    shape,
                    known: true,
                },
                Ok(None),
            ),
            Err(error) => (Database::untold(conn, shape), Err(Unfit::Refused(error))),
        }
    }

    // Opens a store that was made before.
    fn reopen(
        alloc: Global,
        mut conn: Connection<S>,
        shape: Shape,
        schema: &Txt,
    ) -> (Database<S>, Result<Option<Txt>, Unfit>)
        requires outside { conn.in_transaction ≡ false }
        requires settled { IsTrue (state S.Store conn).is_open → (state S.Store conn).now
            ≡ (state S.Store conn).committed }
        requires form { (state S.Store conn).now.schema ≡ two_tables 0 1 2 }
        requires live { IsLive (state S.Store conn) }
        ensures { OpensBased S.Store schema.now shape.kinds shape.nested conn result.0 result.1 }
    {
        match read_whole(alloc, &mut conn, &shape, schema) {
            Ok(None) => (
                Database {
                    conn,
                    shape,
                    known: true,
                },
                Ok(None),
            ),
            Ok(Some(stored)) => (Database::untold(conn, shape), Ok(Some(stored))),
            Err(unfit) => (Database::untold(conn, shape), Err(unfit)),
        }
    }
}

// Reads and tests all of a store that was made before. If it has another schema, that is returned.
fn read_whole<S: Alter>(
    alloc: Global,
    conn: &mut Connection<S>,
    shape: &Shape,
    schema: &Txt,
) -> Result<Option<Txt>, Unfit>
    requires settled { IsTrue (state S.Store conn.old).is_open → (state S.Store conn.old).now
        ≡ (state S.Store conn.old).committed }
    requires form { (state S.Store conn.old).now.schema ≡ two_tables 0 1 2 }
    requires live { IsLive (state S.Store conn.old) }
    ensures read { IfOk result
        (ReadsWhole S.Store schema.now shape.now.kinds shape.now.nested conn.new) }
    ensures left { IsSeenUnmoved (state S.Store conn.old) (state S.Store conn.new) }
    ensures lasts { ConnectionLasts (state S.Store conn.old) (state S.Store conn.new) }
    ensures mode { conn.old.in_transaction ≡ false → conn.new.in_transaction ≡ false }
{
    test_key(conn)?;
    match find_schema(alloc, conn, schema) {
        Ok(None) => {
            test_stored(alloc, conn, shape)?;
            Ok(None)
        }
        Ok(Some(stored)) => Ok(Some(stored)),
        Err(error) => Err(Unfit::Refused(error)),
    }
}

impl<S: Alter> Database<S> {
    /// The connection.
    pub fn into_connection(self) -> Connection<S> {
        let Database {
            conn,
            shape: _,
            known: _,
        } = self;
        conn
    }

    /// Makes the state unknown from then on.
    pub fn doubt(&mut self)
        ensures { self.new ≡ record self.old { tells = false } }
    {
        self.known = false;
    }

    /// A law: as long as its state is known, it is well formed and committed.
    pub fn rows_stand(&self)
        ensures { TellsStanding self.now }
    {
        let _ = &self.conn;
    }

    pub fn number(&mut self) -> Result<u64, Error>
        ensures in_range { IfOk result IsNext }
        ensures reads { ReadsBased (λ s n. n ≡ s.number) self.old self.new result }
        ensures text { KeepsText self.old self.new }
        ensures goes { DatabaseGoesOn S.Store self.old self.new }
    {
        read_number(&mut self.conn)
    }

    /// A model that the schema doesn't have has no rows.
    pub fn rows(&mut self, alloc: Global, model: u8) -> Result<Rows, Error>
        ensures reads { ReadsBased (λ s rows. rows ≡ rows_of s.tables model)
            self.old self.new result }
        ensures text { KeepsText self.old self.new }
        ensures goes { DatabaseGoesOn S.Store self.old self.new }
    {
        match kinds_of(&self.shape, model) {
            Some(kinds) => read_model(alloc, &mut self.conn, model, kinds),
            None => Ok(Rows::empty(alloc)),
        }
    }

    pub fn one(&mut self, alloc: Global, id: Id) -> Result<Rows, Error>
        ensures reads { ReadsBased
            (λ s rows. rows ≡ alternatives id (rows_of s.tables (model_of_id id)))
            self.old self.new result }
        ensures text { KeepsText self.old self.new }
        ensures goes { DatabaseGoesOn S.Store self.old self.new }
    {
        match kinds_of(&self.shape, id_model(id)) {
            Some(kinds) => read_record(alloc, &mut self.conn, id, kinds),
            None => Ok(Rows::empty(alloc)),
        }
    }

    #[tactic(auto, using(crate::proofs::Based::found_based))]
    pub fn rows_with(
        &mut self,
        alloc: Global,
        model: u8,
        field: u8,
        value: &Value,
    ) -> Result<Rows, Error>
        ensures reads { ReadsBased
            (λ s rows. rows ≡ holders field value.now (rows_of s.tables model))
            self.old self.new result }
        ensures text { KeepsText self.old self.new }
        ensures goes { DatabaseGoesOn S.Store self.old self.new }
    {
        let rows = self.rows(alloc, model);
        found_among(alloc, rows, field, value)
    }

    pub fn apply(&mut self, alloc: Global, change: &Change) -> Result<(), Error>
        requires good { IsTrue self.old.tells → IsSound (changed_state change.now self.old.state) }
        ensures applies { AppliesBased change.now self.old self.new result }
        ensures text { KeepsText self.old self.new }
        ensures goes { DatabaseGoesOn S.Store self.old self.new }
    {
        let models = self.shape.kinds.as_slice().len();
        write_change(alloc, &mut self.conn, models, change, None)
    }

    /// Applies the change and brings the database to this schema.
    pub fn reshape(
        &mut self,
        alloc: Global,
        change: &Change,
        shape: Shape,
        schema: &Txt,
    ) -> Result<(), Error>
        requires fit { IsTrue self.old.tells → IsFit (shapes_by shape.kinds shape.nested)
            (widened_state (length shape.kinds) (changed_state change.now self.old.state)) }
        ensures reshapes { ReshapesBased change.now schema.now (length shape.kinds)
            self.old self.new result }
        ensures text { OnErr result (KeepsText self.old self.new) }
        ensures goes { DatabaseGoesOn S.Store self.old self.new }
    {
        let models = self.shape.kinds.as_slice().len();
        match write_change(alloc, &mut self.conn, models, change, Some(schema)) {
            Ok(()) => {
                self.shape = shape;
                Ok(())
            }
            Err(error) => Err(error),
        }
    }
}

// The records with this value among the rows that were read.
fn found_among(
    alloc: Global,
    rows: Result<Rows, Error>,
    field: u8,
    value: &Value,
) -> Result<Rows, Error>
    ensures found { IfOk rows (λ rows. IfOk result (λ found. found ≡ holders field value.now
        rows)) }
    ensures none { IfErr rows (λ error. result ≡ Err error) }
{
    let rows = match rows {
        Ok(rows) => rows,
        Err(error) => return Err(error),
    };
    match holders(alloc, rows.as_slice(), field, value) {
        Ok(found) => Ok(found),
        Err(Memory) => Err(NO_MEMORY),
    }
}
