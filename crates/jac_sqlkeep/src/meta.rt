//! The table `meta`: the number of the next accepted request, and the schema of what is stored.
ghost use Rattle.std.specs.Prelude.{◌≡◌, ◌∷◌, [], pos, true, false, IfOk, IfErr, IfSome, IsTrue, OnOk, OnErr, IsErr};
ghost use Rattle.std.specs.Option.{option_copied};
ghost use Rattle.sqlite_value.specs.Order.{column};
ghost use Rattle.sqlite_value.specs.declared.value.Value.TheVariants.{Int};
ghost use Rattle.sqlite.specs.Held.{state};
ghost use Rattle.sqlite.specs.State.{HasCleanDisk};
ghost use Rattle.jac_rows.specs.Good.{IsNext};
ghost use Rattle.jac_sql_spec.specs.Founding.{HasNumber, IsNumberAsked, IsFrom, FindsSchema, Tells};
ghost use Rattle.jac_sql_spec.specs.Lasting.{ConnectionLasts, LeavesStoredTables};
ghost use Rattle.jac_sql_spec.specs.Statements.{founding, numbering, reshaping, settings};
ghost use Rattle.jac_sql_spec.specs.Tables.{no_tables};
ghost use Rattle.jac_sql_spec.specs.Telling.{IsAllCommitted, ReadsTold};
ghost use Rattle.jac_sql_spec.specs.Testing.{IsOneKey, ShowsKey};
ghost use Rattle.jac_sql_spec.specs.Transaction.{Inside, Transacts, EndsCommitted};

use crate::cause::{CORRUPT, NO_MEMORY, Unfit};
use crate::step::run;
use jac_value::{Txt, TxtFault};
use sqlite::types::ValueRef;
use sqlite::{Alter, Connection, Error, ErrorCode, Row, Transaction, params};
use sqlite_schema::schema::Schema;
use std::alloc::Global;

const MAKE_META: &str =
    "CREATE TABLE meta(k INTEGER PRIMARY KEY, number INTEGER NOT NULL, schema TEXT NOT NULL) STRICT";

const MAKE_RECORDS: &str =
    "CREATE TABLE rec(model INTEGER NOT NULL, jid BLOB NOT NULL, alt INTEGER NOT NULL, jvars BLOB NOT NULL, body BLOB NOT NULL, PRIMARY KEY(model, jid, alt)) STRICT";

const START: &str = "INSERT INTO meta(k, number, schema) VALUES(0, 1, ?1)";

const READ: &str = "SELECT number, schema FROM meta WHERE k = 0";

const KEYS: &str = "SELECT k FROM meta";

const SET_NUMBER: &str = "UPDATE meta SET number = ?1 WHERE k = 0";

const RESHAPE: &str = "UPDATE meta SET number = ?1, schema = ?2 WHERE k = 0";

/// The greatest number, 2^40.
const LAST_NUMBER: i64 = 1 << 40;

/// The number of the next accepted request.
pub fn read_number<S: Alter>(conn: &mut Connection<S>) -> Result<u64, Error>
    ensures in_range { IfOk result IsNext }
    ensures stored { HasCleanDisk (state S.Store conn.new)
        → IfOk result (IsNumberAsked S.Store conn.old conn.new) }
    ensures told { (models : _) → IsAllCommitted models (state S.Store conn.old)
        → ReadsTold S.Store (λ s n. n ≡ s.number) models conn.old conn.new result }
    ensures left { LeavesStoredTables (state S.Store conn.old) (state S.Store conn.new) }
    ensures lasts { ConnectionLasts (state S.Store conn.old) (state S.Store conn.new) }
    ensures opens { IsTrue (state S.Store conn.new).is_open
        → IsTrue (state S.Store conn.old).is_open }
    ensures mode { conn.old.in_transaction ≡ false → conn.new.in_transaction ≡ false }
{
    let row = conn.query_row(READ, &[]);
    number_from(row)
}

fn number_from(row: Result<Row, Error>) -> Result<u64, Error>
    ensures from { IsFrom row result }
    ensures in_range { IfOk result IsNext }
{
    match row {
        Ok(row) => number_in(&row),
        Err(error) => Err(error),
    }
}

fn number_in(row: &Row) -> Result<u64, Error>
    ensures has { IfOk result (HasNumber row.now) }
    ensures in_range { IfOk result IsNext }
{
    match number_of(row) {
        Some(number) => Ok(number),
        None => Err(CORRUPT),
    }
}

fn number_of(row: &Row) -> Option<u64>
    ensures { IfSome result (HasNumber row.now) }
{
    match row.get_ref(0) {
        Ok(ValueRef::Int(number)) if 1 <= number && number <= LAST_NUMBER => Some(number as u64),
        _ => None,
    }
}

/// Sets the number by one statement.
#[tactic(auto, unfolding(jac_sql_spec::specs::Statements::numbering))]
pub fn set_number<S: Alter>(tx: &mut Transaction<'_, S>, number: u64) -> Result<(), Error>
    ensures same { tx.new.conn.ghost_name ≡ tx.old.conn.ghost_name }
    ensures inside { Inside S.Store (numbering number ∷ []) tx.old.conn.now tx.new.conn.now result }
{
    match i64::try_from(number) {
        Ok(number) => run(tx, SET_NUMBER, params![number]),
        Err(_) => Err(Error::IntegralValueOutOfRange(0)),
    }
}

/// Sets the number, and the schema text if there is one.
pub fn set_meta<S: Alter>(
    tx: &mut Transaction<'_, S>,
    number: u64,
    schema: Option<&Txt>,
) -> Result<(), Error>
    ensures same { tx.new.conn.ghost_name ≡ tx.old.conn.ghost_name }
    ensures inside { Inside S.Store (settings number (option_copied schema.entry)) tx.old.conn.now
        tx.new.conn.now result }
{
    match schema {
        None => set_number(tx, number),
        Some(schema) => set_schema(tx, number, schema),
    }
}

/// Sets the number and the schema text by one statement.
#[tactic(auto, unfolding(jac_sql_spec::specs::Statements::reshaping))]
pub fn set_schema<S: Alter>(
    tx: &mut Transaction<'_, S>,
    number: u64,
    schema: &Txt,
) -> Result<(), Error>
    ensures same { tx.new.conn.ghost_name ≡ tx.old.conn.ghost_name }
    ensures inside { Inside S.Store (reshaping number schema.now ∷ []) tx.old.conn.now
        tx.new.conn.now result }
{
    match i64::try_from(number) {
        Ok(number) => run(tx, RESHAPE, params![number, schema.as_str()]),
        Err(_) => Err(Error::IntegralValueOutOfRange(0)),
    }
}

/// Whether the database is empty.
pub fn has_nothing<S: Alter>(conn: &Connection<S>) -> bool
    ensures { result ≡ true → (state S.Store conn.now).now.schema ≡ no_tables }
{
    is_nothing(conn.schema())
}

#[tactic(auto, using(crate::proofs::Read::no_schema))]
fn is_nothing(schema: &Schema) -> bool
    ensures { result ≡ true → schema.now ≡ no_tables }
{
    if !schema.tables.is_empty() || !schema.indexes.is_empty() {
        return false;
    }
    schema.views.is_empty()
}

/// Tests that the table `meta` has one row, and that the key of this row is 0.
#[tactic(auto, unfolding(jac_sql_spec::specs::Statements::key_reading))]
pub fn test_key<S: Alter>(conn: &mut Connection<S>) -> Result<(), Unfit>
    ensures shown { HasCleanDisk (state S.Store conn.new)
        → OnOk result (ShowsKey S.Store conn.old conn.new) }
    ensures left { LeavesStoredTables (state S.Store conn.old) (state S.Store conn.new) }
    ensures lasts { ConnectionLasts (state S.Store conn.old) (state S.Store conn.new) }
    ensures mode { conn.old.in_transaction ≡ false → conn.new.in_transaction ≡ false }
{
    let found = conn.query_all(KEYS, &[]);
    key_found(found)
}

fn key_found(found: Result<Vec<Row>, Error>) -> Result<(), Unfit>
    ensures one { IfOk found (λ found. OnOk result (IsOneKey found.items)) }
    ensures none { OnErr found (IsErr result) }
{
    match found {
        Ok(found) => {
            if is_one_key(found.as_slice()) {
                Ok(())
            } else {
                Err(Unfit::Meta)
            }
        }
        Err(error) => Err(Unfit::Refused(error)),
    }
}

fn is_one_key(found: &[Row]) -> bool
    ensures { result ≡ true → IsOneKey found.now }
{
    let [only] = found else {
        return false;
    };
    is_zero(only)
}

fn is_zero(row: &Row) -> bool
    ensures { result ≡ true → column row.now 0 ≡ Int (pos 0) }
{
    match row.get_ref(0) {
        Ok(ValueRef::Int(0)) => true,
        _ => false,
    }
}

/// The stored schema, if it isn't this one.
pub fn find_schema<S: Alter>(
    alloc: Global,
    conn: &mut Connection<S>,
    schema: &Txt,
) -> Result<Option<Txt>, Error>
    ensures other { IfOk result (λ other. IfSome other (λ stored. ¬ (stored ≡ schema.now))) }
    ensures found { HasCleanDisk (state S.Store conn.new) → FindsSchema S.Store schema.now conn.old
        conn.new result }
    ensures left { LeavesStoredTables (state S.Store conn.old) (state S.Store conn.new) }
    ensures lasts { ConnectionLasts (state S.Store conn.old) (state S.Store conn.new) }
    ensures mode { conn.old.in_transaction ≡ false → conn.new.in_transaction ≡ false }
{
    match conn.query_row(READ, &[]) {
        Ok(row) => other_schema(alloc, &row, schema),
        Err(Error::SqliteFailure(ErrorCode::OutOfMemory)) => Err(NO_MEMORY),
        Err(_) => Err(CORRUPT),
    }
}

// The stored schema, if it isn't this one. The number is read only if the schemas are the same.
fn other_schema(alloc: Global, row: &Row, schema: &Txt) -> Result<Option<Txt>, Error>
    ensures { Tells schema.now row.now result }
{
    let Ok(ValueRef::Text(stored)) = row.get_ref(1) else {
        return Err(CORRUPT);
    };
    if stored == schema.as_bytes() {
        return match number_of(row) {
            Some(_) => Ok(None),
            None => Err(CORRUPT),
        };
    }
    match Txt::from_bytes(alloc, stored) {
        Ok(stored) => Ok(Some(stored)),
        Err(TxtFault::Memory) => Err(NO_MEMORY),
        Err(TxtFault::NotUtf8(_)) => Err(CORRUPT),
    }
}

/// Makes the tables for this schema, with the first number.
pub fn make_tables<S: Alter>(conn: &mut Connection<S>, schema: &Txt) -> Result<(), Error>
    ensures transacts { Transacts S.Store (founding schema.now) conn.old conn.new result }
    ensures ends { HasCleanDisk (state S.Store conn.new) → conn.old.in_transaction ≡ false
        → EndsCommitted (state S.Store conn.old) (state S.Store conn.new) }
    ensures mode { conn.old.in_transaction ≡ false → conn.new.in_transaction ≡ false }
{
    if !conn.is_autocommit() {
        return Err(Error::SqliteFailure(ErrorCode::TransactionState));
    }
    let mut tx = conn.transaction();
    match found(&mut tx, schema) {
        Ok(()) => tx.commit(),
        Err(error) => {
            tx.rollback();
            Err(error)
        }
    }
}

#[tactic(auto, unfolding(jac_sql_spec::specs::Statements::founding))]
fn found<S: Alter>(tx: &mut Transaction<'_, S>, schema: &Txt) -> Result<(), Error>
    ensures same { tx.new.conn.ghost_name ≡ tx.old.conn.ghost_name }
    ensures inside { Inside S.Store (founding schema.now) tx.old.conn.now tx.new.conn.now result }
{
    run(tx, MAKE_META, &[])?;
    run(tx, MAKE_RECORDS, &[])?;
    run(tx, START, params![schema.as_str()])
}
