//! The table `rec`: the alternatives of each record, numbered from 0.
ghost use Rattle.std.specs.Prelude.{◌≡◌, ◌<◌, ◌^◌, ◌∷◌, [], length, true, false, IfOk, IfErr, IsTrue, OnOk, Err};
ghost use Rattle.std.specs.List.{AllByRecursion};
ghost use Rattle.std.specs.Option.{option_copied};
ghost use Rattle.sqlite_value.specs.Order.{column};
ghost use Rattle.sqlite_value.specs.declared.value.Value.TheVariants.{Blob};
ghost use Rattle.sqlite.specs.Held.{state};
ghost use Rattle.sqlite.specs.State.{HasCleanDisk};
ghost use Rattle.jac_rows.specs.declared.row.Row.{Row as Kept};
ghost use Rattle.jac_value.specs.Ids.{model_of_id};
ghost use Rattle.jac_rows.specs.Tables.{rows_of};
ghost use Rattle.jac_row_codec.specs.Faults.{CanBeSpelled};
ghost use Rattle.jac_row_codec.specs.Spelling.{guard_bytes, cells_bytes};
ghost use Rattle.jac_keep.specs.Alterations.{ArePlaced};
ghost use Rattle.jac_keep.specs.Records.{alternatives};
ghost use Rattle.jac_sql_spec.specs.Lasting.{ConnectionLasts, LeavesStoredTables};
ghost use Rattle.jac_sql_spec.specs.Reading.{AreShown, Each, IsModelRow, IsRecordRow, IsRowIn};
ghost use Rattle.jac_sql_spec.specs.Statements.{SqlStatement, model_reading, record_reading, removal, addition, replacement, replacements, statements_with};
ghost use Rattle.jac_sql_spec.specs.Stands.{AreNarrow};
ghost use Rattle.jac_sql_spec.specs.Streams.{AreNone, ReadsThrough, StepsTo, Streams};
ghost use Rattle.jac_sql_spec.specs.Telling.{IsAllCommitted, ReadsTold, CanAllBeSpelled, CanBeStored};
ghost use Rattle.jac_sql_spec.specs.Transaction.{Inside, Transacts, EndsCommitted};

use crate::cause::{CORRUPT, NO_MEMORY};
use crate::meta::set_meta;
use crate::step::run;
use jac_keep::{Alteration, Change};
use jac_row_codec::{RowFault, Stored, decode_id, decode_row, encode_id, encode_row};
use jac_rows::{Row, Rows};
use jac_value::{Id, Kind, Memory, Txt, id_model};
use sqlite::types::ValueRef;
use sqlite::{
    Alter, Connection, Error, ErrorCode, Row as Found, Rows as Showing, Transaction, params,
};
use std::alloc::Global;

const READ_MODEL: &str = "SELECT jid, jvars, body FROM rec WHERE model = ?1 ORDER BY jid, alt";

const READ_RECORD: &str = "SELECT jvars, body FROM rec WHERE model = ?1 AND jid = ?2 ORDER BY alt";

const REMOVE: &str = "DELETE FROM rec WHERE model = ?1 AND jid = ?2";

const ADD: &str = "INSERT INTO rec(model, jid, alt, jvars, body) VALUES(?1, ?2, ?3, ?4, ?5)";

/// All rows of the model, by rising id.
pub fn read_model<S: Alter>(
    alloc: Global,
    conn: &mut Connection<S>,
    model: u8,
    kinds: &[Kind],
) -> Result<Rows, Error>
    ensures shown { HasCleanDisk (state S.Store conn.new)
        → IfOk result (AreShown S.Store (model_reading model) (IsModelRow model kinds.now) conn.old
        conn.new) }
    ensures told { (models : _) → IsAllCommitted models (state S.Store conn.old)
        → ReadsTold S.Store (λ s rows. rows ≡ rows_of s.tables model) models conn.old conn.new
        result }
    ensures left { LeavesStoredTables (state S.Store conn.old) (state S.Store conn.new) }
    ensures lasts { ConnectionLasts (state S.Store conn.old) (state S.Store conn.new) }
    ensures opens { IsTrue (state S.Store conn.new).is_open
        → IsTrue (state S.Store conn.old).is_open }
    ensures mode { conn.old.in_transaction ≡ false → conn.new.in_transaction ≡ false }
{
    model_rows(alloc, conn, model, kinds)
}

/// The alternatives of the record.
#[tactic(auto, unfolding(jac_sql_spec::specs::Statements::record_reading))]
pub fn read_record<S: Alter>(
    alloc: Global,
    conn: &mut Connection<S>,
    id: Id,
    kinds: &[Kind],
) -> Result<Rows, Error>
    ensures shown { HasCleanDisk (state S.Store conn.new)
        → IfOk result (AreShown S.Store (record_reading id) (IsRecordRow id kinds.now) conn.old
        conn.new) }
    ensures told { (models : _) → IsAllCommitted models (state S.Store conn.old)
        → ReadsTold S.Store (λ s rows. rows ≡ alternatives id (rows_of s.tables (model_of_id id)))
        models conn.old conn.new result }
    ensures left { LeavesStoredTables (state S.Store conn.old) (state S.Store conn.new) }
    ensures lasts { ConnectionLasts (state S.Store conn.old) (state S.Store conn.new) }
    ensures opens { IsTrue (state S.Store conn.new).is_open
        → IsTrue (state S.Store conn.old).is_open }
    ensures mode { conn.old.in_transaction ≡ false → conn.new.in_transaction ≡ false }
{
    let jid = encode_id(id);
    let model = u32::from(id_model(id));
    let found = conn.query_all(READ_RECORD, params![model, jid.as_slice()]);
    record_found(alloc, found, id, kinds)
}

fn record_found(
    alloc: Global,
    found: Result<Vec<Found>, Error>,
    id: Id,
    kinds: &[Kind],
) -> Result<Rows, Error>
    ensures each { IfOk found (λ found. IfOk result (Each (IsRecordRow id kinds.now) found.items)) }
    ensures none { IfErr found (λ error. result ≡ Err error) }
    ensures room { id < 2 ^ 128 }
{
    match found {
        Ok(found) => rows_of_record(alloc, found.as_slice(), id, kinds),
        Err(error) => Err(error),
    }
}

// All rows of the model. A row that can't be read is an error.
#[tactic(auto, unfolding(jac_sql_spec::specs::Statements::model_reading))]
fn model_rows<S: Alter>(
    alloc: Global,
    conn: &mut Connection<S>,
    model: u8,
    kinds: &[Kind],
) -> Result<Rows, Error>
    ensures reads { ReadsThrough S.Store (model_reading model) (Each (IsModelRow model kinds.now))
        conn.old conn.new result }
    ensures mode { conn.old.in_transaction ≡ false → conn.new.in_transaction ≡ false }
{
    match conn.query(READ_MODEL, params![u32::from(model)]) {
        Ok(showing) => {
            let mut showing = showing;
            rows_shown(alloc, &mut showing, model, kinds)
        }
        Err(error) => Err(error),
    }
}

// Makes the rows one after another, so that the rows that the database returns are never all in
// memory beside them.
fn rows_shown<S: Alter>(
    alloc: Global,
    showing: &mut Showing<'_, S>,
    model: u8,
    kinds: &[Kind],
) -> Result<Rows, Error>
    ensures same { showing.new.conn.ghost_name ≡ showing.old.conn.ghost_name }
    ensures reads { (question : SqlStatement) (first : _)
        → Streams S.Store question AreNone first showing.old.conn.now
        → ReadsThrough S.Store question (Each (IsModelRow model kinds.now)) first
        showing.new.conn.now result }
    ensures mode { showing.old.conn.now.in_transaction ≡ false
        → showing.new.conn.now.in_transaction ≡ false }
{
    let mut made = Vec::new(alloc);
    'rows: for _ in 0..u64::MAX {
        match next_of_model(alloc, showing, model, kinds)? {
            Some(row) => made.push(row)?,
            None => return Ok(Rows::from_vec(made)),
        }
    }
    Err(NO_MEMORY)
}

// The next row of the model that the query returns, if there is one.
fn next_of_model<S: Alter>(
    alloc: Global,
    showing: &mut Showing<'_, S>,
    model: u8,
    kinds: &[Kind],
) -> Result<Option<Row>, Error>
    ensures same { showing.new.conn.ghost_name ≡ showing.old.conn.ghost_name }
    ensures steps { HasCleanDisk (state S.Store showing.new.conn.now)
        → StepsTo S.Store (IsModelRow model kinds.now) showing.old.conn.now showing.new.conn.now
        result }
    ensures lasts { ConnectionLasts (state S.Store showing.old.conn.now)
        (state S.Store showing.new.conn.now) }
    ensures mode { showing.old.conn.now.in_transaction ≡ false
        → showing.new.conn.now.in_transaction ≡ false }
{
    showing.advance()?;
    match showing.get() {
        Some(values) => Ok(Some(row_of_model(alloc, values, model, kinds)?)),
        None => Ok(None),
    }
}

#[tactic(auto, using(crate::proofs::Read::each_start, crate::proofs::Read::each_next, crate::proofs::Read::each_end))]
fn rows_of_record(alloc: Global, found: &[Found], id: Id, kinds: &[Kind]) -> Result<Rows, Error>
    ensures { IfOk result (Each (IsRecordRow id kinds.now) found.now) }
{
    let mut rows = Vec::new(alloc);
    'found: for values in found {
        rows.push(row_in(alloc, id, kinds, values, 0, 1)?)?;
    }
    Ok(Rows::from_vec(rows))
}

fn row_of_model(alloc: Global, values: &Found, model: u8, kinds: &[Kind]) -> Result<Row, Error>
    ensures { IfOk result (IsModelRow model kinds.now values.now) }
{
    let jid = blob_at(values, 0)?;
    match decode_id(jid, model) {
        Some(id) => row_in(alloc, id, kinds, values, 1, 2),
        None => Err(CORRUPT),
    }
}

/// The row with this id. Its guard and its cells are in these columns.
pub fn row_in(
    alloc: Global,
    id: Id,
    kinds: &[Kind],
    values: &Found,
    guard: usize,
    cells: usize,
) -> Result<Row, Error>
    ensures { IfOk result (IsRowIn guard cells kinds.now values.now id) }
{
    let jvars = blob_at(values, guard)?;
    let body = blob_at(values, cells)?;
    match decode_row(alloc, id, kinds, jvars, body) {
        Ok(row) => Ok(row),
        Err(RowFault::Memory) => Err(NO_MEMORY),
        Err(RowFault::Guard(_) | RowFault::Body(_)) => Err(CORRUPT),
    }
}

/// The bytes in this column.
pub fn blob_at(values: &Found, at: usize) -> Result<&[u8], Error>
    ensures { IfOk result (λ bytes. column values.now at ≡ Blob bytes.now) }
{
    match values.get_ref(at) {
        Ok(ValueRef::Blob(bytes)) => Ok(bytes),
        _ => Err(CORRUPT),
    }
}

/// Replaces the named records, sets the number, and sets the schema text if there is one, all or
/// nothing. If a record belongs to none of the first `models` models, it does nothing.
pub fn write_change<S: Alter>(
    alloc: Global,
    conn: &mut Connection<S>,
    models: usize,
    change: &Change,
    schema: Option<&Txt>,
) -> Result<(), Error>
    ensures transacts { Transacts S.Store (statements_with change.now (option_copied schema.entry))
        conn.old conn.new result }
    ensures ends { HasCleanDisk (state S.Store conn.new) → conn.old.in_transaction ≡ false
        → EndsCommitted (state S.Store conn.old) (state S.Store conn.new) }
    ensures mode { conn.old.in_transaction ≡ false → conn.new.in_transaction ≡ false }
    ensures stored { OnOk result (CanBeStored models change.now.changed) }
{
    if !conn.is_autocommit() {
        return Err(Error::SqliteFailure(ErrorCode::TransactionState));
    }
    if !are_placed(change.changed.as_slice(), models) {
        return Err(CORRUPT);
    }
    let mut tx = conn.transaction();
    match write(alloc, &mut tx, change, schema) {
        Ok(()) => tx.commit(),
        Err(error) => {
            tx.rollback();
            Err(error)
        }
    }
}

// Whether each record belongs to one of the first `models` models.
fn are_placed(changed: &[Alteration], models: usize) -> bool
    ensures { result ≡ true → AreNarrow changed.now × ArePlaced changed.now models }
{
    let mut rest = changed;
    'changed: while let Some((alteration, more)) = rest.split_first() {
        if !is_placed(alteration.id, models) {
            return false;
        }
        rest = more;
    }
    true
}

fn is_placed(id: Id, models: usize) -> bool
    ensures { result ≡ true → (id < 2 ^ 128) × (model_of_id id < models) }
{
    usize::from(id_model(id)) < models
}

#[tactic(auto, using(crate::proofs::Steps::inside_then, crate::proofs::Steps::failed_of))]
fn write<S: Alter>(
    alloc: Global,
    tx: &mut Transaction<'_, S>,
    change: &Change,
    schema: Option<&Txt>,
) -> Result<(), Error>
    ensures same { tx.new.conn.ghost_name ≡ tx.old.conn.ghost_name }
    ensures inside { Inside S.Store (statements_with change.now (option_copied schema.entry))
        tx.old.conn.now tx.new.conn.now result }
    ensures spelled { OnOk result (CanAllBeSpelled change.now.changed) }
{
    write_records(alloc, tx, change.changed.as_slice())?;
    set_meta(tx, change.number, schema)
}

#[tactic(auto, using(crate::proofs::Steps::halfway_start, crate::proofs::Steps::changed_next, crate::proofs::Steps::changed_end, crate::proofs::Steps::halfway_failed))]
fn write_records<S: Alter>(
    alloc: Global,
    tx: &mut Transaction<'_, S>,
    changed: &[Alteration],
) -> Result<(), Error>
    ensures same { tx.new.conn.ghost_name ≡ tx.old.conn.ghost_name }
    ensures inside { Inside S.Store (replacements changed.now) tx.old.conn.now tx.new.conn.now
        result }
    ensures spelled { OnOk result (CanAllBeSpelled changed.now) }
{
    let mut rest = changed;
    'changed: while let Some((alteration, more)) = rest.split_first() {
        write_record(alloc, tx, alteration)?;
        rest = more;
    }
    Ok(())
}

/// Replaces one record: one statement removes it, and then one statement adds each alternative.
#[tactic(auto, using(crate::proofs::Steps::replaced_start, crate::proofs::Steps::replaced_next, crate::proofs::Steps::replaced_end, crate::proofs::Steps::halfway_failed, crate::proofs::Steps::failed_of, crate::proofs::Read::all_behind))]
pub fn write_record<S: Alter>(
    alloc: Global,
    tx: &mut Transaction<'_, S>,
    alteration: &Alteration,
) -> Result<(), Error>
    ensures same { tx.new.conn.ghost_name ≡ tx.old.conn.ghost_name }
    ensures inside { Inside S.Store (replacement alteration.now) tx.old.conn.now tx.new.conn.now
        result }
    ensures spelled { OnOk result (AllByRecursion CanBeSpelled alteration.now.rows) }
{
    remove(tx, alteration.id)?;
    let rows = alteration.rows.as_slice();
    'rows: for alt in 0..rows.len() {
        add(alloc, tx, alt, &rows[alt])?;
    }
    Ok(())
}

/// Removes the alternatives of a record by one statement.
#[tactic(auto, unfolding(jac_sql_spec::specs::Statements::removal))]
pub fn remove<S: Alter>(tx: &mut Transaction<'_, S>, id: Id) -> Result<(), Error>
    ensures same { tx.new.conn.ghost_name ≡ tx.old.conn.ghost_name }
    ensures inside { Inside S.Store (removal id ∷ []) tx.old.conn.now tx.new.conn.now result }
{
    let jid = encode_id(id);
    run(tx, REMOVE, params![u32::from(id_model(id)), jid.as_slice()])
}

/// Adds an alternative by one statement.
pub fn add<S: Alter>(
    alloc: Global,
    tx: &mut Transaction<'_, S>,
    alt: usize,
    row: &Row,
) -> Result<(), Error>
    requires { alt < 2 ^ 63 }
    ensures same { tx.new.conn.ghost_name ≡ tx.old.conn.ghost_name }
    ensures inside { Inside S.Store (addition alt row.now ∷ []) tx.old.conn.now tx.new.conn.now
        result }
    ensures spelled { OnOk result (CanBeSpelled row.now) }
{
    match encode_row(alloc, row) {
        Ok(stored) => add_stored(tx, row.id, alt, &stored),
        Err(Memory) => Err(NO_MEMORY),
    }
}

#[tactic(auto, unfolding(jac_sql_spec::specs::Statements::addition))]
fn add_stored<S: Alter>(
    tx: &mut Transaction<'_, S>,
    id: Id,
    alt: usize,
    stored: &Stored,
) -> Result<(), Error>
    requires { alt < 2 ^ 63 }
    ensures same { tx.new.conn.ghost_name ≡ tx.old.conn.ghost_name }
    ensures inside { (row : Kept) → row.id ≡ id → stored.now.jvars ≡ guard_bytes row.guard
        → stored.now.body ≡ cells_bytes row.cells
        → Inside S.Store (addition alt row ∷ []) tx.old.conn.now tx.new.conn.now result }
{
    let jid = encode_id(id);
    let model = u32::from(id_model(id));
    let jvars = stored.jvars.as_slice();
    let body = stored.body.as_slice();
    run(
        tx,
        ADD,
        params![model, jid.as_slice(), alt as i64, jvars, body],
    )
}
