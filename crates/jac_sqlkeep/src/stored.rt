//! A store that an earlier run made. All of it is read and tested before its state is known.
ghost use Rattle.std.specs.Prelude.{◌≡◌, ◌<◌, ◌++◌, ◌∷◌, [], ℕ, Bool, List, pos, length, None, true, false, IfOk, OnOk, OnErr, IsErr};
ghost use Rattle.std.specs.List.{AllByRecursion};
ghost use Rattle.std.specs.List.Sorted.{IsPermutation};
ghost use Rattle.sqlite_value.specs.Order.{column};
ghost use Rattle.sqlite_value.specs.declared.value.Value.TheVariants.{Int};
ghost use Rattle.sqlite.specs.Held.{state};
ghost use Rattle.sqlite.specs.State.{HasCleanDisk};
ghost use Rattle.jac_value.specs.Ids.{number_of_id};
ghost use Rattle.jac_world.specs.World.{IsApart};
ghost use Rattle.jac_rows.specs.Good.{IsNext};
ghost use Rattle.jac_keep.specs.Schema.{shapes_by};
ghost use Rattle.jac_sqlkeep.specs.Alternatives.{AreTaken, MovesOnWith, ReadsOnWith};
ghost use Rattle.jac_sqlkeep.specs.Lines.{NoneComesTwice, AreLinesRead, ReadsLine};
ghost use Rattle.jac_sql_spec.specs.Lasting.{ConnectionLasts, LeavesStoredTables};
ghost use Rattle.jac_sql_spec.specs.Statements.{SqlStatement, all_reading};
ghost use Rattle.jac_sql_spec.specs.Streams.{AreNone, ReadsThrough, StepsTo, Streams};
ghost use Rattle.jac_sql_spec.specs.Testing.{IsAbove, AreAbove, IsStoredRow, ShowsLines, ShowsStored};

use crate::alternatives::Alternatives;
use crate::cause::{CORRUPT, NO_MEMORY, Unfit};
use crate::meta::read_number;
use crate::models::{is_nested, kinds_of};
use crate::records::{blob_at, row_in};
use jac_row_codec::decode_id;
use jac_rows::{Row, Shape};
use jac_value::{Id, Memory, is_narrow_id};
use sqlite::types::ValueRef;
use sqlite::{Alter, Connection, Error, Row as Found, Rows as Showing};
use std::alloc::Global;

const ALL: &str = "SELECT model, jid, alt, jvars, body, rowid FROM rec ORDER BY model, jid, alt";

/// Tests that the number and the rows are those of a state of this shape.
pub fn test_stored<S: Alter>(
    alloc: Global,
    conn: &mut Connection<S>,
    shape: &Shape,
) -> Result<(), Unfit>
    ensures shown { HasCleanDisk (state S.Store conn.new)
        → OnOk result (ShowsStored S.Store (shapes_by shape.now.kinds shape.now.nested) conn.old
        conn.new) }
    ensures left { LeavesStoredTables (state S.Store conn.old) (state S.Store conn.new) }
    ensures lasts { ConnectionLasts (state S.Store conn.old) (state S.Store conn.new) }
    ensures mode { conn.old.in_transaction ≡ false → conn.new.in_transaction ≡ false }
{
    let number = match read_number(conn) {
        Ok(number) => number,
        Err(error) => return Err(Unfit::Refused(error)),
    };
    test_rows(alloc, conn, shape, number)
}

/// Tests that the rows are those of tables of this shape, and that no rowid occurs twice.
pub fn test_rows<S: Alter>(
    alloc: Global,
    conn: &mut Connection<S>,
    shape: &Shape,
    number: u64,
) -> Result<(), Unfit>
    requires { IsNext number }
    ensures shown { HasCleanDisk (state S.Store conn.new)
        → OnOk result (ShowsLines S.Store (shapes_by shape.now.kinds shape.now.nested) number
        conn.old conn.new) }
    ensures left { LeavesStoredTables (state S.Store conn.old) (state S.Store conn.new) }
    ensures lasts { ConnectionLasts (state S.Store conn.old) (state S.Store conn.new) }
    ensures mode { conn.old.in_transaction ≡ false → conn.new.in_transaction ≡ false }
{
    let rowids = read_lines(alloc, conn, shape, number);
    test_rowids(rowids)
}

// Reads all rows, tests that they are those of tables of this shape, and returns their rowids.
#[tactic(auto, unfolding(jac_sql_spec::specs::Statements::all_reading))]
fn read_lines<S: Alter>(
    alloc: Global,
    conn: &mut Connection<S>,
    shape: &Shape,
    number: u64,
) -> Result<Vec<i64>, Unfit>
    requires { IsNext number }
    ensures reads { ReadsThrough S.Store (record { text = all_reading; params = [] })
        (λ found rowids. AreLinesRead (shapes_by shape.now.kinds shape.now.nested) number
        found rowids.items) conn.old conn.new result }
    ensures mode { conn.old.in_transaction ≡ false → conn.new.in_transaction ≡ false }
{
    match conn.query(ALL, &[]) {
        Ok(showing) => {
            let mut showing = showing;
            lines_shown(alloc, &mut showing, shape, number)
        }
        Err(error) => Err(Unfit::Refused(error)),
    }
}

// Tests each row when the query returns it, and drops it then. So the rows are never all in memory.
fn lines_shown<S: Alter>(
    alloc: Global,
    showing: &mut Showing<'_, S>,
    shape: &Shape,
    number: u64,
) -> Result<Vec<i64>, Unfit>
    requires { IsNext number }
    ensures same { showing.new.conn.ghost_name ≡ showing.old.conn.ghost_name }
    ensures reads { (question : SqlStatement) (first : _)
        → Streams S.Store question AreNone first showing.old.conn.now
        → ReadsThrough S.Store question (λ found rowids. AreLinesRead
        (shapes_by shape.now.kinds shape.now.nested) number found rowids.items) first
        showing.new.conn.now result }
    ensures mode { showing.old.conn.now.in_transaction ≡ false
        → showing.new.conn.now.in_transaction ≡ false }
{
    let mut last = new_record(alloc, 0, Id(0));
    let mut rowids = Vec::new(alloc);
    'rows: for at in 0..usize::MAX {
        match next_line(alloc, showing, shape, number, last) {
            Ok(Some(line)) => {
                rowids = with_rowid(rowids, line.rowid)?;
                last = line.last;
            }
            Ok(None) => return Ok(rowids),
            Err(error) => return Err(unfit_row(error, at)),
        }
    }
    Err(Unfit::Refused(NO_MEMORY))
}

fn with_rowid(rowids: Vec<i64>, rowid: i64) -> Result<Vec<i64>, Unfit>
    ensures { IfOk result (λ next. next.items ≡ rowids.items ++ rowid ∷ []) }
{
    let mut rowids = rowids;
    match rowids.push(rowid) {
        Ok(()) => Ok(rowids),
        Err(_) => Err(Unfit::Refused(NO_MEMORY)),
    }
}

// Reads the next row that the query returns, if there is one, after those that were read.
fn next_line<S: Alter>(
    alloc: Global,
    showing: &mut Showing<'_, S>,
    shape: &Shape,
    number: u64,
    last: Last,
) -> Result<Option<Line>, Error>
    ensures same { showing.new.conn.ghost_name ≡ showing.old.conn.ghost_name }
    ensures steps { HasCleanDisk (state S.Store showing.new.conn.now)
        → StepsTo S.Store (λ v line. ReadsLine (shapes_by shape.now.kinds shape.now.nested) number
        last.model last.id last.guards.guards.items last.guards.in_order v line.last.model
        line.last.id line.last.guards.guards.items line.last.guards.in_order line.rowid)
        showing.old.conn.now showing.new.conn.now result }
    ensures lasts { ConnectionLasts (state S.Store showing.old.conn.now)
        (state S.Store showing.new.conn.now) }
    ensures mode { showing.old.conn.now.in_transaction ≡ false
        → showing.new.conn.now.in_transaction ≡ false }
{
    showing.advance()?;
    match showing.get() {
        Some(values) => Ok(Some(line_of(alloc, shape, number, last, values)?)),
        None => Ok(None),
    }
}

// Reads the row after those that were read.
fn line_of(
    alloc: Global,
    shape: &Shape,
    number: u64,
    last: Last,
    values: &Found,
) -> Result<Line, Error>
    ensures { IfOk result (λ line. ReadsLine (shapes_by shape.now.kinds shape.now.nested) number
        last.model last.id last.guards.guards.items last.guards.in_order values.now line.last.model
        line.last.id line.last.guards.guards.items line.last.guards.in_order line.rowid) }
{
    let rowid = rowid_of(values)?;
    let next = read_on(alloc, shape, number, last, values)?;
    Ok(Line { last: next, rowid })
}

fn rowid_of(values: &Found) -> Result<i64, Error>
    ensures { IfOk result (λ at. column values.now 5 ≡ Int at) }
{
    match values.get_ref(5) {
        Ok(ValueRef::Int(at)) => Ok(at),
        _ => Err(CORRUPT),
    }
}

// Tests that no rowid occurs twice among those that were read.
fn test_rowids(read: Result<Vec<i64>, Unfit>) -> Result<(), Unfit>
    ensures apart { OnOk result (IfOk read (λ rowids. NoneComesTwice rowids.items)) }
    ensures none { OnErr read (IsErr result) }
{
    let rising = in_order(read?)?;
    if are_rising(rising.as_slice()) {
        Ok(())
    } else {
        Err(Unfit::Form)
    }
}

fn in_order(rowids: Vec<i64>) -> Result<Vec<i64>, Unfit>
    ensures { IfOk result (λ rising. IsPermutation rowids.items rising.items) }
{
    let mut rowids = rowids;
    match rowids.sort() {
        Ok(()) => Ok(rowids),
        Err(_) => Err(Unfit::Refused(NO_MEMORY)),
    }
}

fn are_rising(rowids: &[i64]) -> bool
    ensures { result ≡ true → AreAbove None rowids.now }
{
    let mut last = None;
    let mut rest = rowids;
    'rowids: while let Some((at, more)) = rest.split_first() {
        if !is_above(last, *at) {
            return false;
        }
        last = Some(*at);
        rest = more;
    }
    true
}

fn is_above(last: Option<i64>, at: i64) -> bool
    ensures { result ≡ true → IsAbove last at }
{
    match last {
        None => true,
        Some(last) => last < at,
    }
}

// The record whose alternatives were read last, and their guards.
#[derive(Drop)]
struct Last {
    model: u8,
    id: Id,
    guards: Alternatives,
}

// The last record after a row was read, and the rowid of the row.
#[derive(Drop)]
struct Line {
    last: Last,
    rowid: i64,
}

fn unfit_row(error: Error, at: usize) -> Unfit {
    if error == NO_MEMORY {
        Unfit::Refused(NO_MEMORY)
    } else {
        Unfit::Row(at)
    }
}

// Reads the row after those that were read.
fn read_on(
    alloc: Global,
    shape: &Shape,
    number: u64,
    last: Last,
    values: &Found,
) -> Result<Last, Error>
    ensures { IfOk result (λ next. (all : List (List (ℕ × Bool)))
        → AreTaken all last.guards.guards.items last.guards.in_order
        → ReadsOnWith (shapes_by shape.now.kinds shape.now.nested) number last.model last.id all
        values.now next.model next.id next.guards.guards.items next.guards.in_order) }
{
    let model = model_at(values)?;
    let row = stored_row(alloc, shape, number, values, model)?;
    let before = moved(alloc, last, model, row.id)?;
    one_more(before, values, row)
}

fn model_at(values: &Found) -> Result<u8, Error>
    ensures { IfOk result (λ model. column values.now 0 ≡ Int (pos model)) }
{
    let model = natural_at(values, 0)?;
    match u8::try_from(model) {
        Ok(model) => Ok(model),
        Err(_) => Err(CORRUPT),
    }
}

fn natural_at(values: &Found, at: usize) -> Result<u64, Error>
    ensures { IfOk result (λ n. column values.now at ≡ Int (pos n)) }
{
    match values.get_ref(at) {
        Ok(ValueRef::Int(number)) if 0 <= number => Ok(number as u64),
        _ => Err(CORRUPT),
    }
}

// The row of the model. The number of the alternative isn't tested here.
fn stored_row(
    alloc: Global,
    shape: &Shape,
    number: u64,
    values: &Found,
    model: u8,
) -> Result<Row, Error>
    ensures { IfOk result (IsStoredRow (shapes_by shape.now.kinds shape.now.nested) number model
        values.now) }
{
    let jid = blob_at(values, 1)?;
    let Some(id) = decode_id(jid, model) else {
        return Err(CORRUPT);
    };
    let Some(kinds) = kinds_of(shape, model) else {
        return Err(CORRUPT);
    };
    if !is_numbered(id, number) {
        return Err(CORRUPT);
    }
    if is_narrow_id(id) == is_nested(shape, model) {
        return Err(CORRUPT);
    }
    row_in(alloc, id, kinds, values, 3, 4)
}

// Whether a request before this one made the record.
fn is_numbered(id: Id, number: u64) -> bool
    ensures { result ≡ true → (0 < number_of_id id) × (number_of_id id < number) }
{
    let request = id.0 % (1 << 52) / 4096;
    0 < request && request < u128::from(number)
}

// The record, if it is the last one or comes after it, and the guards of its alternatives that were
// read.
fn moved(alloc: Global, last: Last, model: u8, id: Id) -> Result<Last, Error>
    ensures { IfOk result (λ before. (before.model ≡ model) × (before.id ≡ id)
        × ((all : List (List (ℕ × Bool))) → AreTaken all last.guards.guards.items
        last.guards.in_order → MovesOnWith last.model last.id all model id
        before.guards.guards.items before.guards.in_order)) }
{
    if last.model == model {
        if last.id == id {
            return Ok(last);
        }
        if last.id < id {
            return Ok(new_record(alloc, model, id));
        }
        return Err(CORRUPT);
    }
    if last.model < model {
        return Ok(new_record(alloc, model, id));
    }
    Err(CORRUPT)
}

fn new_record(alloc: Global, model: u8, id: Id) -> Last
    ensures model { result.model ≡ model }
    ensures id { result.id ≡ id }
    ensures guards { AreTaken [] result.guards.guards.items result.guards.in_order }
{
    Last {
        model,
        id,
        guards: Alternatives::none(alloc),
    }
}

// Adds the row, if it is the next alternative of the record and excludes those before it.
fn one_more(before: Last, values: &Found, row: Row) -> Result<Last, Error>
    ensures { IfOk result (λ next. (next.model ≡ before.model) × (next.id ≡ before.id)
        × ((all : List (List (ℕ × Bool))) → AreTaken all before.guards.guards.items
        before.guards.in_order → (column values.now 2 ≡ Int (pos (length all)))
        × AllByRecursion (λ g. IsApart g row.guard) all
        × AreTaken (all ++ row.guard ∷ []) next.guards.guards.items next.guards.in_order)) }
{
    let Row {
        id: _,
        guard,
        cells: _,
    } = row;
    let alt = natural_at(values, 2)?;
    if alt != before.guards.len() as u64 {
        return Err(CORRUPT);
    }
    let Last { model, id, guards } = before;
    match guards.with(guard) {
        Ok(Some(guards)) => Ok(Last { model, id, guards }),
        Ok(None) => Err(CORRUPT),
        Err(Memory) => Err(NO_MEMORY),
    }
}
