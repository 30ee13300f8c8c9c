//! Takes rows out of tables, makes room, alters them and puts them back.
ghost use Rattle.std.specs.Prelude.{◌≡◌, ◌+◌, ◌-◌, ◌≤◌, ◌++◌, ◌∷◌, [], Bool, if◌then◌else◌, length, vec_len, vec_capacity, IfOk, OnOk, OnErr, IsTrue};
ghost use Rattle.std.specs.List.{AllByRecursion};
ghost use Rattle.jac_rows.specs.Good.{AreRising};
ghost use Rattle.jac_keep.specs.Records.{AreOrdered};
ghost use Rattle.jac_keep.specs.Alterations.{AreOwn, of_model, placed_each, brought, overlaid};
ghost use Rattle.jac_keep.specs.Schema.{empties};
ghost use Rattle.jac_keep.specs.Sound.{AreTables};
ghost use Rattle.jac_keep.specs.Opened.{rows_in, rows_after, IsReadyTable, AreReady, CanPlace};

use crate::placement::{place_each, prepare};
use crate::{Alteration, Alterations};
use jac_rows::{Row, Table, Tables};
use jac_value::Memory;
use std::alloc::Global;
use std::mem::replace;

/// The rows of a table, and copies of the alterations of its records.
#[derive(Drop)]
pub struct Opened {
    pub rows: Vec<Row>,
    pub news: Vec<Alteration>,
}

/// Alters all of the tables or none. All memory is taken before the first row moves, and only the
/// new rows are copied.
pub fn alter_tables(alloc: Global, tables: &mut Tables, changed: &Alterations) -> Result<(), Memory>
    requires rising { AreTables tables.old }
    requires stay { AreTables (overlaid changed.now tables.old) }
    ensures ok { OnOk result (tables.new ≡ overlaid changed.now tables.old) }
    ensures err { OnErr result (tables.new ≡ tables.old) }
{
    reshape_tables(alloc, tables, changed, 0)
}

/// The same, and then empty tables are added until there are this many.
pub fn reshape_tables(
    alloc: Global,
    tables: &mut Tables,
    changed: &Alterations,
    models: usize,
) -> Result<(), Memory>
    requires rising { AreTables tables.old }
    requires stay { AreTables (overlaid changed.now tables.old) }
    ensures ok { OnOk result (tables.new ≡ overlaid changed.now tables.old ++ empties
        (models - length (overlaid changed.now tables.old))) }
    ensures err { OnErr result (tables.new ≡ tables.old) }
{
    let count = tables.as_slice().len();
    let opened = Vec::with_capacity(alloc, count)?;
    let closed = Vec::with_capacity(alloc, count.max(models))?;
    let old = replace(tables, Tables::empty(alloc)).into_vec();
    let (opened, ready) = open_all(alloc, old, changed.as_slice(), opened);
    let closed = close_all(opened, ready, closed);
    if ready {
        *tables = Tables::from_vec(widen(alloc, closed, models));
        Ok(())
    } else {
        *tables = Tables::from_vec(closed);
        Err(Memory)
    }
}

/// The tables, with empty ones added until there are this many. It takes no memory.
pub fn widen(alloc: Global, tables: Vec<Table>, models: usize) -> Vec<Table>
    requires { models ≤ vec_capacity tables }
    ensures { result.items ≡ tables.items ++ empties (models - length tables.items) }
{
    let mut tables = tables;
    'models: while tables.len() < models {
        tables.push_reserved(Table::empty(alloc));
    }
    tables
}

// The tables' rows and copies of the alterations, and whether there was enough memory for all.
fn open_all(
    alloc: Global,
    tables: Vec<Table>,
    changed: &[Alteration],
    opened: Vec<Opened>,
) -> (Vec<Opened>, bool)
    requires empty { opened.items ≡ [] }
    requires room { length tables.items ≤ vec_capacity opened }
    ensures rows { rows_in result.0.items ≡ tables.items }
    ensures ready { IsTrue result.1 → AreReady 0 changed.now result.0.items }
{
    let mut all = opened;
    let mut ready = true;
    'tables: for table in tables {
        let (one, is_ready) = open(alloc, table, all.len(), changed);
        ready &= is_ready;
        all.push_reserved(one);
    }
    (all, ready)
}

// The table's rows and copies of its alterations, and whether there was enough memory.
fn open(alloc: Global, table: Table, model: usize, changed: &[Alteration]) -> (Opened, bool)
    ensures rows { result.0.rows.items ≡ table }
    ensures ready { IsTrue result.1 → IsReadyTable model changed.now result.0 }
{
    let mut rows = table.into_vec();
    match prepare(alloc, &mut rows, model, changed) {
        Ok(news) => (Opened { rows, news }, true),
        Err(Memory) => {
            let news = Vec::new(alloc);
            (Opened { rows, news }, false)
        }
    }
}

// The tables after their alterations if these are ready. Otherwise the tables as they were.
fn close_all(opened: Vec<Opened>, ready: bool, closed: Vec<Table>) -> Vec<Table>
    requires empty { closed.items ≡ [] }
    requires room { length opened.items ≤ vec_capacity closed }
    requires can { IsTrue ready → AllByRecursion CanPlace opened.items }
    requires rising { AreTables (rows_after ready opened.items) }
    ensures rows { result.items ≡ rows_after ready opened.items }
    ensures capacity { vec_capacity result ≡ vec_capacity closed }
{
    let mut tables = closed;
    'opened: for one in opened {
        tables.push_reserved(close(one, ready));
    }
    tables
}

// The table after its alterations if these are ready. Otherwise the table as it was.
fn close(opened: Opened, ready: bool) -> Table
    requires can { IsTrue ready → CanPlace opened }
    requires rising { AreRising (if ready then placed_each opened.news.items opened.rows.items
        else opened.rows.items) }
    ensures { result ≡ (if ready then placed_each opened.news.items opened.rows.items
        else opened.rows.items) }
{
    let Opened { rows, news } = opened;
    if ready {
        Table::from_vec(place_each(rows, news))
    } else {
        Table::from_vec(rows)
    }
}
