//! Finds the records of a table that have an alternative with a given cell. No other row is copied.
ghost use Rattle.std.specs.Prelude.{◌≡◌, ◌==◌, ◌&&◌, ◌||◌, ◌++◌, ◌∷◌, [], ℕ, IfOk, OnOk};
ghost use Rattle.jac_world.specs.World.{shown_by};
ghost use Rattle.jac_keep.specs.Records.{with_id};
ghost use Rattle.jac_keep.specs.MatchingRecords.{has_cell, holds_cell, holders};

use jac_index::RisingIds;
use jac_rows::{Row, Rows};
use jac_value::{Memory, Value};
use std::alloc::Global;

/// All alternatives of the records that have an alternative with the value in the field, in their
/// order.
pub fn holders(alloc: Global, rows: &[Row], field: u8, value: &Value) -> Result<Rows, Memory>
    ensures { IfOk result (λ found. found ≡ holders field value.now rows.now) }
{
    let ids = holding(alloc, rows, field, value)?;
    let found = copies_of(alloc, rows, &ids)?;
    Ok(Rows::from_vec(found))
}

// The ids of the records that have an alternative with the value in the field.
fn holding(alloc: Global, rows: &[Row], field: u8, value: &Value) -> Result<RisingIds, Memory>
    ensures { IfOk result (λ ids. (k : ℕ) → shown_by ids k
        ≡ holds_cell field value.now rows.now k) }
{
    let mut ids = RisingIds::empty(alloc);
    'rows: for row in rows {
        add_if(&mut ids, row, field, value)?;
    }
    Ok(ids)
}

// Adds the row's id if it has the value.
fn add_if(ids: &mut RisingIds, row: &Row, field: u8, value: &Value) -> Result<(), Memory>
    ensures { OnOk result ((k : ℕ)
        → shown_by ids.new k ≡ ((row.now.id == k && has_cell field value.now row.now)
        || shown_by ids.old
        k)) }
{
    if has_cell(row, field, value) {
        ids.add(row.id)
    } else {
        Ok(())
    }
}

/// Whether the row has the value in the field.
pub(crate) fn has_cell(row: &Row, field: u8, value: &Value) -> bool
    ensures { result ≡ has_cell field value.now row.now }
{
    match row.cells.as_slice().get(usize::from(field)) {
        Some(cell) => cell == value,
        None => false,
    }
}

// Copies of the rows with these ids.
fn copies_of(alloc: Global, rows: &[Row], ids: &RisingIds) -> Result<Vec<Row>, Memory>
    ensures { IfOk result (λ v. v.items ≡ with_id (shown_by ids.now) rows.now) }
{
    let mut found = Vec::new(alloc);
    'rows: for row in rows {
        add_if_among(alloc, &mut found, row, ids)?;
    }
    Ok(found)
}

// Adds a copy of the row if it has one of these ids.
fn add_if_among(
    alloc: Global,
    found: &mut Vec<Row>,
    row: &Row,
    ids: &RisingIds,
) -> Result<(), Memory>
    ensures { OnOk result (found.new.items ≡ found.old.items ++ with_id (shown_by ids.now)
        (row.now ∷ [])) }
{
    if ids.has(row.id) {
        let copy = row.copy(alloc)?;
        found.push(copy)?;
    }
    Ok(())
}
