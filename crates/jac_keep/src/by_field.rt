//! The index of one field.
ghost use Rattle.std.specs.Prelude.{◌≡◌, ◌==◌, ◌&&◌, ◌||◌, not, ℕ, IfOk, OnOk, slice_get};
ghost use Rattle.std.specs.Option.{option_copied};
ghost use Rattle.jac_value.specs.declared.value.Value.{Value as Cell};
ghost use Rattle.jac_index.specs.Triples.{has_index_pair};
ghost use Rattle.jac_keep.specs.MatchingRecords.{has_cell, holds_cell};
ghost use Rattle.jac_keep.specs.Indexed.{IsByField, IsFieldAfter, IsRewritten};

use jac_index::ByValue;
use jac_rows::Row;
use jac_value::{Memory, Value};
use std::alloc::Global;

/// An index of the field: the ids of records by the values of the field.
pub fn index_of(alloc: Global, rows: &[Row], field: usize) -> Result<ByValue, Memory>
    ensures { IfOk result (IsByField field rows.now) }
{
    let mut values = ByValue::new(alloc);
    add_rows(alloc, &mut values, rows, field)?;
    Ok(values)
}

/// The field's index, if there is one, after the new rows replace the old ones.
pub fn altered_field(
    alloc: Global,
    values: Option<ByValue>,
    field: usize,
    old: &[Row],
    new: &[Row],
) -> Result<Option<ByValue>, Memory>
    ensures { IfOk result (λ after. IsFieldAfter field old.now new.now values after) }
{
    match values {
        Some(values) => {
            let values = rewritten(alloc, values, field, old, new)?;
            Ok(Some(values))
        }
        None => Ok(None),
    }
}

// The index after the new rows replace the old ones.
fn rewritten(
    alloc: Global,
    values: ByValue,
    field: usize,
    old: &[Row],
    new: &[Row],
) -> Result<ByValue, Memory>
    ensures { IfOk result (λ after. IsRewritten field old.now new.now values after) }
{
    let mut values = values;
    remove_rows(&mut values, old, field);
    add_rows(alloc, &mut values, new, field)?;
    Ok(values)
}

fn add_rows(alloc: Global, values: &mut ByValue, rows: &[Row], field: usize) -> Result<(), Memory>
    ensures { OnOk result ((v : Cell) (k : ℕ) → has_index_pair values.new v k
        ≡ (holds_cell field v rows.now k || has_index_pair values.old v k)) }
{
    'rows: for row in rows {
        add_row(alloc, values, row, field)?;
    }
    Ok(())
}

fn add_row(alloc: Global, values: &mut ByValue, row: &Row, field: usize) -> Result<(), Memory>
    ensures { OnOk result ((v : Cell) (k : ℕ) → has_index_pair values.new v k
        ≡ (((row.now.id == k) && has_cell field v row.now) || has_index_pair values.old v k)) }
{
    match cell_at(row, field) {
        Some(cell) => values.add(alloc, cell, row.id),
        None => Ok(()),
    }
}

fn remove_rows(values: &mut ByValue, rows: &[Row], field: usize)
    ensures { (v : Cell) (k : ℕ) → has_index_pair values.new v k
        ≡ (not (holds_cell field v rows.now k) && has_index_pair values.old v k) }
{
    'rows: for row in rows {
        remove_row(values, row, field);
    }
}

fn remove_row(values: &mut ByValue, row: &Row, field: usize)
    ensures { (v : Cell) (k : ℕ) → has_index_pair values.new v k
        ≡ (not ((row.now.id == k) && has_cell field v row.now) && has_index_pair values.old v k) }
{
    match cell_at(row, field) {
        Some(cell) => values.remove(cell, row.id),
        None => (),
    }
}

fn cell_at(row: &Row, field: usize) -> Option<&Value>
    ensures { option_copied result ≡ slice_get row.now.cells field }
{
    row.cells.as_slice().get(field)
}
