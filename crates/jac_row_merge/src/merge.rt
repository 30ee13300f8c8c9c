//! Joins rows as long as two of them can be joined, and puts them in the order of their guards.
ghost use Rattle.std.specs.Prelude.{◌≡◌, ◌++◌, ◌∷◌, [], ℕ, true, IfOk, OnOk, position};
ghost use Rattle.std.specs.List.{insert};
ghost use Rattle.jac_row_merge.specs.Merged.{same_cells, joinable, JoinsTo, Shows, AreMerged, AreOfRecord, AreInOrder, place_among};

use crate::guards::{comes_before, differ_once, join_guards};
use jac_rows::{Row, Rows};
use jac_value::{Memory, Value};
use std::alloc::Global;

/// Joins alternatives that have equal cells and have guards that differ only in the sign of one
/// label. The result is in the order of the guards. Under an assignment that shows at most one of
/// the rows, it shows the same.
pub fn merge_rows(alloc: Global, rows: Rows) -> Result<Rows, Memory>
    ensures shown { IfOk result (λ merged. Shows rows merged) }
    ensures own { IfOk result (λ merged. (id : ℕ) → AreOfRecord id rows → AreOfRecord id merged) }
    ensures merged { IfOk result AreMerged }
    ensures order { IfOk result AreInOrder }
{
    let mut merged = Vec::new(alloc);
    'rows: for row in rows.into_vec() {
        put(alloc, &mut merged, row)?;
    }
    Ok(Rows::from_vec(merged))
}

// Adds the row, after joining it with others as long as that is possible.
fn put(alloc: Global, merged: &mut Vec<Row>, row: Row) -> Result<(), Memory>
    requires merged { AreMerged merged.old.items }
    requires order { AreInOrder merged.old.items }
    ensures shown { OnOk result (Shows (merged.old.items ++ row ∷ []) merged.new.items) }
    ensures own { OnOk result ((id : ℕ) → AreOfRecord id (merged.old.items ++ row ∷ [])
        → AreOfRecord id merged.new.items) }
    ensures merged { OnOk result (AreMerged merged.new.items) }
    ensures order { OnOk result (AreInOrder merged.new.items) }
{
    let mut row = row;
    'joining: while let Some(place) = partner(merged.as_slice(), &row) {
        let other = merged.remove(place);
        row = join(alloc, other, row)?;
    }
    let place = place_for(merged.as_slice(), &row);
    merged.insert(place, row)?;
    Ok(())
}

// The place of a row that can be joined with this one.
fn partner(merged: &[Row], row: &Row) -> Option<usize>
    ensures { result ≡ position (λ one. joinable one row.now) merged.now }
{
    merged.iter().position(|one| are_joinable(one, row))
}

fn are_joinable(one: &Row, other: &Row) -> bool
    ensures { result ≡ joinable one.now other.now }
{
    one.id == other.id
        && have_same_cells(one.cells.as_slice(), other.cells.as_slice())
        && differ_once(one.guard.pairs(), other.guard.pairs())
}

fn have_same_cells(one: &[Value], other: &[Value]) -> bool
    ensures { result ≡ same_cells one.now other.now }
{
    one == other
}

// The row that holds if one of the two does.
fn join(alloc: Global, one: Row, other: Row) -> Result<Row, Memory>
    requires { joinable one other ≡ true }
    ensures shown { IfOk result (λ row. JoinsTo one other row) }
    ensures own { IfOk result (λ row. row.id ≡ other.id) }
{
    match join_guards(alloc, &one.guard, &other.guard)? {
        Some(guard) => Ok(Row {
            id: other.id,
            guard,
            cells: other.cells,
        }),
        None => unreachable!(),
    }
}

// The number of rows before the row's place.
fn place_for(merged: &[Row], row: &Row) -> usize
    ensures { result ≡ place_among row.now merged.now }
{
    let mut place: usize = 0;
    let mut left = merged;
    'rows: while let Some((first, rest)) = left.split_first() {
        if comes_before(row.guard.pairs(), first.guard.pairs()) {
            return place;
        }
        place += 1;
        left = rest;
    }
    place
}
