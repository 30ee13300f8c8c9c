ghost use Rattle.std.specs.Prelude.{◌≡◌, ℕ, Bool, IfOk};
ghost use Rattle.jac_facet.specs.Shape.{at};
ghost use Rattle.jac_rows.specs.Project.{rows_at};
ghost use Rattle.jac_query.specs.Field.{cell_or, field_of};

use jac_facet::{Facet, Leaf};
use jac_rows::Row;
use jac_value::{Memory, Value};
use jac_world::Steps;
use std::alloc::Global;
use std::sync::ledger::Ledger;

/// Under each assignment, the cell of the first row with a guard that holds. The value is `absent`
/// if there is no such row, or it has no such cell. At most one alternative of a record has a guard
/// that holds.
pub fn read_field<L: Ledger>(
    alloc: Global,
    rows: &[Row],
    field: u8,
    absent: &Value,
    splits: &mut Steps<L>,
) -> Result<Facet<Value>, Memory>
    ensures { IfOk result (λ f. (w : ℕ → Bool) → at w f ≡ field_of field absent.now
        (rows_at w rows.now)) }
{
    let mut rest = rows;
    let value = absent.copy(alloc)?;
    let mut found = Facet::leaf(value);
    'rows: while let Some((row, before)) = rest.split_last() {
        let value = cell(row, field, absent).copy(alloc)?;
        let cell = Facet::leaf(value);
        found = Facet::under(alloc, &row.guard, &cell, &found, splits)?;
        rest = before;
    }
    Ok(found)
}

fn cell<'a>(row: &'a Row, field: u8, absent: &'a Value) -> &'a Value
    ensures { result.now ≡ cell_or row.now.cells field absent.now }
{
    match row.cells.as_slice().get(usize::from(field)) {
        Some(value) => value,
        None => absent,
    }
}
