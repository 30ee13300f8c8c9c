//! Alters rows that are in any order, by one pass over the rows for each alteration.
ghost use Rattle.std.specs.Prelude.{◌≡◌, ◌==◌, ◌++◌, ◌∷◌, [], if◌then◌else◌, IfOk, OnOk};
ghost use Rattle.jac_value.specs.Ids.{model_of_id};
ghost use Rattle.jac_keep.specs.Records.{before, behind, placed_rows};
ghost use Rattle.jac_keep.specs.Alterations.{altered_rows};

use crate::Alteration;
use jac_rows::Row;
use jac_value::{Id, Memory, id_model};
use std::alloc::Global;

/// The rows of a model after the alterations of its records.
pub fn alter_any(
    alloc: Global,
    changed: &[Alteration],
    model: usize,
    rows: Vec<Row>,
) -> Result<Vec<Row>, Memory>
    ensures { IfOk result (λ v. v.items ≡ altered_rows model changed.now rows.items) }
{
    let mut left = rows;
    'changed: for alteration in changed {
        let next = alter_if(alloc, alteration, model, left)?;
        left = next;
    }
    Ok(left)
}

// The rows of a model after one alteration, which may be of another model.
fn alter_if(
    alloc: Global,
    alteration: &Alteration,
    model: usize,
    rows: Vec<Row>,
) -> Result<Vec<Row>, Memory>
    ensures { IfOk result (λ v. v.items ≡ (if model_of_id alteration.now.id == model
        then placed_rows alteration.now.id alteration.now.rows rows.items else rows.items)) }
{
    if usize::from(id_model(alteration.id)) == model {
        let rows = place_rows(alloc, alteration.id, alteration.rows.as_slice(), rows)?;
        Ok(rows)
    } else {
        Ok(rows)
    }
}

// The rows after the new ones replace the record's alternatives.
fn place_rows(alloc: Global, id: Id, new: &[Row], rows: Vec<Row>) -> Result<Vec<Row>, Memory>
    ensures { IfOk result (λ v. v.items ≡ placed_rows id new.now rows.items) }
{
    let (mut low, mut high) = split_rows(alloc, id, rows)?;
    add_copies(alloc, &mut low, new)?;
    low.append(&mut high)?;
    Ok(low)
}

// The rows with lesser ids, and those with greater ids.
fn split_rows(alloc: Global, id: Id, rows: Vec<Row>) -> Result<(Vec<Row>, Vec<Row>), Memory>
    ensures low { IfOk result (λ p. p.0.items ≡ before id rows.items) }
    ensures high { IfOk result (λ p. p.1.items ≡ behind id rows.items) }
{
    let mut low = Vec::new(alloc);
    let mut high = Vec::new(alloc);
    'rows: for row in rows {
        add_row(&mut low, &mut high, id, row)?;
    }
    Ok((low, high))
}

// Adds the row to `low` or to `high`, unless it is of the record.
fn add_row(low: &mut Vec<Row>, high: &mut Vec<Row>, id: Id, row: Row) -> Result<(), Memory>
    ensures low { OnOk result (low.new.items ≡ low.old.items ++ before id (row ∷ [])) }
    ensures high { OnOk result (high.new.items ≡ high.old.items ++ behind id (row ∷ [])) }
{
    if row.id < id {
        low.push(row)?;
    } else if id < row.id {
        high.push(row)?;
    }
    Ok(())
}

/// Adds copies of the rows.
pub(crate) fn add_copies(alloc: Global, rows: &mut Vec<Row>, new: &[Row]) -> Result<(), Memory>
    ensures { OnOk result (rows.new.items ≡ rows.old.items ++ new.now) }
{
    'new: for row in new {
        let row = row.copy(alloc)?;
        rows.push(row)?;
    }
    Ok(())
}
