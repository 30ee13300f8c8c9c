//! Puts a faceted value into the cells of alternatives.
ghost use Rattle.std.specs.Prelude.{◌≡◌, ◌++◌, ◌∷◌, [], ℕ, Bool, slice_set, map, if◌then◌else◌, All, IfOk, OnOk};
ghost use Rattle.jac_facet.specs.Shape.{at};
ghost use Rattle.jac_rows.specs.declared.row.Row.{Row as Seen};
ghost use Rattle.jac_world.specs.World.{holds};
ghost use Rattle.jac_write.specs.Drafts.{with_cell, with_each};
ghost use Rattle.jac_write.specs.Writes.{cells_at};

use crate::alternatives::put_row;
use jac_facet::Facet;
use jac_rows::Row;
use jac_value::{Cells, Id, Memory, Value};
use jac_world::Guard;
use std::alloc::Global;

/// The place of a value among the cells of a record.
#[derive(Clone, Copy)]
pub(crate) enum Spot {
    /// After the last cell.
    Behind,
    /// In place of the cell of this field.
    At(u8),
}

/// The alternatives with what the facet shows in this spot. The result has an alternative once for
/// each value of the facet under its guard.
#[tactic(auto, using(crate::proofs::DraftLaws::each_row_mapped))]
pub(crate) fn with_facet(
    alloc: Global,
    id: Id,
    rows: &[Row],
    spot: Spot,
    facet: &Facet<Value>,
) -> Result<Vec<Row>, Memory>
    ensures own { IfOk result (λ v. All (λ (r : Seen). r.id ≡ id) v.items) }
    ensures shown { IfOk result (λ v. (w : ℕ → Bool)
        → cells_at w v.items ≡ map (with_cell spot (at w facet.now)) (cells_at w rows.now)) }
{
    let mut out = Vec::new(alloc);
    'rows: for row in rows {
        add_with_facet(alloc, id, row, spot, facet, &mut out)?;
    }
    Ok(out)
}

#[tactic(auto, using(crate::proofs::DraftLaws::each_seen))]
fn add_with_facet(
    alloc: Global,
    id: Id,
    row: &Row,
    spot: Spot,
    facet: &Facet<Value>,
    out: &mut Vec<Row>,
) -> Result<(), Memory>
    requires { All (λ (r : Seen). r.id ≡ id) out.old.items }
    ensures own { OnOk result (All (λ (r : Seen). r.id ≡ id) out.new.items) }
    ensures shown { OnOk result ((w : ℕ → Bool) → cells_at w out.new.items ≡ cells_at w
        out.old.items ++ map (with_cell spot (at w facet.now)) (cells_at w (row.now ∷ []))) }
{
    let leaves = facet.leaves_under(alloc, &row.guard)?;
    add_leaves(alloc, id, &row.cells, spot, leaves.into_vec(), out)?;
    Ok(())
}

// Adds an alternative for each of the leaves.
fn add_leaves(
    alloc: Global,
    id: Id,
    cells: &Cells,
    spot: Spot,
    leaves: Vec<(Guard, Value)>,
    out: &mut Vec<Row>,
) -> Result<(), Memory>
    requires { All (λ (r : Seen). r.id ≡ id) out.old.items }
    ensures own { OnOk result (All (λ (r : Seen). r.id ≡ id) out.new.items) }
    ensures shown { OnOk result ((w : ℕ → Bool) → cells_at w out.new.items ≡ cells_at w
        out.old.items ++ with_each w spot cells.now leaves.items) }
{
    'leaves: for leaf in leaves {
        let (guard, value) = leaf;
        add_leaf(alloc, id, cells, spot, guard, value, out)?;
    }
    Ok(())
}

fn add_leaf(
    alloc: Global,
    id: Id,
    cells: &Cells,
    spot: Spot,
    guard: Guard,
    value: Value,
    out: &mut Vec<Row>,
) -> Result<(), Memory>
    requires { All (λ (r : Seen). r.id ≡ id) out.old.items }
    ensures own { OnOk result (All (λ (r : Seen). r.id ≡ id) out.new.items) }
    ensures shown { OnOk result ((w : ℕ → Bool) → cells_at w out.new.items ≡ cells_at w
        out.old.items ++ (if holds w guard then with_cell spot value cells.now ∷ [] else [])) }
{
    let cells = cells_with(alloc, cells, spot, value)?;
    put_row(id, guard, cells, out)?;
    Ok(())
}

fn cells_with(alloc: Global, cells: &Cells, spot: Spot, value: Value) -> Result<Cells, Memory>
    ensures { IfOk result (λ c. c ≡ with_cell spot value cells.now) }
{
    let cells = cells.to_vec(alloc)?;
    match spot {
        Spot::Behind => {
            let cells = pushed(cells, value)?;
            Ok(cells)
        }
        Spot::At(field) => Ok(replaced(cells, field, value)),
    }
}

fn pushed(cells: Vec<Value>, value: Value) -> Result<Cells, Memory>
    ensures { IfOk result (λ c. c ≡ cells.items ++ value ∷ []) }
{
    let mut cells = cells;
    cells.push(value)?;
    Ok(Cells::from_vec(cells))
}

// If there is no such field, the cells stay the same.
fn replaced(cells: Vec<Value>, field: u8, value: Value) -> Cells
    ensures { result ≡ slice_set cells.items field value }
{
    let mut cells = cells;
    let field = usize::from(field);
    if field < cells.len() {
        cells[field] = value;
        return Cells::from_vec(cells);
    }
    Cells::from_vec(cells)
}
