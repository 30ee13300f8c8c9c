//! Splits the alternatives of a record by a guard.
ghost use Rattle.std.specs.Prelude.{◌≡◌, ℕ, Bool, [], ◌∷◌, ◌++◌, if◌then◌else◌, All, IfOk, OnOk};
ghost use Rattle.jac_rows.specs.declared.row.Row.{Row as Seen};
ghost use Rattle.jac_world.specs.World.{holds};
ghost use Rattle.jac_write.specs.Writes.{cells_at, each_holding};

use jac_rows::Row;
use jac_value::{Cells, Id, Memory};
use jac_world::Guard;
use std::alloc::Global;

/// The alternatives where the guard doesn't hold, with this id.
#[tactic(auto, using(crate::proofs::CellsLaws::outside_is))]
pub(crate) fn outside(
    alloc: Global,
    guard: &Guard,
    id: Id,
    rows: &[Row],
) -> Result<Vec<Row>, Memory>
    ensures own { IfOk result (λ v. All (λ (r : Seen). r.id ≡ id) v.items) }
    ensures shown { IfOk result (λ v. (w : ℕ → Bool) → cells_at w v.items ≡ (if holds w guard.now
        then [] else cells_at w rows.now)) }
{
    let mut out = Vec::new(alloc);
    'rows: for row in rows {
        add_outside(alloc, guard, id, row, &mut out)?;
    }
    Ok(out)
}

#[tactic(auto, using(crate::proofs::CellsLaws::each_parted))]
fn add_outside(
    alloc: Global,
    guard: &Guard,
    id: Id,
    row: &Row,
    out: &mut Vec<Row>,
) -> Result<(), Memory>
    requires { All (λ (r : Seen). r.id ≡ id) out.old.items }
    ensures own { OnOk result (All (λ (r : Seen). r.id ≡ id) out.new.items) }
    ensures shown { OnOk result ((w : ℕ → Bool) → cells_at w out.new.items ≡ cells_at w
        out.old.items ++ (if holds w guard.now then [] else cells_at w (row.now ∷ []))) }
{
    let parts = row.guard.less(alloc, guard)?;
    add_parts(alloc, parts.into_vec(), id, &row.cells, out)?;
    Ok(())
}

// Adds an alternative for each of the guards.
fn add_parts(
    alloc: Global,
    guards: Vec<Guard>,
    id: Id,
    cells: &Cells,
    out: &mut Vec<Row>,
) -> Result<(), Memory>
    requires { All (λ (r : Seen). r.id ≡ id) out.old.items }
    ensures own { OnOk result (All (λ (r : Seen). r.id ≡ id) out.new.items) }
    ensures shown { OnOk result ((w : ℕ → Bool) → cells_at w out.new.items ≡ cells_at w
        out.old.items ++ each_holding w guards.items cells.now) }
{
    'guards: for guard in guards {
        add_row(alloc, guard, id, cells, out)?;
    }
    Ok(())
}

/// Adds an alternative of the record, with a copy of the cells.
pub(crate) fn add_row(
    alloc: Global,
    guard: Guard,
    id: Id,
    cells: &Cells,
    out: &mut Vec<Row>,
) -> Result<(), Memory>
    requires { All (λ (r : Seen). r.id ≡ id) out.old.items }
    ensures own { OnOk result (All (λ (r : Seen). r.id ≡ id) out.new.items) }
    ensures shown { OnOk result ((w : ℕ → Bool) → cells_at w out.new.items ≡ cells_at w
        out.old.items ++ (if holds w guard then cells.now ∷ [] else [])) }
{
    let cells = cells.copy(alloc)?;
    put_row(id, guard, cells, out)?;
    Ok(())
}

/// Adds an alternative of the record.
#[tactic(auto, using(crate::proofs::CellsLaws::cells_pushed))]
pub(crate) fn put_row(id: Id, guard: Guard, cells: Cells, out: &mut Vec<Row>) -> Result<(), Memory>
    requires { All (λ (r : Seen). r.id ≡ id) out.old.items }
    ensures own { OnOk result (All (λ (r : Seen). r.id ≡ id) out.new.items) }
    ensures shown { OnOk result ((w : ℕ → Bool) → cells_at w out.new.items ≡ cells_at w
        out.old.items ++ (if holds w guard then cells ∷ [] else [])) }
{
    out.push(Row { id, guard, cells })?;
    Ok(())
}

/// Adds these alternatives, with this id.
#[tactic(auto, using(crate::proofs::CellsLaws::one_by_one_is))]
pub(crate) fn put_rows(id: Id, rows: Vec<Row>, out: &mut Vec<Row>) -> Result<(), Memory>
    requires { All (λ (r : Seen). r.id ≡ id) out.old.items }
    ensures own { OnOk result (All (λ (r : Seen). r.id ≡ id) out.new.items) }
    ensures shown { OnOk result ((w : ℕ → Bool) → cells_at w out.new.items ≡ cells_at w
        out.old.items ++ cells_at w rows.items) }
{
    'rows: for row in rows {
        let Row {
            id: _,
            guard,
            cells,
        } = row;
        put_row(id, guard, cells, out)?;
    }
    Ok(())
}

/// The alternatives where the guard holds too, with this id.
#[tactic(auto, using(crate::proofs::CellsLaws::within_is))]
pub(crate) fn within(alloc: Global, guard: &Guard, id: Id, rows: &[Row]) -> Result<Vec<Row>, Memory>
    ensures own { IfOk result (λ v. All (λ (r : Seen). r.id ≡ id) v.items) }
    ensures shown { IfOk result (λ v. (w : ℕ → Bool) → cells_at w v.items ≡ (if holds w guard.now
        then cells_at w rows.now else [])) }
{
    let mut out = Vec::new(alloc);
    'rows: for row in rows {
        add_within(alloc, guard, id, row, &mut out)?;
    }
    Ok(out)
}

#[tactic(auto, using(crate::proofs::CellsLaws::met, crate::proofs::CellsLaws::unmet))]
fn add_within(
    alloc: Global,
    guard: &Guard,
    id: Id,
    row: &Row,
    out: &mut Vec<Row>,
) -> Result<(), Memory>
    requires { All (λ (r : Seen). r.id ≡ id) out.old.items }
    ensures own { OnOk result (All (λ (r : Seen). r.id ≡ id) out.new.items) }
    ensures shown { OnOk result ((w : ℕ → Bool) → cells_at w out.new.items ≡ cells_at w
        out.old.items ++ (if holds w guard.now then cells_at w (row.now ∷ []) else [])) }
{
    match row.guard.meet(alloc, guard)? {
        Some(both) => {
            add_row(alloc, both, id, &row.cells, out)?;
            Ok(())
        }
        None => Ok(()),
    }
}
