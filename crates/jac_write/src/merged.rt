//! The alternatives of a record as they are stored.
ghost use Rattle.std.specs.Prelude.{◌≡◌, ◌≤◌, ℕ, Bool, length, All, IfOk};
ghost use Rattle.jac_row_merge.specs.Merged.{AreMerged};
ghost use Rattle.jac_rows.specs.declared.row.Row.{Row as Seen};
ghost use Rattle.jac_write.specs.Writes.{cells_at};

use jac_row_merge::merge_rows;
use jac_rows::{Row, Rows};
use jac_value::Memory;
use std::alloc::Global;

/// Joins alternatives that have equal cells and have guards that differ only in the sign of one
/// label.
pub(crate) fn merged_rows(alloc: Global, rows: Vec<Row>) -> Result<Rows, Memory>
    ensures own { IfOk result (λ m. (id : ℕ) → All (λ (r : Seen). r.id ≡ id) rows.items
        → All (λ (r : Seen). r.id ≡ id) m) }
    ensures shown { IfOk result (λ m. (w : ℕ → Bool) → length (cells_at w rows.items) ≤ 1
        → cells_at w m ≡ cells_at w rows.items) }
    ensures merged { IfOk result AreMerged }
{
    let merged = merge_rows(alloc, Rows::from_vec(rows))?;
    Ok(merged)
}
