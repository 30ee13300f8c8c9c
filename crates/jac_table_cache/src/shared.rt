//! Rows that share their guards and cells with their copies.
ghost use Rattle.std.specs.Prelude.{◌≡◌, ◌<◌, length, IfOk, OnOk};

use jac_rows::{Row, Rows};
use jac_value::Memory;
use std::alloc::Global;

/// The same rows, which share their guards and cells with their copies. The rows are copied one by
/// one in place, so this takes the memory of one additional row.
pub fn shared_rows(alloc: Global, rows: Rows) -> Result<Rows, Memory>
    ensures { IfOk result (λ shared. shared ≡ rows) }
{
    let mut rows = rows.into_vec();
    'rows: for at in 0..rows.len() {
        share_at(alloc, &mut rows, at)?;
    }
    Ok(Rows::from_vec(rows))
}

fn share_at(alloc: Global, rows: &mut Vec<Row>, at: usize) -> Result<(), Memory>
    requires { at < length rows.old.items }
    ensures { OnOk result (rows.new.items ≡ rows.old.items) }
{
    let row = rows[at].copy(alloc)?;
    rows[at] = row;
    Ok(())
}
