//! A record's alternatives among the rows of its table, found by bisection.
ghost use Rattle.std.specs.Prelude.{◌≡◌, IfOk};
ghost use Rattle.jac_keep.specs.Records.{AreOrdered, alternatives};

use jac_keep::{count_below, count_through};
use jac_rows::{Row, Rows};
use jac_value::{Id, Memory};
use std::alloc::Global;

/// Copies of the record's alternatives, from rows in order of rising id.
pub fn own_rows(alloc: Global, rows: &[Row], id: Id) -> Result<Rows, Memory>
    ensures { AreOrdered rows.now → IfOk result (λ r. r ≡ alternatives id rows.now) }
{
    let start = count_below(rows, id);
    let (_, from) = rows.split_at(start);
    let count = count_through(from, id);
    let (own, _) = from.split_at(count);
    Rows::from_slice(alloc, own)
}
