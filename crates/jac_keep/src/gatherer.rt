//! The rows of some records, each found by bisection.
ghost use Rattle.std.specs.Prelude.{◌≡◌, ◌++◌, IfOk, OnOk};
ghost use Rattle.jac_world.specs.World.{shown_by, IsAscending};
ghost use Rattle.jac_keep.specs.Records.{AreOrdered, alternatives, with_id};

use crate::places::place_in;
use crate::split::add_copies;
use jac_rows::{Row, Rows};
use jac_value::{Id, Memory};
use std::alloc::Global;

/// The rows with these ids, in their order.
pub fn rows_of_ids(alloc: Global, rows: &[Row], ids: &[Id]) -> Result<Rows, Memory>
    requires ordered { AreOrdered rows.now }
    requires ascending { IsAscending ids.now }
    ensures { IfOk result (λ found. found ≡ with_id (shown_by ids.now) rows.now) }
{
    let mut found = Vec::new(alloc);
    'ids: for id in ids {
        add_own(alloc, &mut found, rows, *id)?;
    }
    Ok(Rows::from_vec(found))
}

// Adds copies of the record's rows.
fn add_own(alloc: Global, found: &mut Vec<Row>, rows: &[Row], id: Id) -> Result<(), Memory>
    requires { AreOrdered rows.now }
    ensures { OnOk result (found.new.items ≡ found.old.items ++ alternatives id rows.now) }
{
    let place = place_in(rows, id);
    let (_, from) = rows.split_at(place.start);
    let (own, _) = from.split_at(place.count);
    add_copies(alloc, found, own)
}
