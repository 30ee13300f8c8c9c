//! Records of one table that are read one after another, from its rows if these are lent.
ghost use Rattle.std.specs.Prelude.{◌≡◌, ℕ, Bool, true, Option, unwrap_or, IfOk, OnOk, IsTrue};
ghost use Rattle.std.specs.Option.{option_copied};
ghost use Rattle.jac_value.specs.declared.value.Value.{Value as Cell};
ghost use Rattle.jac_world.specs.World.{shown_by};
ghost use Rattle.jac_rows.specs.Project.{rows_at};
ghost use Rattle.jac_keep.specs.Records.{AreOrdered, alternatives};
ghost use Rattle.jac_keep.specs.WorkState.{ReadsWork};
ghost use Rattle.jac_plain.specs.World.{cell_of, record_with};
ghost use Rattle.jac_shown_rows.specs.Consulted.{Agrees, Grows};
ghost use Rattle.jac_shown_rows.specs.Own.{IsOwn, are_own_rows};

use crate::Support;
use crate::reading::shown_cell;
use jac_keep::{Keeper, Place, Stop, Work, count_below, is_in_order, own_near};
use jac_rows::Row;
use jac_value::{Id, Memory, Value};
use jac_world::Assignment;
use std::alloc::Global;

// With fewer than `FEW` records, or fewer than one in `SPARSE` rows, each record is looked up by
// itself.
const FEW: usize = 8;

const SPARSE: usize = 16;

/// Whether there are enough ids to read their table as a whole.
pub(crate) fn are_many(ids: &[Id]) -> bool {
    ids.len() >= FEW
}

/// Whether the rows of the model are in memory, if they are wanted.
pub(crate) fn look_if<K: Keeper>(
    work: &mut Work<'_, K>,
    model: u8,
    wanted: bool,
) -> Result<bool, Stop>
    requires { IsTrue (K.seen work.old.keeper.now).store.attached }
    ensures { ReadsWork K.seen work.old work.new result }
{
    if !wanted {
        return Ok(false);
    }
    work.look_rows(model)
}

/// Whether the rows are ordered by rising id, and aren't too many for the number of ids.
pub(crate) fn suit(rows: &[Row], ids: &[Id]) -> bool
    ensures { result ≡ true → AreOrdered rows.now }
{
    if rows.len() / SPARSE > ids.len() {
        return false;
    }
    is_in_order(rows)
}

/// The cell of the record that the assignment shows, lent, if there is one. The record is first
/// looked for after the one that was read before it.
pub(crate) fn cell_among<'r>(
    alloc: Global,
    rows: &'r [Row],
    a: &Assignment,
    field: u8,
    id: Id,
    last: &mut Place,
    support: &mut Support,
) -> Result<Option<&'r Value>, Memory>
    requires { AreOrdered rows.now }
    ensures value { IfOk result (λ o. (w : ℕ → Bool) → Agrees support.new (shown_by a.now) w
        → (absent : Cell) → unwrap_or (option_copied o) absent ≡ cell_of (record_with id
        (rows_at w rows.now)) field absent) }
    ensures grows { Grows support.old support.new }
    ensures own { (this : Option ℕ) → are_own_rows this id rows.now ≡ true → IsOwn this support.old
        → OnOk result (IsOwn this support.new) }
{
    let own = rows_behind(rows, id, last);
    shown_cell(alloc, own, a, field, id, support)
}

// The rows of the record.
fn rows_behind<'r>(rows: &'r [Row], id: Id, last: &mut Place) -> &'r [Row]
    requires { AreOrdered rows.now }
    ensures { result.now ≡ alternatives id rows.now }
{
    let start = start_behind(rows, id, *last);
    let near = Place {
        start,
        count: last.count,
    };
    let own = own_near(rows, id, near);
    *last = Place {
        start,
        count: own.len(),
    };
    own
}

// Where the rows of the record begin.
fn start_behind(rows: &[Row], id: Id, last: Place) -> usize {
    let behind = last.start.saturating_add(last.count);
    if is_of(rows.get(behind), id) {
        return behind;
    }
    count_below(rows, id)
}

fn is_of(row: Option<&Row>, id: Id) -> bool {
    match row {
        Some(row) => row.id == id,
        None => false,
    }
}
