//! Ids with a field of their records, by which they are sorted.
ghost use Rattle.std.specs.Prelude.{◌≡◌, ◌<◌, ◌++◌, [], ◌∷◌, ℕ, Bool, Some, length, unwrap_or, IfOk, OnOk, IsTrue};
ghost use Rattle.std.specs.Option.{option_copied};
ghost use Rattle.jac_value.specs.declared.value.Value.TheVariants as value;
ghost use Rattle.jac_world.specs.World.{shown_by};
ghost use Rattle.jac_lang.specs.Lookup.{fields_at};
ghost use Rattle.jac_lang.specs.Mirror.{application_of};
ghost use Rattle.jac_rows.specs.Project.{project_at, rows_at};
ghost use Rattle.jac_keep.specs.WorkState.{state_of, IsTold, ReadsWork};
ghost use Rattle.jac_keep.specs.Records.{AreOrdered};
ghost use Rattle.jac_plain.specs.World.{cell_of, record_with};
ghost use Rattle.jac_shown_rows.specs.Columns.{absent_in, column_got};
ghost use Rattle.jac_shown_rows.specs.Consulted.{Agrees, Grows};
ghost use Rattle.jac_shown_rows.specs.RecordIds.{keyed_each};

use crate::Support;
use crate::column::{Column, absent_of};
use crate::lent_table::{are_many, cell_among, look_if, suit};
use crate::reading::read_of;
use jac_keep::{Keeper, Place, Stop, Work};
use jac_rows::Row;
use jac_value::{Id, Memory, Value};
use jac_world::Assignment;
use std::alloc::Global;

/// Each id with the cell of its record. The cells are read from the rows of the model if these are
/// in memory.
pub fn keyed_by<K: Keeper>(
    work: &mut Work<'_, K>,
    a: &Assignment,
    column: &Column<'_>,
    ids: &[Id],
    support: &mut Support,
) -> Result<Vec<(Id, Value)>, Stop>
    requires attached { IsTrue (K.seen work.old.keeper.now).store.attached }
    requires model { column.now.model < length column.now.app.now.models }
    requires field { column.now.field < length
        (fields_at (application_of column.now.app.now).models column.now.model) }
    ensures keys { IsTold K.seen work.new → IfOk result (λ ps. (w : ℕ → Bool)
        → Agrees support.new (shown_by a.now) w → ps.items ≡ keyed_each (λ j. column_got
        (project_at w (state_of K.seen work.old)).tables (Some column.now) (value.Ref (Some j)))
        ids.now) }
    ensures reads { ReadsWork K.seen work.old work.new result }
    ensures grows { Grows support.old support.new }
{
    let model = column.model;
    let at_hand = look_if(work, model, are_many(ids))?;
    if at_hand {
        if let Some(rows) = work.looked_rows(model) {
            if suit(rows, ids) {
                let keyed = keyed_among(work.alloc, rows, a, column, ids, support)?;
                return Ok(keyed);
            }
        }
    }
    keyed_apart(work, a, column, ids, support)
}

// The same, with each record looked up by itself.
fn keyed_apart<K: Keeper>(
    work: &mut Work<'_, K>,
    a: &Assignment,
    column: &Column<'_>,
    ids: &[Id],
    support: &mut Support,
) -> Result<Vec<(Id, Value)>, Stop>
    requires attached { IsTrue (K.seen work.old.keeper.now).store.attached }
    requires model { column.now.model < length column.now.app.now.models }
    requires field { column.now.field < length
        (fields_at (application_of column.now.app.now).models column.now.model) }
    ensures keys { IsTold K.seen work.new → IfOk result (λ ps. (w : ℕ → Bool)
        → Agrees support.new (shown_by a.now) w → ps.items ≡ keyed_each (λ j. column_got
        (project_at w (state_of K.seen work.old)).tables (Some column.now) (value.Ref (Some j)))
        ids.now) }
    ensures reads { ReadsWork K.seen work.old work.new result }
    ensures grows { Grows support.old support.new }
{
    let mut keyed = Vec::with_capacity(work.alloc, ids.len())?;
    'ids: for id in ids {
        let key = read_of(work, a, column, *id, support)?;
        keyed.push((*id, key))?;
    }
    Ok(keyed)
}

// The same, from the rows of the column's model.
fn keyed_among(
    alloc: Global,
    rows: &[Row],
    a: &Assignment,
    column: &Column<'_>,
    ids: &[Id],
    support: &mut Support,
) -> Result<Vec<(Id, Value)>, Memory>
    requires ordered { AreOrdered rows.now }
    requires model { column.now.model < length column.now.app.now.models }
    requires field { column.now.field < length
        (fields_at (application_of column.now.app.now).models column.now.model) }
    ensures keys { IfOk result (λ ps. (w : ℕ → Bool) → Agrees support.new (shown_by a.now) w
        → ps.items ≡ keyed_each (λ j. cell_of (record_with j (rows_at w rows.now))
        column.now.field (absent_in column.now)) ids.now) }
    ensures grows { Grows support.old support.new }
{
    let mut last = Place { start: 0, count: 0 };
    let mut keyed = Vec::with_capacity(alloc, ids.len())?;
    'ids: for id in ids {
        let cell = cell_among(alloc, rows, a, column.field, *id, &mut last, support)?;
        push_keyed(alloc, &mut keyed, column, *id, cell)?;
    }
    Ok(keyed)
}

// Adds the id with the cell, or with what is read if there is none.
fn push_keyed(
    alloc: Global,
    keyed: &mut Vec<(Id, Value)>,
    column: &Column<'_>,
    id: Id,
    cell: Option<&Value>,
) -> Result<(), Memory>
    requires model { column.now.model < length column.now.app.now.models }
    requires field { column.now.field < length
        (fields_at (application_of column.now.app.now).models column.now.model) }
    ensures { OnOk result (keyed.new.items ≡ keyed.old.items ++ (
      id,
      unwrap_or (option_copied cell.entry) (absent_in column.now),
    ) ∷ []) }
{
    let key = copy_or_absent(alloc, column, cell)?;
    keyed.push((id, key))?;
    Ok(())
}

fn copy_or_absent(alloc: Global, column: &Column<'_>, cell: Option<&Value>) -> Result<Value, Memory>
    requires model { column.now.model < length column.now.app.now.models }
    requires field { column.now.field < length
        (fields_at (application_of column.now.app.now).models column.now.model) }
    ensures { IfOk result (λ v. v
        ≡ unwrap_or (option_copied cell.entry) (absent_in column.now)) }
{
    match cell {
        Some(cell) => cell.copy(alloc),
        None => Ok(absent_of(alloc, column)),
    }
}
