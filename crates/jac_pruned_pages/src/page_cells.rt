//! Cells that are copied to a page from where they are lent.
ghost use Rattle.std.specs.Prelude.{◌≡◌, ◌<◌, ℕ, Bool, Some, length, unwrap_or, IfSome, OnOk, IsTrue};
ghost use Rattle.std.specs.Option.{option_copied};
ghost use Rattle.jac_value.specs.Ids.{model_of_id};
ghost use Rattle.jac_value.specs.declared.value.Value.TheVariants as variant;
ghost use Rattle.jac_world.specs.World.{shown_by};
ghost use Rattle.jac_lang.specs.Lookup.{fields_at};
ghost use Rattle.jac_lang.specs.Mirror.{application_of};
ghost use Rattle.jac_rows.specs.Project.{project_at};
ghost use Rattle.jac_rows.specs.Tables.{rows_of};
ghost use Rattle.jac_keep.specs.WorkState.{state_of, IsTold, ReadsWork};
ghost use Rattle.jac_plain.specs.Pieces.{piece_of};
ghost use Rattle.jac_plain.specs.World.{cell_of, got, record_with, referred_record};
ghost use Rattle.jac_pruned_pages.specs.Buffers.{buffer_of, buffer_with};
ghost use Rattle.jac_shown_rows.specs.Columns.{absent_in};
ghost use Rattle.jac_shown_rows.specs.Consulted.{Agrees, Grows};
ghost use Rattle.jac_shown_rows.specs.Seen.{seen_at};

use crate::page_buffer::PageBuffer;
use jac_keep::{Keeper, Stop, Work};
use jac_plain::Form;
use jac_shown_rows::{
    Column, Support, WorldContext, absent_of, column_named, look_once, read_one, shown_cell,
};
use jac_value::{Id, Memory, Txt, Value, id_model};
use jac_world::Assignment;
use std::alloc::Global;

/// A field that is read for a page, and the form in which its value is added.
#[derive(Clone, Copy)]
pub(crate) struct PageCell<'e> {
    pub form: Form,
    pub model: &'e Txt,
    pub field: &'e Txt,
}

/// Adds the field of the record that the value refers to.
pub(crate) fn add_got<K: Keeper>(
    work: &mut Work<'_, K>,
    at: &WorldContext<'_>,
    cell: &PageCell<'_>,
    value: &Value,
    page: &mut PageBuffer,
    support: &mut Support,
) -> Result<(), Stop>
    requires attached { IsTrue (K.seen work.old.keeper.now).store.attached }
    ensures piece { IsTold K.seen work.new → OnOk result ((w : ℕ → Bool)
        → Agrees support.new (shown_by at.now.assignment.now) w
        → buffer_of page.new ≡ buffer_with (piece_of cell.now.form
        (got (seen_at at.now (state_of K.seen work.old) w) cell.now.model.now cell.now.field.now
        value.now)) (buffer_of page.old)) }
    ensures reads { ReadsWork K.seen work.old work.new result }
    ensures grows { Grows support.old support.new }
{
    match column_named(at.app, cell.model, cell.field) {
        Some(column) => {
            add_one(
                work,
                at.assignment,
                &column,
                cell.form,
                value,
                page,
                support,
            )?;
            Ok(())
        }
        None => {
            page.add(work.alloc, cell.form, &Value::Int(0))?;
            Ok(())
        }
    }
}

// Adds the cell of the record that the value refers to, in the table of the model.
fn add_one<K: Keeper>(
    work: &mut Work<'_, K>,
    a: &Assignment,
    column: &Column<'_>,
    form: Form,
    value: &Value,
    page: &mut PageBuffer,
    support: &mut Support,
) -> Result<(), Stop>
    requires attached { IsTrue (K.seen work.old.keeper.now).store.attached }
    requires model { column.now.model < length column.now.app.now.models }
    requires field { column.now.field < length
        (fields_at (application_of column.now.app.now).models column.now.model) }
    ensures piece { IsTold K.seen work.new → OnOk result ((w : ℕ → Bool)
        → Agrees support.new (shown_by a.now) w
        → buffer_of page.new ≡ buffer_with (piece_of form (cell_of (referred_record value.now
        (rows_of (project_at w (state_of K.seen work.old)).tables column.now.model))
        column.now.field (absent_in column.now))) (buffer_of page.old)) }
    ensures reads { ReadsWork K.seen work.old work.new result }
    ensures grows { Grows support.old support.new }
{
    match own_id(column.model, value) {
        Some(id) => {
            add_own(work, a, column, form, id, page, support)?;
            Ok(())
        }
        None => {
            let cell = read_one(work, a, column, value, support)?;
            page.add(work.alloc, form, &cell)?;
            Ok(())
        }
    }
}

// The record that the value refers to, if it is one of the model.
fn own_id(model: u8, value: &Value) -> Option<Id>
    ensures { IfSome result (λ id. (value.now ≡ variant.Ref (Some id)) × (model_of_id id ≡ model)) }
{
    match value {
        Value::Ref(Some(id)) => {
            if id_model(*id) == model {
                Some(*id)
            } else {
                None
            }
        }
        _ => None,
    }
}

// Adds the cell of the record with this id, in the table of its model. If the cell is in memory, it
// is lent.
fn add_own<K: Keeper>(
    work: &mut Work<'_, K>,
    a: &Assignment,
    column: &Column<'_>,
    form: Form,
    id: Id,
    page: &mut PageBuffer,
    support: &mut Support,
) -> Result<(), Stop>
    requires attached { IsTrue (K.seen work.old.keeper.now).store.attached }
    requires model { column.now.model < length column.now.app.now.models }
    requires field { column.now.field < length
        (fields_at (application_of column.now.app.now).models column.now.model) }
    ensures piece { IsTold K.seen work.new → OnOk result ((w : ℕ → Bool)
        → Agrees support.new (shown_by a.now) w
        → buffer_of page.new ≡ buffer_with (piece_of form (cell_of (record_with id
        (rows_of (project_at w (state_of K.seen work.old)).tables (model_of_id id)))
        column.now.field (absent_in column.now))) (buffer_of page.old)) }
    ensures reads { ReadsWork K.seen work.old work.new result }
    ensures grows { Grows support.old support.new }
{
    if let Some(near) = look_once(work, id, support)? {
        if let Some(rows) = work.looked(id, near) {
            let cell = shown_cell(work.alloc, rows, a, column.field, id, support)?;
            add_cell(work.alloc, column, form, cell, page)?;
            return Ok(());
        }
    }
    let rows = work.one(id)?;
    let cell = shown_cell(work.alloc, rows.as_slice(), a, column.field, id, support)?;
    add_cell(work.alloc, column, form, cell, page)?;
    Ok(())
}

fn add_cell(
    alloc: Global,
    column: &Column<'_>,
    form: Form,
    cell: Option<&Value>,
    page: &mut PageBuffer,
) -> Result<(), Memory>
    requires model { column.now.model < length column.now.app.now.models }
    requires field { column.now.field < length
        (fields_at (application_of column.now.app.now).models column.now.model) }
    ensures { OnOk result (buffer_of page.new ≡ buffer_with (piece_of form
        (unwrap_or (option_copied cell.entry) (absent_in column.now))) (buffer_of page.old)) }
{
    match cell {
        Some(cell) => page.add(alloc, form, cell),
        None => page.add(alloc, form, &absent_of(alloc, column)),
    }
}
