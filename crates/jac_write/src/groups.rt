//! Records of a model that gets new groups.
ghost use Rattle.std.specs.Prelude.{◌≡◌, ◌<◌, ◌≤◌, ℕ, Bool, true, not, length, if◌then◌else◌, [], All, IfOk};
ghost use Rattle.jac_lang.specs.Mirror.{application_of};
ghost use Rattle.jac_row_merge.specs.Merged.{AreMerged};
ghost use Rattle.jac_rows.specs.declared.row.Row.{Row as Seen};
ghost use Rattle.jac_value.specs.Ids.{is_id_of};
ghost use Rattle.jac_world.specs.World.{holds};
ghost use Rattle.jac_write.specs.Drafts.{hides};
ghost use Rattle.jac_write.specs.Regrouped.{regrouped_cells, stays};
ghost use Rattle.jac_write.specs.Writes.{cells_at};

use crate::alternatives::within;
use crate::merged::merged_rows;
use crate::named::{Named, is_from};
use crate::schema::group_that_hides;
use crate::stored::add_stored;
use crate::subject::Subject;
use jac_lang::App;
use jac_rows::{Row, Rows};
use jac_value::{Id, Memory, label_number};
use jac_world::{Guard, Label, Steps};
use std::alloc::Global;
use std::sync::ledger::Ledger;

/// The alternatives of a record from its drafts, if the groups of its model from this one on are
/// new. A field that one of these groups guards has its public value over the draft where the label
/// is hidden. If one of them hides the records, the record exists only where its label is shown.
pub fn regrouped<L: Ledger>(
    alloc: Global,
    app: &App,
    model: u8,
    id: Id,
    first: u8,
    drafts: &[Row],
    splits: &mut Steps<L>,
) -> Result<Rows, Memory>
    requires model { model < length app.now.models }
    requires id { is_id_of id model ≡ true }
    ensures own { IfOk result (λ rows. All (λ (r : Seen). r.id ≡ id) rows) }
    ensures shown { IfOk result (λ rows. (w : ℕ → Bool) → length (cells_at w drafts.now) ≤ 1
        → cells_at w rows ≡ regrouped_cells (application_of app.now).models w model id first
        (cells_at w drafts.now)) }
    ensures merged { IfOk result AreMerged }
{
    let guard = staying_guard(alloc, app, model, id, first)?;
    let staying = within(alloc, &guard, id, drafts)?;
    let staying = staying.as_slice();
    let mut stored = Vec::new(alloc);
    let subject = Subject { app, model, id };
    add_stored(
        alloc,
        &subject,
        Named::From(first),
        staying,
        &mut stored,
        splits,
    )?;
    let merged = merged_rows(alloc, stored)?;
    Ok(merged)
}

// The guard that holds where none of the groups from this one on hides the record.
fn staying_guard(alloc: Global, app: &App, model: u8, id: Id, first: u8) -> Result<Guard, Memory>
    requires model { model < length app.now.models }
    requires id { is_id_of id model ≡ true }
    ensures { IfOk result (λ g. (w : ℕ → Bool) → holds w g ≡ stays (application_of app.now).models w
        model id first) }
{
    let guard = shown_guard(alloc, new_hiding_label(app, model, id, first))?;
    Ok(guard)
}

// The label that hides the record, if the group that hides the records of its model is this one or
// comes later.
fn new_hiding_label(app: &App, model: u8, id: Id, first: u8) -> Option<Label>
    requires model { model < length app.now.models }
    requires id { is_id_of id model ≡ true }
    ensures { (w : ℕ → Bool) → not (hides w result) ≡ stays (application_of app.now).models w model
        id first }
{
    let place = group_that_hides(app, model);
    if !is_from(first, place) {
        return None;
    }
    match place {
        Some(group) => Some(Label(label_number(id, group))),
        None => None,
    }
}

// The guard that holds where the label is shown. If there is no label, it holds everywhere.
fn shown_guard(alloc: Global, label: Option<Label>) -> Result<Guard, Memory>
    ensures { IfOk result (λ g. (w : ℕ → Bool) → holds w g ≡ not (hides w label)) }
{
    match label {
        Some(label) => {
            let guard = Guard::one(alloc, label, true)?;
            Ok(guard)
        }
        None => Ok(Guard::empty(alloc)),
    }
}
