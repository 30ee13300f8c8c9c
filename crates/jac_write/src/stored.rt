//! Drafts of a record as they are stored.
ghost use Rattle.std.specs.Prelude.{◌≡◌, ◌<◌, ◌∷◌, [], ◌++◌, ◌&&◌, ℕ, Bool, true, length, map, slice_get, Some, if◌then◌else◌, All, IfOk, OnOk};
ghost use Rattle.jac_facet.specs.Shape.{at};
ghost use Rattle.jac_lang.specs.Lookup.{fields_at};
ghost use Rattle.jac_plain.specs.Records.{is_hidden, public_cell, shielded_cells};
ghost use Rattle.jac_rows.specs.declared.row.Row.{Row as Seen};
ghost use Rattle.jac_value.specs.Ids.{is_id_of};
ghost use Rattle.jac_world.specs.World.{holds};
ghost use Rattle.jac_write.specs.Drafts.{hides, named_by, stored_at};
ghost use Rattle.jac_write.specs.Writes.{cells_at, models_for};

use crate::alternatives::put_rows;
use crate::cells::{Spot, with_facet};
use crate::drafts::without_cells;
use crate::named::{Named, is_named};
use crate::public_values::public_value;
use crate::schema::{field_count, guarding_group};
use crate::subject::Subject;
use jac_facet::Facet;
use jac_rows::Row;
use jac_value::{Cells, Memory, Value, label_number};
use jac_world::{Label, Steps};
use std::alloc::Global;
use std::sync::ledger::Ledger;

// The label of the group that guards the field, if there is one.
fn label_of_field(subject: &Subject<'_>, field: u8) -> Option<Label>
    requires model { subject.now.model < length subject.now.app.now.models }
    requires field { field < length (fields_at (models_for subject.now) subject.now.model) }
    requires id { is_id_of subject.now.id subject.now.model ≡ true }
    ensures { (w : ℕ → Bool) → hides w result ≡ is_hidden (models_for subject.now) w
        subject.now.model subject.now.id field }
{
    match guarding_group(subject.app, subject.model, field) {
        Some(group) => Some(Label(label_number(subject.id, group))),
        None => None,
    }
}

// The label that hides the field, if the write names the field and a group guards it.
fn label_if_named(subject: &Subject<'_>, named: Named<'_>, field: u8) -> Option<Label>
    requires model { subject.now.model < length subject.now.app.now.models }
    requires field { field < length (fields_at (models_for subject.now) subject.now.model) }
    requires id { is_id_of subject.now.id subject.now.model ≡ true }
    ensures { (w : ℕ → Bool) → hides w result ≡ (named_by (models_for subject.now) subject.now.model
        w named.entry field && is_hidden (models_for subject.now) w subject.now.model subject.now.id
        field) }
{
    if is_named(subject.app, subject.model, named, field) {
        return label_of_field(subject, field);
    }
    None
}

// The cell where the label is shown, and the field's public value over the draft where it is
// hidden.
fn parted_cell<L: Ledger>(
    alloc: Global,
    subject: &Subject<'_>,
    draft: &Cells,
    field: u8,
    cell: &Value,
    label: Label,
    splits: &mut Steps<L>,
) -> Result<Facet<Value>, Memory>
    requires model { subject.now.model < length subject.now.app.now.models }
    requires field { field < length (fields_at (models_for subject.now) subject.now.model) }
    requires id { is_id_of subject.now.id subject.now.model ≡ true }
    requires cell { slice_get draft.now field ≡ Some cell.now }
    ensures { IfOk result (λ s. (w : ℕ → Bool) → at w s ≡ (if w label then cell.now
        else public_cell (models_for subject.now) subject.now.model subject.now.id draft.now field
        cell.now)) }
{
    let public = public_value(
        alloc,
        subject.app,
        subject.model,
        subject.id,
        draft,
        field,
        splits,
    )?;
    let cell = cell.copy(alloc)?;
    let parted = Facet::split(alloc, label, Facet::leaf(cell), Facet::leaf(public), splits)?;
    Ok(parted)
}

// The facet that is stored for a field of a draft. Only this function puts the labels of groups
// into the cells of a record.
#[tactic(auto, using(crate::proofs::DraftLaws::parted_at))]
fn stored_field<L: Ledger>(
    alloc: Global,
    subject: &Subject<'_>,
    named: Named<'_>,
    draft: &Cells,
    field: u8,
    cell: &Value,
    splits: &mut Steps<L>,
) -> Result<Facet<Value>, Memory>
    requires model { subject.now.model < length subject.now.app.now.models }
    requires field { field < length (fields_at (models_for subject.now) subject.now.model) }
    requires id { is_id_of subject.now.id subject.now.model ≡ true }
    requires cell { slice_get draft.now field ≡ Some cell.now }
    ensures { IfOk result (λ s. (w : ℕ → Bool) → at w s ≡ stored_at (models_for subject.now)
        w subject.now.model subject.now.id (named_by (models_for subject.now) subject.now.model w
        named.entry) draft.now field cell.now) }
{
    match label_if_named(subject, named, field) {
        Some(label) => {
            let parted = parted_cell(alloc, subject, draft, field, cell, label, splits)?;
            Ok(parted)
        }
        None => {
            let cell = cell.copy(alloc)?;
            Ok(Facet::leaf(cell))
        }
    }
}

// The facet that is stored for a cell of a draft. A cell after the model's fields stays the same.
#[tactic(auto, using(crate::proofs::SchemaLaws::past_stored))]
fn stored_cell<L: Ledger>(
    alloc: Global,
    subject: &Subject<'_>,
    named: Named<'_>,
    draft: &Cells,
    field: usize,
    cell: &Value,
    splits: &mut Steps<L>,
) -> Result<Facet<Value>, Memory>
    requires model { subject.now.model < length subject.now.app.now.models }
    requires id { is_id_of subject.now.id subject.now.model ≡ true }
    requires cell { slice_get draft.now field ≡ Some cell.now }
    ensures { IfOk result (λ s. (w : ℕ → Bool) → at w s ≡ stored_at (models_for subject.now)
        w subject.now.model subject.now.id (named_by (models_for subject.now) subject.now.model w
        named.entry) draft.now field cell.now) }
{
    if field < usize::from(field_count(subject.app, subject.model)) {
        let field = field as u8;
        let stored = stored_field(alloc, subject, named, draft, field, cell, splits)?;
        return Ok(stored);
    }
    let cell = cell.copy(alloc)?;
    Ok(Facet::leaf(cell))
}

// The draft as it is stored: an alternative for each combination of shown and hidden groups.
#[tactic(auto, using(crate::proofs::DraftLaws::stored_begun))]
fn stored_draft<L: Ledger>(
    alloc: Global,
    subject: &Subject<'_>,
    named: Named<'_>,
    draft: &Row,
    splits: &mut Steps<L>,
) -> Result<Vec<Row>, Memory>
    requires model { subject.now.model < length subject.now.app.now.models }
    requires id { is_id_of subject.now.id subject.now.model ≡ true }
    ensures own { IfOk result (λ v. All (λ (r : Seen). r.id ≡ subject.now.id) v.items) }
    ensures shown { IfOk result (λ v. (w : ℕ → Bool)
        → cells_at w v.items ≡ map (shielded_cells (models_for subject.now) w subject.now.model
        subject.now.id (named_by (models_for subject.now) subject.now.model w named.entry))
        (cells_at w (draft.now ∷ []))) }
{
    let mut stored = without_cells(alloc, subject.id, &draft.guard)?;
    let cells = draft.cells.as_slice();
    'fields: for field in 0..cells.len() {
        let cell = &cells[field];
        let cell = stored_cell(alloc, subject, named, &draft.cells, field, cell, splits)?;
        stored = with_facet(alloc, subject.id, stored.as_slice(), Spot::Behind, &cell)?;
    }
    Ok(stored)
}

fn add_stored_draft<L: Ledger>(
    alloc: Global,
    subject: &Subject<'_>,
    named: Named<'_>,
    draft: &Row,
    out: &mut Vec<Row>,
    splits: &mut Steps<L>,
) -> Result<(), Memory>
    requires model { subject.now.model < length subject.now.app.now.models }
    requires id { is_id_of subject.now.id subject.now.model ≡ true }
    requires own { All (λ (r : Seen). r.id ≡ subject.now.id) out.old.items }
    ensures own { OnOk result (All (λ (r : Seen). r.id ≡ subject.now.id) out.new.items) }
    ensures shown { OnOk result ((w : ℕ → Bool) → cells_at w out.new.items ≡ cells_at w
        out.old.items ++ map (shielded_cells (models_for subject.now) w subject.now.model
        subject.now.id
        (named_by (models_for subject.now) subject.now.model w named.entry))
        (cells_at w (draft.now ∷ []))) }
{
    let stored = stored_draft(alloc, subject, named, draft, splits)?;
    put_rows(subject.id, stored, out)?;
    Ok(())
}

/// Adds the drafts as they are stored. Where the group of a named field is hidden, the field has
/// its public value over the draft.
#[tactic(auto, using(crate::proofs::DraftLaws::each_row_mapped))]
pub(crate) fn add_stored<L: Ledger>(
    alloc: Global,
    subject: &Subject<'_>,
    named: Named<'_>,
    drafts: &[Row],
    out: &mut Vec<Row>,
    splits: &mut Steps<L>,
) -> Result<(), Memory>
    requires model { subject.now.model < length subject.now.app.now.models }
    requires id { is_id_of subject.now.id subject.now.model ≡ true }
    requires own { All (λ (r : Seen). r.id ≡ subject.now.id) out.old.items }
    ensures own { OnOk result (All (λ (r : Seen). r.id ≡ subject.now.id) out.new.items) }
    ensures shown { OnOk result ((w : ℕ → Bool) → cells_at w out.new.items ≡ cells_at w
        out.old.items ++ map (shielded_cells (models_for subject.now) w subject.now.model
        subject.now.id
        (named_by (models_for subject.now) subject.now.model w named.entry))
        (cells_at w drafts.now)) }
{
    'drafts: for draft in drafts {
        add_stored_draft(alloc, subject, named, draft, out, splits)?;
    }
    Ok(())
}
