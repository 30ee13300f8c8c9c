//! Creates records under a path condition.
ghost use Rattle.std.specs.Prelude.{◌≡◌, ◌<◌, ◌++◌, ◌∷◌, [], ℕ, Bool, true, length, if◌then◌else◌, All, IfOk, OnOk, IsTrue};
ghost use Rattle.jac_value.specs.Ids.{is_id_of, model_of_id};
ghost use Rattle.jac_lang.specs.Lookup.{fields_at};
ghost use Rattle.jac_lang.specs.Mirror.{application_of};
ghost use Rattle.jac_expr.specs.Tupled.{all_at};
ghost use Rattle.jac_keep.specs.WorkState.{state_of, IsTold, WritesWork};
ghost use Rattle.jac_plain.specs.Records.{plain_row, tables_with};
ghost use Rattle.jac_rows.specs.declared.row.Row.{Row as Seen};
ghost use Rattle.jac_world.specs.World.{holds};
ghost use Rattle.jac_write.specs.Writes.{Creates, KeepsOrMerges, StaysTold, cells_at, made_cells, tables_created, models_for};

use crate::alternatives::put_rows;
use crate::drafts::new_drafts;
use crate::hidden::kept_under;
use crate::merged::merged_rows;
use crate::named::Named;
use crate::stored::add_stored;
use crate::subject::Subject;
use jac_facet::{Facet, Facets};
use jac_keep::{Keeper, Stop, Work, sound_after_change};
use jac_lang::App;
use jac_rows::Row;
use jac_value::{Id, Memory, Value, id_model};
use jac_world::{Guard, Steps};
use std::alloc::Global;
use std::sync::ledger::Ledger;

// The existing alternatives, followed by those of the new record.
fn with_new_record<L: Ledger>(
    alloc: Global,
    subject: &Subject<'_>,
    pc: &Guard,
    cells: &[Facet<Value>],
    standing: Vec<Row>,
    splits: &mut Steps<L>,
) -> Result<Vec<Row>, Memory>
    requires model { subject.now.model < length subject.now.app.now.models }
    requires id { is_id_of subject.now.id subject.now.model ≡ true }
    requires each_field { length cells.now ≡ length (fields_at (models_for subject.now)
        subject.now.model) }
    ensures own { IfOk result (λ v. All (λ (r : Seen). r.id ≡ subject.now.id) v.items) }
    ensures shown { IfOk result (λ v. (w : ℕ → Bool)
        → cells_at w v.items ≡ cells_at w standing.items ++ (if holds w pc.now
        then made_cells (models_for subject.now) w subject.now.model subject.now.id
        (all_at w cells.now) ∷ [] else [])) }
{
    let drafts = new_drafts(alloc, subject, pc, cells, splits)?;
    let mut rows = Vec::new(alloc);
    put_rows(subject.id, standing, &mut rows)?;
    let drafts = drafts.as_slice();
    add_stored(alloc, subject, Named::Every, drafts, &mut rows, splits)?;
    Ok(rows)
}

// Creates a record wherever the guard holds.
fn make_under<K: Keeper, L: Ledger>(
    work: &mut Work<'_, K>,
    app: &App,
    guard: &Guard,
    id: Id,
    cells: &Facets<Value>,
    splits: &mut Steps<L>,
) -> Result<(), Stop>
    requires attached { IsTrue (K.seen work.old.keeper.now).store.attached }
    requires a_table { IsTrue (K.seen work.old.keeper.now).tells
        → model_of_id id < length (K.seen work.old.keeper.now).state.tables }
    requires model { model_of_id id < length app.now.models }
    requires id { is_id_of id (model_of_id id) ≡ true }
    requires each_field { length cells.now ≡ length (fields_at (application_of app.now).models
        (model_of_id id)) }
    ensures left { IsTold K.seen work.new
        → OnOk result
        (Creates id (λ w. tables_with (model_of_id id)
        (plain_row id (made_cells (application_of app.now).models w (model_of_id id) id
        (all_at w cells.now)))) guard.now (state_of K.seen work.old) (state_of K.seen work.new)) }
    ensures told { OnOk result (StaysTold K.seen work.old work.new) }
    ensures merged { IsTold K.seen work.new
        → OnOk result (KeepsOrMerges (state_of K.seen work.old) (state_of K.seen work.new)) }
    ensures keeps { WritesWork K.seen work.old work.new result }
{
    sound_after_change();
    let model = id_model(id);
    let standing = work.one(id)?;
    let cells = cells.as_slice();
    let standing = standing.into_vec();
    let subject = Subject { app, model, id };
    let rows = with_new_record(work.alloc, &subject, guard, cells, standing, splits)?;
    let merged = merged_rows(work.alloc, rows)?;
    work.replace(id, merged)?;
    Ok(())
}

/// Creates a record wherever the path condition holds. There is one cell for each field of the
/// model. A cell of another kind becomes the default of the field's kind. If a group hides the
/// model's records, the record is created only where its label for that group is shown.
pub fn create<K: Keeper, L: Ledger>(
    work: &mut Work<'_, K>,
    app: &App,
    pc: &Guard,
    id: Id,
    cells: &Facets<Value>,
    splits: &mut Steps<L>,
) -> Result<(), Stop>
    requires attached { IsTrue (K.seen work.old.keeper.now).store.attached }
    requires a_table { IsTrue (K.seen work.old.keeper.now).tells
        → model_of_id id < length (K.seen work.old.keeper.now).state.tables }
    requires model { model_of_id id < length app.now.models }
    requires id { is_id_of id (model_of_id id) ≡ true }
    requires each_field { length cells.now ≡ length (fields_at (application_of app.now).models
        (model_of_id id)) }
    ensures left { IsTold K.seen work.new
        → OnOk result (Creates id (λ w. tables_created (application_of app.now).models w
        (model_of_id id) id (all_at w cells.now)) pc.now (state_of K.seen work.old)
        (state_of K.seen work.new)) }
    ensures told { OnOk result (StaysTold K.seen work.old work.new) }
    ensures merged { IsTold K.seen work.new
        → OnOk result (KeepsOrMerges (state_of K.seen work.old) (state_of K.seen work.new)) }
    ensures keeps { WritesWork K.seen work.old work.new result }
{
    match kept_under(work.alloc, app, pc, id)? {
        Some(guard) => {
            make_under(work, app, &guard, id, cells, splits)?;
            Ok(())
        }
        None => Ok(()),
    }
}
