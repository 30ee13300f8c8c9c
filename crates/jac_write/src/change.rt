//! Changes records under a path condition.
ghost use Rattle.std.specs.Prelude.{◌≡◌, ◌<◌, ℕ, Bool, true, length, map, slice_set, if◌then◌else◌, All, IfOk, OnOk, IsTrue};
ghost use Rattle.jac_facet.specs.Shape.{Shape, at};
ghost use Rattle.jac_value.specs.Ids.{is_id_of};
ghost use Rattle.jac_value.specs.declared.value.Value.{Value as Plain};
ghost use Rattle.jac_lang.specs.Lookup.{fields_at};
ghost use Rattle.jac_lang.specs.Mirror.{application_of};
ghost use Rattle.jac_keep.specs.WorkState.{state_of, IsTold, WritesWork};
ghost use Rattle.jac_plain.specs.Records.{changed_rows};
ghost use Rattle.jac_rows.specs.Tables.{rows_of};
ghost use Rattle.jac_rows.specs.declared.row.Row.{Row as Seen};
ghost use Rattle.jac_world.specs.World.{holds};
ghost use Rattle.jac_write.specs.Writes.{Writes, WritesEach, KeepsOrMerges, StaysTold, cells_at, remade_cells, sets_at, tables_remade, models_for};

use crate::Sets;
use crate::alternatives::{outside, within};
use crate::drafts::with_sets;
use crate::merged::merged_rows;
use crate::named::Named;
use crate::stored::add_stored;
use crate::subject::Subject;
use jac_facet::Facet;
use jac_keep::{Keeper, Stop, Work, sound_after_change};
use jac_lang::App;
use jac_rows::Row;
use jac_value::{Id, Memory, Value, is_id};
use jac_world::{Guard, Steps};
use std::alloc::Global;
use std::sync::ledger::Ledger;

// The alternatives of a record after the sets. Where the guard doesn't hold, they are the old ones.
fn remade_rows<L: Ledger>(
    alloc: Global,
    subject: &Subject<'_>,
    guard: &Guard,
    sets: &Sets,
    rows: &[Row],
    splits: &mut Steps<L>,
) -> Result<Vec<Row>, Memory>
    requires model { subject.now.model < length subject.now.app.now.models }
    requires fields { All (λ (s : ℕ × Shape Plain). s.0
        < length (fields_at (models_for subject.now) subject.now.model)) sets.now }
    requires id { is_id_of subject.now.id subject.now.model ≡ true }
    ensures own { IfOk result (λ v. All (λ (r : Seen). r.id ≡ subject.now.id) v.items) }
    ensures shown { IfOk result (λ v. (w : ℕ → Bool) → cells_at w v.items ≡ (if holds w guard.now
        then map (remade_cells (models_for subject.now) w subject.now.model subject.now.id
        (sets_at w sets.now)) (cells_at w rows.now) else cells_at w rows.now)) }
{
    let mut remade = outside(alloc, guard, subject.id, rows)?;
    let inner = within(alloc, guard, subject.id, rows)?;
    let drafts = with_sets(alloc, subject, sets.as_slice(), inner, splits)?;
    let drafts = drafts.as_slice();
    add_stored(
        alloc,
        subject,
        Named::Set(sets),
        drafts,
        &mut remade,
        splits,
    )?;
    Ok(remade)
}

// Changes the alternatives of a record where the guard holds.
fn update_alternatives<K: Keeper, L: Ledger>(
    work: &mut Work<'_, K>,
    app: &App,
    guard: &Guard,
    model: u8,
    id: Id,
    sets: &Sets,
    splits: &mut Steps<L>,
) -> Result<(), Stop>
    requires attached { IsTrue (K.seen work.old.keeper.now).store.attached }
    requires a_table { IsTrue (K.seen work.old.keeper.now).tells
        → model < length (K.seen work.old.keeper.now).state.tables }
    requires model { model < length app.now.models }
    requires fields { All (λ (s : ℕ × Shape Plain). s.0
        < length (fields_at (application_of app.now).models model)) sets.now }
    requires id { is_id_of id model ≡ true }
    ensures left { IsTold K.seen work.new
        → OnOk result
        (Writes (λ w ts. slice_set ts model
        (changed_rows id (remade_cells (application_of app.now).models w model id
        (sets_at w sets.now))
        (rows_of ts model))) guard.now (state_of K.seen work.old) (state_of K.seen work.new)) }
    ensures told { OnOk result (StaysTold K.seen work.old work.new) }
    ensures merged { IsTold K.seen work.new
        → OnOk result (KeepsOrMerges (state_of K.seen work.old) (state_of K.seen work.new)) }
    ensures keeps { WritesWork K.seen work.old work.new result }
{
    sound_after_change();
    let rows = work.one(id)?;
    let rows = rows.as_slice();
    if rows.is_empty() {
        return Ok(());
    }
    let subject = Subject { app, model, id };
    let remade = remade_rows(work.alloc, &subject, guard, sets, rows, splits)?;
    let merged = merged_rows(work.alloc, remade)?;
    work.replace(id, merged)?;
    Ok(())
}

// Changes the record where the guard holds. If the id isn't one of the model, nothing is done.
fn update_record<K: Keeper, L: Ledger>(
    work: &mut Work<'_, K>,
    app: &App,
    guard: &Guard,
    model: u8,
    id: Id,
    sets: &Sets,
    splits: &mut Steps<L>,
) -> Result<(), Stop>
    requires attached { IsTrue (K.seen work.old.keeper.now).store.attached }
    requires a_table { IsTrue (K.seen work.old.keeper.now).tells
        → model < length (K.seen work.old.keeper.now).state.tables }
    requires model { model < length app.now.models }
    requires fields { All (λ (s : ℕ × Shape Plain). s.0
        < length (fields_at (application_of app.now).models model)) sets.now }
    ensures left { IsTold K.seen work.new
        → OnOk result
        (Writes (λ w ts. slice_set ts model
        (changed_rows id (remade_cells (application_of app.now).models w model id
        (sets_at w sets.now))
        (rows_of ts model))) guard.now (state_of K.seen work.old) (state_of K.seen work.new)) }
    ensures told { OnOk result (StaysTold K.seen work.old work.new) }
    ensures merged { IsTold K.seen work.new
        → OnOk result (KeepsOrMerges (state_of K.seen work.old) (state_of K.seen work.new)) }
    ensures keeps { WritesWork K.seen work.old work.new result }
{
    if !is_id(id.0, model) {
        return Ok(());
    }
    update_alternatives(work, app, guard, model, id, sets, splits)?;
    Ok(())
}

// Changes the record that the value refers to, where the guard holds.
fn update_where<K: Keeper, L: Ledger>(
    work: &mut Work<'_, K>,
    app: &App,
    guard: &Guard,
    model: u8,
    target: &Value,
    sets: &Sets,
    splits: &mut Steps<L>,
) -> Result<(), Stop>
    requires attached { IsTrue (K.seen work.old.keeper.now).store.attached }
    requires a_table { IsTrue (K.seen work.old.keeper.now).tells
        → model < length (K.seen work.old.keeper.now).state.tables }
    requires model { model < length app.now.models }
    requires fields { All (λ (s : ℕ × Shape Plain). s.0
        < length (fields_at (application_of app.now).models model)) sets.now }
    ensures left { IsTold K.seen work.new
        → OnOk result (Writes (λ w. tables_remade (application_of app.now).models w model target.now
        (sets_at w sets.now)) guard.now (state_of K.seen work.old) (state_of K.seen work.new)) }
    ensures told { OnOk result (StaysTold K.seen work.old work.new) }
    ensures merged { IsTold K.seen work.new
        → OnOk result (KeepsOrMerges (state_of K.seen work.old) (state_of K.seen work.new)) }
    ensures keeps { WritesWork K.seen work.old work.new result }
{
    match target {
        Value::Ref(Some(id)) => {
            update_record(work, app, guard, model, *id, sets, splits)?;
            Ok(())
        }
        _ => Ok(()),
    }
}

fn update_leaves<K: Keeper, L: Ledger>(
    work: &mut Work<'_, K>,
    app: &App,
    model: u8,
    leaves: &[(Guard, Value)],
    sets: &Sets,
    splits: &mut Steps<L>,
) -> Result<(), Stop>
    requires attached { IsTrue (K.seen work.old.keeper.now).store.attached }
    requires a_table { IsTrue (K.seen work.old.keeper.now).tells
        → model < length (K.seen work.old.keeper.now).state.tables }
    requires model { model < length app.now.models }
    requires fields { All (λ (s : ℕ × Shape Plain). s.0
        < length (fields_at (application_of app.now).models model)) sets.now }
    ensures left { IsTold K.seen work.new
        → OnOk result (WritesEach (λ w v. tables_remade (application_of app.now).models w model v
        (sets_at w sets.now)) leaves.now (state_of K.seen work.old) (state_of K.seen work.new)) }
    ensures told { OnOk result (StaysTold K.seen work.old work.new) }
    ensures merged { IsTold K.seen work.new
        → OnOk result (KeepsOrMerges (state_of K.seen work.old) (state_of K.seen work.new)) }
    ensures keeps { WritesWork K.seen work.old work.new result }
{
    'leaves: for leaf in leaves {
        update_where(work, app, &leaf.0, model, &leaf.1, sets, splits)?;
    }
    Ok(())
}

/// Changes the cells of the record that the target refers to, wherever the path condition holds. If
/// the target isn't a record of the model, or doesn't exist, nothing is done.
pub fn update<K: Keeper, L: Ledger>(
    work: &mut Work<'_, K>,
    app: &App,
    pc: &Guard,
    model: u8,
    target: &Facet<Value>,
    sets: &Sets,
    splits: &mut Steps<L>,
) -> Result<(), Stop>
    requires attached { IsTrue (K.seen work.old.keeper.now).store.attached }
    requires a_table { IsTrue (K.seen work.old.keeper.now).tells
        → model < length (K.seen work.old.keeper.now).state.tables }
    requires model { model < length app.now.models }
    requires fields { All (λ (s : ℕ × Shape Plain). s.0
        < length (fields_at (application_of app.now).models model)) sets.now }
    ensures left { IsTold K.seen work.new
        → OnOk result (Writes (λ w. tables_remade (application_of app.now).models w model
        (at w target.now) (sets_at w sets.now)) pc.now (state_of K.seen work.old)
        (state_of K.seen work.new)) }
    ensures told { OnOk result (StaysTold K.seen work.old work.new) }
    ensures merged { IsTold K.seen work.new
        → OnOk result (KeepsOrMerges (state_of K.seen work.old) (state_of K.seen work.new)) }
    ensures keeps { WritesWork K.seen work.old work.new result }
{
    let leaves = target.leaves_under(work.alloc, pc)?;
    update_leaves(work, app, model, leaves.as_slice(), sets, splits)?;
    Ok(())
}
