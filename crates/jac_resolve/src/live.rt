//! The labels that can be shown.
ghost use Rattle.std.specs.Prelude.{◌≡◌, ◌<◌, ◌≤◌, ◌^◌, ◌++◌, ◌∷◌, [], ◌&&◌, ◌↔◌, ℕ, true, if◌then◌else◌, All, length, IfOk, OnOk, IsTrue};
ghost use Rattle.jac_world.specs.World.{shown_by, holds, guard_wants, IsAscending};
ghost use Rattle.jac_lang.specs.Mirror.{application_of, entities_of};
ghost use Rattle.jac_rows.specs.Tables.{rows_of};
ghost use Rattle.jac_rows.specs.declared.row.Row.{Row as Alternative};
ghost use Rattle.jac_keep.specs.WorkState.{state_of, IsTold, ReadsWork};
ghost use Rattle.jac_plain.specs.Policies.{has_group, IsLiveLabel};
ghost use Rattle.jac_resolve.specs.Rounds.{HasSoundTables, AreLive};
ghost use Rattle.jac_resolve.specs.Live.{AreLiveOf};
ghost use Rattle.jac_resolve.specs.Collected.{labels_of_rows, CanBeSeen, Collects, CanHold, has_row};
ghost use Rattle.jac_plain.specs.Shown.{worlds_of};
ghost use Rattle.jac_value.specs.Ids.{labels_below};

use crate::permission::{has_group, record_of};
use jac_keep::{Keeper, Stop, Work};
use jac_lang::{App, ModelDef};
use jac_policy_cache::Labels;
use jac_rows::Row;
use jac_value::{Id, Memory, label_number};
use jac_world::Label;

/// The labels of all groups of every record that has a row in the work, by rising number.
pub fn live_labels<K: Keeper>(work: &mut Work<'_, K>, app: &App) -> Result<Labels, Stop>
    requires attached { IsTrue (K.seen work.old.keeper.now).store.attached }
    requires sound { IsTold K.seen work.old → HasSoundTables (state_of K.seen work.old) }
    ensures live { IsTold K.seen work.new
        → IfOk result (AreLive (application_of app.now) (worlds_of (state_of K.seen work.old))) }
    ensures by_rows { IsTold K.seen work.new → IfOk result (λ ls. (k : ℕ) → shown_by ls k
        ≡ (has_group (application_of app.now) k && has_row (state_of K.seen work.old) k)) }
    ensures ascending { IfOk result IsAscending }
    ensures reads { ReadsWork K.seen work.old work.new result }
{
    let labels = collect(work, app.models.as_slice())?;
    Ok(Labels::rising(labels))
}

/// Whether the label is live: its model has its group, and its record has a row. No other record is
/// read.
pub fn is_live<K: Keeper>(work: &mut Work<'_, K>, app: &App, label: Label) -> Result<bool, Stop>
    requires attached { IsTrue (K.seen work.old.keeper.now).store.attached }
    ensures live { IsTold K.seen work.new →
        IfOk result (λ b. b ≡ true ↔ IsLiveLabel (application_of app.now)
        (worlds_of (state_of K.seen work.old)) label) }
    ensures reads { ReadsWork K.seen work.old work.new result }
{
    if !has_group(app, label) {
        return Ok(false);
    }
    let rows = work.one(record_of(label))?;
    Ok(can_be_seen(rows.as_slice()))
}

/// The live labels among these, in their order.
pub fn live_of<K: Keeper>(
    work: &mut Work<'_, K>,
    app: &App,
    labels: &[Label],
) -> Result<Vec<Label>, Stop>
    requires attached { IsTrue (K.seen work.old.keeper.now).store.attached }
    ensures live { IsTold K.seen work.new →
        IfOk result (λ v. AreLiveOf (application_of app.now) (worlds_of (state_of K.seen work.old))
        labels.now v.items) }
    ensures reads { ReadsWork K.seen work.old work.new result }
{
    let mut some = Vec::new(work.alloc);
    'labels: for label in labels {
        let live = is_live(work, app, *label)?;
        push_if(&mut some, live, *label)?;
    }
    Ok(some)
}

fn push_if(some: &mut Vec<Label>, live: bool, label: Label) -> Result<(), Memory>
    ensures { OnOk result (some.new.items ≡ some.old.items ++ (if live then label ∷ [] else [])) }
{
    if live {
        some.push(label)?;
    }
    Ok(())
}

// Whether there is a row. If there is, some assignment shows it, because no guard contradicts
// itself.
fn can_be_seen(rows: &[Row]) -> bool
    ensures { CanBeSeen rows.now result }
{
    match rows.first() {
        Some(row) => {
            let _ = row.guard.pairs();
            true
        }
        None => false,
    }
}

// The labels of the records of all models, in the order of the models.
fn collect<K: Keeper>(work: &mut Work<'_, K>, models: &[ModelDef]) -> Result<Vec<Label>, Stop>
    requires attached { IsTrue (K.seen work.old.keeper.now).store.attached }
    requires sound { IsTold K.seen work.old → HasSoundTables (state_of K.seen work.old) }
    requires few { length models.now ≤ 64 }
    ensures labels { IsTold K.seen work.new → IfOk result (λ v. Collects (entities_of models.now)
        (state_of K.seen work.old).tables (length models.now) v.items) }
    ensures reads { ReadsWork K.seen work.old work.new result }
{
    let mut labels = Vec::new(work.alloc);
    'models: for place in 0..models.len() {
        let groups = group_count(&models[place]);
        add_model(work, &mut labels, place as u8, groups)?;
    }
    Ok(labels)
}

// The number of groups of the model.
fn group_count(model: &ModelDef) -> u8
    ensures count { result ≡ length model.now.groups }
    ensures few { result ≤ 8 }
{
    model.groups.as_slice().len() as u8
}

// Adds the labels of the records of one model.
fn add_model<K: Keeper>(
    work: &mut Work<'_, K>,
    labels: &mut Vec<Label>,
    model: u8,
    groups: u8,
) -> Result<(), Stop>
    requires attached { IsTrue (K.seen work.old.keeper.now).store.attached }
    requires few { groups ≤ 8 }
    ensures labels { IsTold K.seen work.new → All (λ (r : Alternative). r.id < 2 ^ 124) (rows_of
        (state_of K.seen work.old).tables model) → OnOk result (labels.new.items ≡ labels.old.items
        ++ labels_of_rows groups (rows_of (state_of K.seen work.old).tables model)) }
    ensures guards { IsTold K.seen work.new → 0 < groups
        → OnOk result (CanHold (rows_of (state_of K.seen work.old).tables model)) }
    ensures reads { ReadsWork K.seen work.old work.new result }
{
    if groups == 0 {
        return Ok(());
    }
    let rows = work.rows(model)?;
    add_rows(labels, rows.as_slice(), groups)?;
    Ok(())
}

fn add_rows(labels: &mut Vec<Label>, rows: &[Row], groups: u8) -> Result<(), Memory>
    requires few { groups ≤ 8 }
    ensures labels { All (λ (r : Alternative). r.id < 2 ^ 124) rows.now
        → OnOk result (labels.new.items ≡ labels.old.items ++ labels_of_rows groups rows.now) }
    ensures guards { OnOk result (CanHold rows.now) }
{
    'rows: for row in rows {
        add_row(labels, row, groups)?;
    }
    Ok(())
}

fn add_row(labels: &mut Vec<Label>, row: &Row, groups: u8) -> Result<(), Memory>
    requires few { groups ≤ 8 }
    ensures labels { row.now.id < 2 ^ 124
        → OnOk result (labels.new.items ≡ labels.old.items ++ labels_below row.now.id groups) }
    ensures guard { holds (guard_wants row.now.guard) row.now.guard ≡ true }
{
    // Reading the pairs of a guard shows that it never contradicts itself.
    let _ = row.guard.pairs();
    add_labels(labels, row.id, groups)
}

// An id from here on has no labels. No sound state has such an id.
const IDS_END: u128 = 1 << 124;

fn add_labels(labels: &mut Vec<Label>, id: Id, groups: u8) -> Result<(), Memory>
    requires few { groups ≤ 8 }
    ensures { id < 2 ^ 124
        → OnOk result (labels.new.items ≡ labels.old.items ++ labels_below id groups) }
{
    if IDS_END <= id.0 {
        return Ok(());
    }
    'groups: for group in 0..groups {
        labels.push(Label(label_number(id, group)))?;
    }
    Ok(())
}
