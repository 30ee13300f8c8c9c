//! What the replaced records of a `Work` may affect.
ghost use Rattle.std.specs.Prelude.{◌≡◌, ◌++◌, ◌∷◌, ℕ, [], Option, IfOk, OnOk, IsErrOf, IsTrue};
ghost use Rattle.jac_io.specs.Faults.{Rose};
ghost use Rattle.jac_value.specs.Ids.{label_of};
ghost use Rattle.jac_world.specs.World.{shown_by};
ghost use Rattle.jac_lang.specs.Mirror.{application_of};
ghost use Rattle.jac_rows.specs.Good.{IsSound};
ghost use Rattle.jac_rows.specs.Project.{project_at};
ghost use Rattle.jac_keep.specs.declared.stop.Stop.TheVariants.{Keeper as OfKeeper};
ghost use Rattle.jac_keep.specs.KeeperSeen.{IsLeft};
ghost use Rattle.jac_keep.specs.WorkState.{state_of, IsTold, ReadsWork};
ghost use Rattle.jac_policy_cache.specs.Affected.{IsCovered};
ghost use Rattle.jac_policy_deps.specs.Altered.{alternatives_altered};
ghost use Rattle.jac_policy_deps.specs.Marks.{holder_labels, marked_group, marked_groups, marked_label, marked_labels, models_marks, row_labels, affected_group};

use crate::mark::Mark;
use crate::marker::{IDS_END, mark_models};
use jac_keep::{Alteration, Keeper, Stop, Work};
use jac_lang::App;
use jac_policy_cache::{AffectedGroup, Audience, Invalidation, Labels};
use jac_rows::{Row, Rows};
use jac_value::{Id, Memory, Value, label_number};
use jac_world::Label;
use std::alloc::Global;

/// The labels of the replaced records, and the labels whose policies depend on a replaced record,
/// as it was or as it is. The dependencies are read from the text of a policy, so its evaluation
/// costs no more.
pub fn invalidation_of<K: Keeper>(work: &mut Work<'_, K>, app: &App) -> Result<Invalidation, Stop>
    requires attached { IsTrue (K.seen work.old.keeper.now).store.attached }
    requires sound { IsTrue (K.seen work.old.keeper.now).tells
        → IsSound (K.seen work.old.keeper.now).state }
    ensures covered { IsTold K.seen work.new → IfOk result (λ t. (viewer : Option ℕ) →
        IsCovered (application_of app.now) (λ w. project_at w (K.seen work.old.keeper.now).state)
        (λ w. project_at w (state_of K.seen work.old)) t viewer) }
    ensures reads { ReadsWork K.seen work.old work.new result }
{
    let mut rows = Vec::new(work.alloc);
    add_altered(work.alloc, work.keeper, work.over.as_slice(), &mut rows)?;
    let invalidation = invalidation_among(
        work.alloc,
        work.keeper,
        app,
        work.over.as_slice(),
        rows.as_slice(),
    )?;
    Ok(invalidation)
}

// Adds the rows of the replaced records, before and after the replacement.
fn add_altered<K: Keeper>(
    alloc: Global,
    keeper: &mut K,
    over: &[Alteration],
    rows: &mut Vec<Row>,
) -> Result<(), Stop>
    requires attached { IsTrue (K.seen keeper.old).store.attached }
    ensures rows { IsTrue (K.seen keeper.new).tells → OnOk result (rows.new.items
        ≡ rows.old.items ++ alternatives_altered (K.seen keeper.old).state.tables over.now) }
    ensures left { IsLeft (K.seen keeper.old) (K.seen keeper.new) }
    ensures rose { IsErrOf result OfKeeper
        → Rose (K.seen keeper.old).faults (K.seen keeper.new).faults }
{
    'over: for alteration in over {
        let old = keeper.one(alloc, alteration.id)?;
        let new = alteration.rows.copy(alloc)?;
        push_rows(rows, old)?;
        push_rows(rows, new)?;
    }
    Ok(())
}

fn push_rows(rows: &mut Vec<Row>, more: Rows) -> Result<(), Memory>
    ensures { OnOk result (rows.new.items ≡ rows.old.items ++ more) }
{
    let mut more = more.into_vec();
    rows.append(&mut more)?;
    Ok(())
}

// What the replacement of records with these rows may affect.
fn invalidation_among<K: Keeper>(
    alloc: Global,
    keeper: &mut K,
    app: &App,
    over: &[Alteration],
    rows: &[Row],
) -> Result<Invalidation, Stop>
    requires attached { IsTrue (K.seen keeper.old).store.attached }
    ensures labels { IsTrue (K.seen keeper.new).tells → IfOk result (λ t. (k : ℕ)
        → shown_by t.labels k ≡ shown_by (marked_labels (K.seen keeper.old).state.tables
        (models_marks
        (application_of app.now).models 0 over.now rows.now (application_of app.now).models)) k) }
    ensures groups { IfOk result (λ t. t.groups.items ≡ marked_groups (models_marks
        (application_of app.now).models 0 over.now rows.now (application_of app.now).models)) }
    ensures left { IsLeft (K.seen keeper.old) (K.seen keeper.new) }
    ensures rose { IsErrOf result OfKeeper
        → Rose (K.seen keeper.old).faults (K.seen keeper.new).faults }
{
    let mut marks = Vec::new(alloc);
    mark_models(alloc, app, over, rows, &mut marks)?;
    let mut labels = Vec::new(alloc);
    add_labels(alloc, keeper, marks.as_slice(), &mut labels)?;
    let groups = groups_in(alloc, marks.as_slice())?;
    Ok(Invalidation {
        labels: Labels::rising(labels),
        groups,
    })
}

// Adds the labels of the marks. For a `Linked` mark they are the labels of records that refer to
// the record in the keeper. Such a record isn't replaced, or it has marks of its own.
fn add_labels<K: Keeper>(
    alloc: Global,
    keeper: &mut K,
    marks: &[Mark],
    labels: &mut Vec<Label>,
) -> Result<(), Stop>
    requires attached { IsTrue (K.seen keeper.old).store.attached }
    ensures labels { IsTrue (K.seen keeper.new).tells → OnOk result (labels.new.items
        ≡ labels.old.items ++ marked_labels (K.seen keeper.old).state.tables marks.now) }
    ensures left { IsLeft (K.seen keeper.old) (K.seen keeper.new) }
    ensures rose { IsErrOf result OfKeeper
        → Rose (K.seen keeper.old).faults (K.seen keeper.new).faults }
{
    'marks: for mark in marks {
        add_label(alloc, keeper, mark, labels)?;
    }
    Ok(())
}

fn add_label<K: Keeper>(
    alloc: Global,
    keeper: &mut K,
    mark: &Mark,
    labels: &mut Vec<Label>,
) -> Result<(), Stop>
    requires attached { IsTrue (K.seen keeper.old).store.attached }
    ensures labels { IsTrue (K.seen keeper.new).tells → OnOk result (labels.new.items
        ≡ labels.old.items ++ marked_label (K.seen keeper.old).state.tables mark.now) }
    ensures left { IsLeft (K.seen keeper.old) (K.seen keeper.new) }
    ensures rose { IsErrOf result OfKeeper
        → Rose (K.seen keeper.old).faults (K.seen keeper.new).faults }
{
    match mark {
        Mark::One(label) => {
            labels.push(*label)?;
            Ok(())
        }
        Mark::Linked(model, group, field, id) => {
            add_linked(alloc, keeper, *model, *group, *field, *id, labels)
        }
        Mark::All(_, _) => Ok(()),
        Mark::Only(_, _, _) => Ok(()),
    }
}

// Adds the labels of a group for the records that have a row that refers to the record by the
// field.
fn add_linked<K: Keeper>(
    alloc: Global,
    keeper: &mut K,
    model: u8,
    group: u8,
    field: u8,
    id: Id,
    labels: &mut Vec<Label>,
) -> Result<(), Stop>
    requires attached { IsTrue (K.seen keeper.old).store.attached }
    ensures labels { IsTrue (K.seen keeper.new).tells → OnOk result (labels.new.items
        ≡ labels.old.items ++ holder_labels (K.seen keeper.old).state.tables model group field id) }
    ensures left { IsLeft (K.seen keeper.old) (K.seen keeper.new) }
    ensures rose { IsErrOf result OfKeeper
        → Rose (K.seen keeper.old).faults (K.seen keeper.new).faults }
{
    let wanted = Value::Ref(Some(id));
    let rows = keeper.rows_with(alloc, model, field, &wanted)?;
    push_labels(group, rows.as_slice(), labels)?;
    Ok(())
}

fn push_labels(group: u8, rows: &[Row], labels: &mut Vec<Label>) -> Result<(), Memory>
    ensures { OnOk result (labels.new.items ≡ labels.old.items ++ row_labels group rows.now) }
{
    'rows: for row in rows {
        push_label(row.id, group, labels)?;
    }
    Ok(())
}

// An id past the end has no labels, and no mark has a group past the last one.
fn push_label(id: Id, group: u8, labels: &mut Vec<Label>) -> Result<(), Memory>
    ensures { OnOk result (labels.new.items ≡ labels.old.items ++ label_of id group ∷ []) }
{
    if IDS_END <= id.0 || 8 <= group {
        return Err(Memory);
    }
    labels.push(Label(label_number(id, group)))?;
    Ok(())
}

fn groups_in(alloc: Global, marks: &[Mark]) -> Result<Vec<AffectedGroup>, Memory>
    ensures { IfOk result (λ v. v.items ≡ marked_groups marks.now) }
{
    let mut groups = Vec::new(alloc);
    'marks: for mark in marks {
        add_group(&mut groups, mark)?;
    }
    Ok(groups)
}

fn add_group(groups: &mut Vec<AffectedGroup>, mark: &Mark) -> Result<(), Memory>
    ensures { OnOk result (groups.new.items ≡ groups.old.items ++ marked_group mark.now) }
{
    match mark {
        Mark::One(_) => Ok(()),
        Mark::Linked(_, _, _, _) => Ok(()),
        Mark::All(model, group) => push_group(groups, *model, *group, None),
        Mark::Only(model, group, viewer) => push_group(groups, *model, *group, Some(*viewer)),
    }
}

fn push_group(
    groups: &mut Vec<AffectedGroup>,
    model: u8,
    group: u8,
    viewer: Option<Option<Id>>,
) -> Result<(), Memory>
    ensures { OnOk result (groups.new.items
        ≡ groups.old.items ++ affected_group model group viewer ∷ []) }
{
    let viewer = match viewer {
        None => Audience::Everybody,
        Some(viewer) => Audience::Only(viewer),
    };
    groups.push(AffectedGroup {
        model,
        group,
        viewer,
    })?;
    Ok(())
}
