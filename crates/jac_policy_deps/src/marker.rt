//! The marks that replaced records leave on labels and groups.
ghost use Rattle.std.specs.Prelude.{◌≡◌, ◌<◌, ◌≤◌, ◌++◌, ◌∷◌, [], if◌then◌else◌, length, OnOk};
ghost use Rattle.std.specs.Option.{option_map};
ghost use Rattle.jac_lang.specs.Mirror.{application_of, field_group_of, groups_of};
ghost use Rattle.jac_keep.specs.Alterations.{alters};
ghost use Rattle.jac_policy_deps.specs.Altered.{referred_by};
ghost use Rattle.jac_policy_deps.specs.Marks.{cell_mark, comes_again, each_dependency_marks, found_marks, group_mark, groups_marks, id_where, is_same_dependency, label_mark, link_mark, linked_mark, linked_marks, marks_if, models_marks, one_marks, only_mark, own_mark, own_marks, policy_marks, dependency_marks, row_mark, some_marks, viewer_marks};

use crate::mark::Mark;
use crate::names::is_same_referent;
use crate::reading::add_dependencies;
use crate::{Dependency, Referent};
use jac_keep::Alteration;
use jac_lang::{App, Group};
use jac_rows::Row;
use jac_value::{Id, Memory, Value, id_model, label_number};
use jac_world::Label;
use std::alloc::Global;

// A group of a model, by the places of both.
#[derive(Clone, Copy)]
pub(crate) struct Place {
    pub(crate) model: u8,
    pub(crate) group: u8,
}

// Adds the marks of all models.
pub(crate) fn mark_models(
    alloc: Global,
    app: &App,
    over: &[Alteration],
    rows: &[Row],
    marks: &mut Vec<Mark>,
) -> Result<(), Memory>
    ensures { OnOk result (marks.new.items ≡ marks.old.items ++ models_marks
        (application_of app.now).models 0 over.now rows.now (application_of app.now).models) }
{
    let mut place = 0u8;
    let mut left = app.models.as_slice();
    'models: while let Some((model, more)) = left.split_first() {
        mark_groups(
            alloc,
            app,
            place,
            over,
            rows,
            model.groups.as_slice(),
            marks,
        )?;
        place += 1;
        left = more;
    }
    Ok(())
}

// Adds the marks of the groups of a model.
fn mark_groups(
    alloc: Global,
    app: &App,
    model: u8,
    over: &[Alteration],
    rows: &[Row],
    groups: &[Group],
    marks: &mut Vec<Mark>,
) -> Result<(), Memory>
    requires { length groups.now ≤ 8 }
    ensures { OnOk result (marks.new.items ≡ marks.old.items ++ groups_marks
        (application_of app.now).models model 0 over.now rows.now (groups_of groups.now)) }
{
    let mut group = 0u8;
    let mut left = groups;
    'groups: while let Some((one, more)) = left.split_first() {
        mark_policy(alloc, app, Place { model, group }, over, rows, one, marks)?;
        group += 1;
        left = more;
    }
    Ok(())
}

// Adds the marks of a group: its labels of the replaced records, and the marks of what its policy
// depends on.
fn mark_policy(
    alloc: Global,
    app: &App,
    place: Place,
    over: &[Alteration],
    rows: &[Row],
    group: &Group,
    marks: &mut Vec<Mark>,
) -> Result<(), Memory>
    requires { place.group < 8 }
    ensures { OnOk result (marks.new.items ≡ marks.old.items ++ policy_marks (application_of
        app.now).models place.model place.group over.now rows.now (field_group_of group.now)) }
{
    let mut dependencies = Vec::new(alloc);
    add_dependencies(app, &group.policy, &mut dependencies)?;
    mark_own(place, over, marks)?;
    mark_dependencies(place, over, rows, dependencies.as_slice(), marks)
}

fn mark_own(place: Place, over: &[Alteration], marks: &mut Vec<Mark>) -> Result<(), Memory>
    requires { place.group < 8 }
    ensures { OnOk result (marks.new.items
        ≡ marks.old.items ++ own_marks place.model place.group over.now) }
{
    'over: for alteration in over {
        let own = id_where(id_model(alteration.id) == place.model, alteration.id);
        push_own(own, place.group, marks)?;
    }
    Ok(())
}

// An id from here on has no labels. No sound state has such an id.
pub(crate) const IDS_END: u128 = 1 << 124;

fn push_own(own: Option<Id>, group: u8, marks: &mut Vec<Mark>) -> Result<(), Memory>
    requires { group < 8 }
    ensures { OnOk result (marks.new.items ≡ marks.old.items ++ own_mark own group) }
{
    match own {
        None => Ok(()),
        Some(id) => {
            if IDS_END <= id.0 {
                return Err(Memory);
            }
            marks.push(Mark::One(Label(label_number(id, group))))?;
            Ok(())
        }
    }
}

fn id_where(is_one: bool, id: Id) -> Option<Id>
    ensures { result ≡ id_where is_one id }
{
    if is_one { Some(id) } else { None }
}

fn mark_dependencies(
    place: Place,
    over: &[Alteration],
    rows: &[Row],
    dependencies: &[Dependency],
    marks: &mut Vec<Mark>,
) -> Result<(), Memory>
    requires { place.group < 8 }
    ensures { OnOk result (marks.new.items
        ≡ marks.old.items ++ each_dependency_marks place.model place.group over.now rows.now
        dependencies.now) }
{
    let mut left = dependencies;
    'dependencies: while let Some((rest, more)) = left.split_first() {
        mark_last(place, over, rows, *rest, more, marks)?;
        left = more;
    }
    Ok(())
}

// Adds the marks of a dependency unless the same dependency comes again later.
fn mark_last(
    place: Place,
    over: &[Alteration],
    rows: &[Row],
    rest: Dependency,
    more: &[Dependency],
    marks: &mut Vec<Mark>,
) -> Result<(), Memory>
    requires { place.group < 8 }
    ensures { OnOk result (marks.new.items ≡ marks.old.items ++ (if comes_again rest more.now
        then [] else dependency_marks place.model place.group over.now rows.now rest)) }
{
    if comes_again(rest, more) {
        Ok(())
    } else {
        mark_dependency(place, over, rows, rest, marks)
    }
}

fn comes_again(rest: Dependency, more: &[Dependency]) -> bool
    ensures { result ≡ comes_again rest more.now }
{
    more.iter().any(|other| is_same_dependency(rest, *other))
}

fn is_same_dependency(one: Dependency, other: Dependency) -> bool
    ensures { result ≡ is_same_dependency one other }
{
    match one {
        Dependency::One(s) => match other {
            Dependency::One(t) => is_same_referent(s, t),
            _ => false,
        },
        Dependency::Table(m) => match other {
            Dependency::Table(n) => m == n,
            _ => false,
        },
        Dependency::Found(s, m, f) => match other {
            Dependency::Found(t, n, g) => is_same_referent(s, t) && (m == n && f == g),
            _ => false,
        },
        Dependency::Any => matches!(other, Dependency::Any),
    }
}

fn mark_dependency(
    place: Place,
    over: &[Alteration],
    rows: &[Row],
    rest: Dependency,
    marks: &mut Vec<Mark>,
) -> Result<(), Memory>
    requires { place.group < 8 }
    ensures { OnOk result (marks.new.items
        ≡ marks.old.items ++ dependency_marks place.model place.group over.now rows.now rest) }
{
    match rest {
        Dependency::One(referent) => mark_one(place, over, referent, marks),
        Dependency::Table(model) => mark_if(alters(model, over), place, marks),
        Dependency::Found(referent, model, field) => {
            mark_found(place, referent, model, field, rows, marks)
        }
        Dependency::Any => mark_some(over, place, marks),
    }
}

fn mark_one(
    place: Place,
    over: &[Alteration],
    referent: Referent,
    marks: &mut Vec<Mark>,
) -> Result<(), Memory>
    requires { place.group < 8 }
    ensures { OnOk result (marks.new.items
        ≡ marks.old.items ++ one_marks place.model place.group over.now referent) }
{
    match referent {
        Referent::This => mark_own(place, over, marks),
        Referent::Field(model, field) => mark_linked(place, model, field, over, marks),
        Referent::Viewer => mark_viewers(place, over, marks),
    }
}

fn mark_linked(
    place: Place,
    model: u8,
    field: u8,
    over: &[Alteration],
    marks: &mut Vec<Mark>,
) -> Result<(), Memory>
    ensures { OnOk result (marks.new.items
        ≡ marks.old.items ++ linked_marks place.model place.group model field over.now) }
{
    'over: for alteration in over {
        push_link(place, model, field, Some(Some(alteration.id)), marks)?;
    }
    Ok(())
}

fn push_link(
    place: Place,
    model: u8,
    field: u8,
    referred: Option<Option<Id>>,
    marks: &mut Vec<Mark>,
) -> Result<(), Memory>
    ensures { OnOk result (marks.new.items
        ≡ marks.old.items ++ link_mark place.model place.group model field referred) }
{
    match referred {
        Some(Some(id)) => push_linked(model == place.model, place, field, id, marks),
        Some(None) => push_group(place, None, marks),
        None => push_group(place, None, marks),
    }
}

fn push_linked(
    is_own: bool,
    place: Place,
    field: u8,
    id: Id,
    marks: &mut Vec<Mark>,
) -> Result<(), Memory>
    ensures { OnOk result (marks.new.items
        ≡ marks.old.items ++ linked_mark is_own place.model place.group field id ∷ []) }
{
    if is_own {
        marks.push(Mark::Linked(place.model, place.group, field, id))?;
        Ok(())
    } else {
        push_group(place, None, marks)
    }
}

fn mark_viewers(place: Place, over: &[Alteration], marks: &mut Vec<Mark>) -> Result<(), Memory>
    ensures { OnOk result (marks.new.items
        ≡ marks.old.items ++ viewer_marks place.model place.group over.now) }
{
    'over: for alteration in over {
        push_group(place, Some(Some(alteration.id)), marks)?;
    }
    Ok(())
}

// Adds the mark of the group for one viewer, or for every viewer.
fn push_group(place: Place, viewer: Option<Option<Id>>, marks: &mut Vec<Mark>) -> Result<(), Memory>
    ensures { OnOk result (marks.new.items
        ≡ marks.old.items ++ group_mark place.model place.group viewer ∷ []) }
{
    let mark = match viewer {
        None => Mark::All(place.model, place.group),
        Some(viewer) => Mark::Only(place.model, place.group, viewer),
    };
    marks.push(mark)?;
    Ok(())
}

// Whether a record of the model is replaced.
fn alters(model: u8, over: &[Alteration]) -> bool
    ensures { result ≡ alters model over.now }
{
    'over: for alteration in over {
        if id_model(alteration.id) == model {
            return true;
        }
    }
    false
}

fn mark_if(marked: bool, place: Place, marks: &mut Vec<Mark>) -> Result<(), Memory>
    ensures { OnOk result (marks.new.items
        ≡ marks.old.items ++ marks_if marked place.model place.group) }
{
    if marked {
        push_group(place, None, marks)
    } else {
        Ok(())
    }
}

fn mark_some(over: &[Alteration], place: Place, marks: &mut Vec<Mark>) -> Result<(), Memory>
    ensures { OnOk result (marks.new.items
        ≡ marks.old.items ++ some_marks over.now place.model place.group) }
{
    match over.first() {
        Some(_) => push_group(place, None, marks),
        None => Ok(()),
    }
}

fn mark_found(
    place: Place,
    referent: Referent,
    model: u8,
    field: u8,
    rows: &[Row],
    marks: &mut Vec<Mark>,
) -> Result<(), Memory>
    requires { place.group < 8 }
    ensures { OnOk result (marks.new.items
        ≡ marks.old.items ++ found_marks place.model place.group referent model field rows.now) }
{
    'rows: for row in rows {
        mark_row(place, referent, model, field, row, marks)?;
    }
    Ok(())
}

fn mark_row(
    place: Place,
    referent: Referent,
    model: u8,
    field: u8,
    row: &Row,
    marks: &mut Vec<Mark>,
) -> Result<(), Memory>
    requires { place.group < 8 }
    ensures { OnOk result (marks.new.items
        ≡ marks.old.items ++ row_mark place.model place.group referent model field row.now) }
{
    if id_model(row.id) != model {
        return Ok(());
    }
    let referred = referred_by(row.cells.as_slice().get(usize::from(field)));
    match referent {
        Referent::This => push_label(place.group, referred, marks),
        Referent::Field(model, field) => push_link(place, model, field, referred, marks),
        Referent::Viewer => push_viewer(place, referred, marks),
    }
}

// What a cell refers to, if it may be a reference. A missing cell counts as an empty reference.
fn referred_by(cell: Option<&Value>) -> Option<Option<Id>>
    ensures { result ≡ referred_by (option_map (λ v. v.now) cell.entry) }
{
    match cell {
        None => Some(None),
        Some(Value::Ref(id)) => Some(*id),
        Some(Value::Int(_)) | Some(Value::Text(_)) | Some(Value::Bool(_)) => None,
    }
}

fn push_label(group: u8, referred: Option<Option<Id>>, marks: &mut Vec<Mark>) -> Result<(), Memory>
    requires { group < 8 }
    ensures { OnOk result (marks.new.items ≡ marks.old.items ++ label_mark group referred) }
{
    match referred {
        Some(Some(id)) => push_own(id_where(id.0 < IDS_END, id), group, marks),
        Some(None) => Ok(()),
        None => Ok(()),
    }
}

fn push_viewer(
    place: Place,
    referred: Option<Option<Id>>,
    marks: &mut Vec<Mark>,
) -> Result<(), Memory>
    ensures { OnOk result (marks.new.items
        ≡ marks.old.items ++ only_mark place.model place.group referred) }
{
    match referred {
        Some(viewer) => push_group(place, Some(viewer), marks),
        None => Ok(()),
    }
}
