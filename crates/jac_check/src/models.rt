//! Models: their names, their fields, their groups.
ghost use Rattle.std.specs.Prelude.{◌≡◌, []};
ghost use Rattle.jac_lang.specs.Lookup.{guards_field};
ghost use Rattle.jac_lang.specs.Mirror.{application_of, assigned_of, one_assigned_of, entity_of, entities_of, field_group_of, groups_of};
ghost use Rattle.jac_check.specs.Scope.{has_field, has_model, is_guarded, is_hiding};
ghost use Rattle.jac_check.specs.Applications.{field_fault, fields_fault, guard_fault, guards_fault, group_fault, groups_fault, model_fault};
ghost use Rattle.jac_check.specs.Mirror.{fault_of, seen_of};

use crate::cause::Cause;
use crate::expressions::judge;
use crate::kinds::want;
use crate::lookups::{kind_among, known_field_among, known_model, reference_to};
use crate::names::Names;
use crate::queries::Seen;
use crate::scope::Scope;
use jac_lang::{App, Field, Group, KindName, ModelDef, Public, Publics};
use jac_value::{Kind, Txt};

pub(crate) fn fields_fault<'a>(app: &App, fields: &'a [Field]) -> Result<(), Cause<'a>>
    ensures { fault_of result ≡ fields_fault (application_of app.now).models [] fields.now }
{
    for i in 0..fields.len() {
        match field_fault(app, &fields[..i], &fields[i]) {
            Ok(()) => {}
            Err(cause) => return Err(cause),
        }
    }
    Ok(())
}

// The fault of a field or a parameter, given those before it.
fn field_fault<'a>(app: &App, earlier: &[Field], field: &'a Field) -> Result<(), Cause<'a>>
    ensures { fault_of result ≡ field_fault (application_of app.now).models earlier.now field.now }
{
    if has_field(earlier, field.name.as_str()) {
        return Err(Cause::TwiceNamed(field.name.as_str()));
    }
    match &field.kind {
        KindName::Ref(model) => known_model(app, model),
        KindName::Int | KindName::Text | KindName::Bool => Ok(()),
    }
}

/// Whether one of the fields has this name.
pub(crate) fn has_field(fields: &[Field], name: &str) -> bool
    ensures { result ≡ has_field name.now fields.now }
{
    for field in fields {
        if field.name.as_bytes() == name.as_bytes() {
            return true;
        }
    }
    false
}

fn has_model(models: &[ModelDef], name: &Txt) -> bool
    ensures { result ≡ has_model name.now (entities_of models.now) }
{
    for model in models {
        if model.name == *name {
            return true;
        }
    }
    false
}

fn is_guarded(groups: &[Group], name: &Txt) -> bool
    ensures { result ≡ is_guarded name.now (groups_of groups.now) }
{
    for group in groups {
        if guards_field(group, name) {
            return true;
        }
    }
    false
}

fn is_hiding(groups: &[Group]) -> bool
    ensures { result ≡ is_hiding (groups_of groups.now) }
{
    for group in groups {
        if group.hides {
            return true;
        }
    }
    false
}

fn guards_field(group: &Group, name: &Txt) -> bool
    ensures { result ≡ guards_field name.now (field_group_of group.now) }
{
    let mut left = &group.guards;
    'guards: while let Publics::More(first, rest) = left {
        if first.field == *name {
            return true;
        }
        left = rest;
    }
    false
}

pub(crate) fn model_fault<'a>(
    app: &App,
    earlier: &[ModelDef],
    model: &'a ModelDef,
) -> Result<(), Cause<'a>>
    ensures { fault_of result ≡ model_fault (application_of app.now) (entities_of earlier.now)
        (entity_of model.now) }
{
    if has_model(earlier, &model.name) {
        return Err(Cause::TwiceNamed(model.name.as_str()));
    }
    fields_fault(app, model.fields.as_slice())?;
    groups_fault(app, model, model.groups.as_slice())
}

fn groups_fault<'a>(app: &App, model: &ModelDef, groups: &'a [Group]) -> Result<(), Cause<'a>>
    ensures { fault_of result ≡ groups_fault (application_of app.now) (entity_of model.now) []
        (groups_of groups.now) }
{
    for i in 0..groups.len() {
        match group_fault(app, model, &groups[..i], &groups[i]) {
            Ok(()) => {}
            Err(cause) => return Err(cause),
        }
    }
    Ok(())
}

fn group_fault<'a>(
    app: &App,
    model: &ModelDef,
    earlier: &[Group],
    group: &'a Group,
) -> Result<(), Cause<'a>>
    ensures { fault_of result ≡ group_fault (application_of app.now) (entity_of model.now)
        (groups_of earlier.now) (field_group_of group.now) }
{
    if group.hides && is_hiding(earlier) {
        return Err(Cause::TwiceNamed("hides"));
    }
    guards_fault(app, model, earlier, &Seen::Nothing, &group.guards)?;
    let scope = Scope {
        app,
        this: Some(reference_to(app, &model.name)),
        names: &Names::Nothing,
        is_public: false,
    };
    let have = judge(&group.policy, &scope)?;
    want(Kind::Bool, have)
}

// A model has at most 32 fields, so the recursion is no deeper.
fn guards_fault<'a>(
    app: &App,
    model: &ModelDef,
    earlier: &[Group],
    seen: &Seen<'_>,
    guards: &'a Publics,
) -> Result<(), Cause<'a>>
    ensures { fault_of result ≡ guards_fault (application_of app.now) (entity_of model.now)
        (groups_of earlier.now) (seen_of seen.now) (assigned_of guards.now) }
{
    let Publics::More(guard, rest) = guards else {
        return Ok(());
    };
    guard_fault(app, model, earlier, seen, guard)?;
    guards_fault(app, model, earlier, &Seen::Name(&guard.field, &*seen), rest)
}

fn guard_fault<'a>(
    app: &App,
    model: &ModelDef,
    earlier: &[Group],
    seen: &Seen<'_>,
    guard: &'a Public,
) -> Result<(), Cause<'a>>
    ensures { fault_of result ≡ guard_fault (application_of app.now) (entity_of model.now)
        (groups_of earlier.now) (seen_of seen.now) (one_assigned_of guard.now) }
{
    known_field_among(model.fields.as_slice(), &guard.field)?;
    if is_guarded(earlier, &guard.field) || seen.has(&guard.field) {
        return Err(Cause::TwiceNamed(guard.field.as_str()));
    }
    let scope = Scope {
        app,
        this: Some(reference_to(app, &model.name)),
        names: &Names::Nothing,
        is_public: true,
    };
    let have = judge(&guard.value, &scope)?;
    want(kind_among(app, model.fields.as_slice(), &guard.field), have)
}
