//! The groups of a model: which one guards a field, which one hides records, and the public
//! expressions.
ghost use Rattle.std.specs.Prelude.{◌≡◌, ◌<◌, ◌≤◌, length, option_copied, option_map, slice_get, IfSome, Some};
ghost use Rattle.jac_lang.specs.Lookup.{fields_at, group_in, groups_at, hiding_place};
ghost use Rattle.jac_lang.specs.Mirror.{application_of, assigned_of, expression_of, groups_of};
ghost use Rattle.jac_plain.specs.Records.{expression_for, guards_in, name_in, public_expression};

use jac_lang::{App, Expr, Field, Group, ModelDef, Publics, group_of, hiding_group};
use jac_value::Txt;

/// The public expression of a field, if a group guards it.
pub(crate) fn expression_of_field(app: &App, model: u8, field: u8) -> Option<&Expr>
    requires model { model < length app.now.models }
    requires field { field < length (fields_at (application_of app.now).models model) }
    ensures { option_map (λ e. expression_of e.now) result ≡ public_expression
        (application_of app.now).models model field }
{
    match group_of(app, model, field) {
        Some(place) => expression_in(app, model, place, field),
        None => None,
    }
}

fn expression_in(app: &App, model: u8, place: u8, field: u8) -> Option<&Expr>
    requires model { model < length app.now.models }
    requires field { field < length (fields_at (application_of app.now).models model) }
    ensures { let models = (application_of app.now).models in option_map (λ e. expression_of e.now)
        result ≡ expression_for (name_in (slice_get (fields_at models model) field))
        (guards_in (slice_get (groups_at models model) place)) }
{
    let field = field_at(fields_of(app, model), field);
    expression_at(groups_of_model(app, model), place, &field.name)
}

/// The number of fields of the model.
pub(crate) fn field_count(app: &App, model: u8) -> u8
    requires { model < length app.now.models }
    ensures { result ≡ length (fields_at (application_of app.now).models model) }
{
    fields_of(app, model).len() as u8
}

/// The place of the group of the model that guards the field. It is less than 8.
pub(crate) fn guarding_group(app: &App, model: u8, field: u8) -> Option<u8>
    requires model { model < length app.now.models }
    requires field { field < length (fields_at (application_of app.now).models model) }
    ensures group { let models = (application_of app.now).models
        in result ≡ group_in (groups_at models model) (fields_at models model) field }
    ensures few { IfSome result (λ g. g < 8) }
{
    // The contract of the list of groups says how many there can be.
    let _ = groups_of_model(app, model);
    group_of(app, model, field)
}

/// The place of the group that hides the records of the model. It is less than 8.
pub(crate) fn group_that_hides(app: &App, model: u8) -> Option<u8>
    requires { model < length app.now.models }
    ensures group { result ≡ hiding_place (groups_at (application_of app.now).models model) }
    ensures few { IfSome result (λ g. g < 8) }
{
    // The contract of the list of groups says how many there can be.
    let _ = groups_of_model(app, model);
    hiding_group(app, model)
}

fn fields_of(app: &App, model: u8) -> &[Field]
    requires { model < length app.now.models }
    ensures fields { result.now ≡ fields_at (application_of app.now).models model }
    ensures few { length result.now ≤ 32 }
{
    let model = model_at(app.models.as_slice(), model);
    model.fields.as_slice()
}

fn groups_of_model(app: &App, model: u8) -> &[Group]
    requires { model < length app.now.models }
    ensures groups { groups_of result.now ≡ groups_at (application_of app.now).models model }
    ensures few { length result.now ≤ 8 }
{
    let model = model_at(app.models.as_slice(), model);
    model.groups.as_slice()
}

fn model_at(models: &[ModelDef], place: u8) -> &ModelDef
    requires { place < length models.now }
    ensures model { slice_get models.now place ≡ Some result.now }
    ensures few { length result.now.fields ≤ 32 }
{
    &models[usize::from(place)]
}

fn field_at(fields: &[Field], place: u8) -> &Field
    requires { place < length fields.now }
    ensures { slice_get fields.now place ≡ Some result.now }
{
    &fields[usize::from(place)]
}

fn expression_at<'g>(groups: &'g [Group], place: u8, name: &Txt) -> Option<&'g Expr>
    ensures { option_map (λ e. expression_of e.now) result ≡ expression_for name.now
        (guards_in (slice_get (groups_of groups.now) place)) }
{
    match group_at(groups, place) {
        Some(group) => expression_named(&group.guards, name),
        None => None,
    }
}

fn group_at(groups: &[Group], place: u8) -> Option<&Group>
    ensures { option_copied result ≡ slice_get groups.now place }
{
    match groups.get(usize::from(place)) {
        Some(group) => Some(group),
        None => None,
    }
}

fn expression_named<'p>(guards: &'p Publics, name: &Txt) -> Option<&'p Expr>
    ensures { option_map (λ e. expression_of e.now) result ≡ expression_for name.now
        (assigned_of guards.now) }
{
    let mut left = guards;
    'guards: while let Publics::More(first, rest) = left {
        if first.field == *name {
            return Some(&first.value);
        }
        left = rest;
    }
    None
}
