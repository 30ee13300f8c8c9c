ghost use Rattle.std.specs.Prelude.{◌≡◌, ◌<◌, ◌≤◌, length, position, slice_get, unwrap_or, IfSome, Some};
ghost use Rattle.jac_lang.specs.Lookup.{same_text, model_place, field_place, fields_at, groups_at, kind_named, kind_at, names_field, group_place, group_in, hiding_place, is_nested_at, is_nested_named};
ghost use Rattle.jac_lang.specs.Mirror.{application_of, entities_of, groups_of, assigned_of};

use crate::{App, Field, Group, KindName, ModelDef, Models, Publics};
use jac_value::{Kind, Txt};

/// The number of the model of this name.
pub fn model_of(app: &App, name: &Txt) -> Option<u8>
    ensures place { result ≡ model_place (application_of app.now).models name.now }
    ensures within { IfSome result (λ m. m < length app.now.models) }
{
    place_of(&app.models, name)
}

/// The number of the field of this name in the model.
pub fn field_of(app: &App, model: u8, name: &Txt) -> Option<u8>
    requires { model < length app.now.models }
    ensures place { result ≡ field_place (fields_at (application_of app.now).models model)
        name.now }
    ensures within { IfSome result (λ f. f < length (fields_at (application_of app.now).models
        model)) }
{
    let fields = fields_of(&app.models, model);
    match field_index(fields, name) {
        Some(place) => Some(place as u8),
        None => None,
    }
}

/// The kind of a field, in which a reference has the number of its model. If no model has the name,
/// that is the number of models.
pub fn kind_of(app: &App, model: u8, field: u8) -> Kind
    requires model { model < length app.now.models }
    requires field { field < length (fields_at (application_of app.now).models model) }
    ensures { let models = (application_of app.now).models
        in result ≡ kind_at models (fields_at models model) field }
{
    let field = field_at(&app.models, model, field);
    kind_by_name(&app.models, &field.kind)
}

/// The number of the group of the model that guards the field.
pub fn group_of(app: &App, model: u8, field: u8) -> Option<u8>
    requires model { model < length app.now.models }
    requires field { field < length (fields_at (application_of app.now).models model) }
    ensures { let models = (application_of app.now).models
        in result ≡ group_in (groups_at models model) (fields_at models model) field }
{
    let field = field_at(&app.models, model, field);
    group_for_name(&app.models, model, &field.name)
}

/// Whether the model of this name is nested. It is false if no model has the name.
pub fn is_nested(app: &App, name: &Txt) -> bool
    ensures { result ≡ is_nested_named (application_of app.now).models name.now }
{
    match place_of(&app.models, name) {
        Some(model) => is_nested_at(&app.models, model),
        None => false,
    }
}

/// The number of the model's first group that hides its records, if there is one.
pub fn hiding_group(app: &App, model: u8) -> Option<u8>
    requires { model < length app.now.models }
    ensures { result ≡ hiding_place (groups_at (application_of app.now).models model) }
{
    let groups = groups_of_model(&app.models, model);
    match hiding_index(groups) {
        Some(place) => Some(place as u8),
        None => None,
    }
}

#[tactic(auto, using(crate::proofs::Places::nested_there))]
fn is_nested_at(models: &Models, model: u8) -> bool
    requires { model < length models.now }
    ensures { result ≡ is_nested_at (entities_of models.now) model }
{
    let model = model_at(models.as_slice(), model);
    model.nested
}

fn hiding_index(groups: &[Group]) -> Option<usize>
    ensures place { result ≡ position (λ g. g.hides) groups.now }
    ensures within { IfSome result (λ p. p < length groups.now) }
{
    groups.iter().position(|group| group.hides)
}

fn group_for_name(models: &Models, model: u8, name: &Txt) -> Option<u8>
    requires { model < length models.now }
    ensures { result ≡ group_place (groups_at (entities_of models.now) model) name.now }
{
    let groups = groups_of_model(models, model);
    match group_index(groups, name) {
        Some(place) => Some(place as u8),
        None => None,
    }
}

fn field_at(models: &Models, model: u8, field: u8) -> &Field
    requires model { model < length models.now }
    requires field { field < length (fields_at (entities_of models.now) model) }
    ensures { slice_get (fields_at (entities_of models.now) model) field ≡ Some result.now }
{
    let fields = fields_of(models, model);
    &fields[usize::from(field)]
}

fn fields_of(models: &Models, model: u8) -> &[Field]
    requires { model < length models.now }
    ensures fields { result.now ≡ fields_at (entities_of models.now) model }
    ensures few { length result.now ≤ 32 }
{
    let model = model_at(models.as_slice(), model);
    model.fields.as_slice()
}

fn groups_of_model(models: &Models, model: u8) -> &[Group]
    requires { model < length models.now }
    ensures groups { groups_of result.now ≡ groups_at (entities_of models.now) model }
    ensures few { length result.now ≤ 8 }
{
    let model = model_at(models.as_slice(), model);
    model.groups.as_slice()
}

fn model_at(models: &[ModelDef], place: u8) -> &ModelDef
    requires { place < length models.now }
    ensures model { slice_get models.now place ≡ Some result.now }
    ensures few { length result.now.fields ≤ 32 }
{
    &models[usize::from(place)]
}

fn place_of(models: &Models, name: &Txt) -> Option<u8>
    ensures place { result ≡ model_place (entities_of models.now) name.now }
    ensures within { IfSome result (λ p. p < length models.now) }
{
    let models = models.as_slice();
    match model_index(models, name) {
        Some(place) => Some(place as u8),
        None => None,
    }
}

fn kind_by_name(models: &Models, kind: &KindName) -> Kind
    ensures { result ≡ kind_named (entities_of models.now) kind.now }
{
    match kind {
        KindName::Int => Kind::Int,
        KindName::Text => Kind::Text,
        KindName::Bool => Kind::Bool,
        KindName::Ref(name) => Kind::Ref(place_or_count(models, name)),
    }
}

fn place_or_count(models: &Models, name: &Txt) -> u8
    ensures { result ≡ unwrap_or (model_place (entities_of models.now) name.now)
        (length (entities_of models.now)) }
{
    match place_of(models, name) {
        Some(place) => place,
        None => models.as_slice().len() as u8,
    }
}

fn model_index(models: &[ModelDef], name: &Txt) -> Option<usize>
    ensures place { result ≡ position (λ m. same_text m.name name.now) models.now }
    ensures within { IfSome result (λ p. p < length models.now) }
{
    models.iter().position(|model| model.name == *name)
}

fn field_index(fields: &[Field], name: &Txt) -> Option<usize>
    ensures place { result ≡ field_place fields.now name.now }
    ensures within { IfSome result (λ p. p < length fields.now) }
{
    fields.iter().position(|field| field.name == *name)
}

fn group_index(groups: &[Group], name: &Txt) -> Option<usize>
    ensures place { result ≡ position (λ g. names_field name.now (assigned_of g.guards))
        groups.now }
    ensures within { IfSome result (λ p. p < length groups.now) }
{
    groups.iter().position(|group| guards(&group.guards, name))
}

fn guards(publics: &Publics, name: &Txt) -> bool
    ensures { result ≡ names_field name.now (assigned_of publics.now) }
{
    let mut left = publics;
    'guards: while let Publics::More(first, rest) = left {
        if first.field == *name {
            return true;
        }
        left = rest;
    }
    false
}
