//! Models and fields by name, and the faults of their names.
ghost use Rattle.std.specs.Prelude.{◌≡◌, ◌<◌, length, IfSome};
ghost use Rattle.jac_lang.specs.Lookup.{kind_named, field_place, fields_at};
ghost use Rattle.jac_lang.specs.Mirror.{application_of, entities_of};
ghost use Rattle.jac_check.specs.Scope.{reference_to, fields_of, field_kind};
ghost use Rattle.jac_check.specs.NameFaults.{unknown_model, unknown_field, unknown_place};
ghost use Rattle.jac_check.specs.Mirror.{fault_of};

use crate::cause::Cause;
use jac_lang::{App, Field, KindName, field_of, kind_of, model_of};
use jac_value::{Kind, Txt};

/// The kind with this name, in which a reference has the number of its model. If no model has the
/// name, that is the number of models.
pub(crate) fn kind_by_name(app: &App, kind: &KindName) -> Kind
    ensures { result ≡ kind_named (application_of app.now).models kind.now }
{
    match kind {
        KindName::Int => Kind::Int,
        KindName::Text => Kind::Text,
        KindName::Bool => Kind::Bool,
        KindName::Ref(model) => reference_to(app, model),
    }
}

pub(crate) fn reference_to(app: &App, model: &Txt) -> Kind
    ensures { result ≡ reference_to (application_of app.now).models model.now }
{
    match model_of(app, model) {
        Some(place) => Kind::Ref(place),
        None => Kind::Ref(count(app)),
    }
}

/// The number of models.
pub(crate) fn count(app: &App) -> u8
    ensures { result ≡ length (application_of app.now).models }
{
    app.models.as_slice().len() as u8
}

pub(crate) fn known_model<'a>(app: &App, model: &'a Txt) -> Result<(), Cause<'a>>
    ensures { fault_of result ≡ unknown_model (application_of app.now).models model.now }
{
    match model_of(app, model) {
        Some(_) => Ok(()),
        None => Err(Cause::UnknownName(model.as_str())),
    }
}

/// Tests that the model and its field are known.
pub(crate) fn known_place<'a>(app: &App, model: &'a Txt, field: &'a Txt) -> Result<(), Cause<'a>>
    ensures { fault_of result ≡ unknown_place (application_of app.now).models model.now field.now }
{
    match model_of(app, model) {
        Some(place) => known_field(app, place, field),
        None => Err(Cause::UnknownName(model.as_str())),
    }
}

pub(crate) fn known_field<'a>(app: &App, model: u8, field: &'a Txt) -> Result<(), Cause<'a>>
    requires { model < length app.now.models }
    ensures { fault_of result ≡ unknown_field (fields_at (application_of app.now).models model)
        field.now }
{
    match field_of(app, model, field) {
        Some(_) => Ok(()),
        None => Err(Cause::UnknownName(field.as_str())),
    }
}

/// Tests that the model has this field. An unknown model has none.
pub(crate) fn known_field_of<'a>(app: &App, model: &Txt, field: &'a Txt) -> Result<(), Cause<'a>>
    ensures { let models = (application_of app.now).models in fault_of result ≡ unknown_field
        (fields_of models model.now) field.now }
{
    match model_of(app, model) {
        Some(place) => known_field(app, place, field),
        None => Err(Cause::UnknownName(field.as_str())),
    }
}

/// The kind of a field of a model, by their names.
pub(crate) fn kind_by_place(app: &App, model: &Txt, field: &Txt) -> Kind
    ensures { let models = (application_of app.now).models
        in result ≡ field_kind models (fields_of models model.now) field.now }
{
    match model_of(app, model) {
        Some(place) => kind_in(app, place, field),
        None => Kind::Int,
    }
}

pub(crate) fn kind_in(app: &App, model: u8, field: &Txt) -> Kind
    requires { model < length app.now.models }
    ensures { let models = (application_of app.now).models
        in result ≡ field_kind models (fields_at models model) field.now }
{
    match field_of(app, model, field) {
        Some(place) => kind_of(app, model, place),
        None => Kind::Int,
    }
}

/// Tests that one of these fields has the name.
pub(crate) fn known_field_among<'a>(fields: &[Field], field: &'a Txt) -> Result<(), Cause<'a>>
    ensures { fault_of result ≡ unknown_field fields.now field.now }
{
    match field_index(fields, field) {
        Some(_) => Ok(()),
        None => Err(Cause::UnknownName(field.as_str())),
    }
}

/// The kind of one of these fields, by its name.
pub(crate) fn kind_among(app: &App, fields: &[Field], field: &Txt) -> Kind
    ensures { result ≡ field_kind (application_of app.now).models fields.now field.now }
{
    match field_index(fields, field) {
        Some(place) => kind_by_name(app, &fields[place].kind),
        None => Kind::Int,
    }
}

fn field_index(fields: &[Field], field: &Txt) -> Option<usize>
    ensures place { result ≡ field_place fields.now field.now }
    ensures within { IfSome result (λ place. place < length fields.now) }
{
    fields.iter().position(|one| one.name == *field)
}
