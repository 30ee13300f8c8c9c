//! The numbers of models, fields and groups.
ghost use Rattle.std.specs.Prelude.{◌≡◌, ◌<◌, ◌≤◌, length, slice_get, Some};
ghost use Rattle.jac_lang.specs.Lookup.{fields_at, groups_at};
ghost use Rattle.jac_lang.specs.Mirror.{application_of, groups_of};

use jac_lang::{App, Field, Group, ModelDef};

/// The number of models of the application.
pub(crate) fn model_count(app: &App) -> u8
    ensures count { result ≡ length app.now.models }
    ensures few { result ≤ 64 }
{
    app.models.as_slice().len() as u8
}

/// The number of fields of the model.
pub(crate) fn field_count(app: &App, model: u8) -> u8
    requires { model < length app.now.models }
    ensures { result ≡ length (fields_at (application_of app.now).models model) }
{
    fields_of(app, model).len() as u8
}

/// The number of groups of the model.
pub(crate) fn group_count(app: &App, model: u8) -> u8
    requires { model < length app.now.models }
    ensures { result ≡ length (groups_at (application_of app.now).models model) }
{
    groups_of_model(app, model).len() as u8
}

fn fields_of(app: &App, model: u8) -> &[Field]
    requires { model < length app.now.models }
    ensures fields { result.now ≡ fields_at (application_of app.now).models model }
    ensures few { length result.now ≤ 32 }
{
    let model = model_at(app.models.as_slice(), model);
    model.fields.as_slice()
}

fn groups_of_model(app: &App, model: u8) -> &[Group]
    requires { model < length app.now.models }
    ensures groups { groups_of result.now ≡ groups_at (application_of app.now).models model }
    ensures few { length result.now ≤ 8 }
{
    let model = model_at(app.models.as_slice(), model);
    model.groups.as_slice()
}

fn model_at(models: &[ModelDef], place: u8) -> &ModelDef
    requires { place < length models.now }
    ensures model { slice_get models.now place ≡ Some result.now }
    ensures few { length result.now.fields ≤ 32 }
{
    &models[usize::from(place)]
}
