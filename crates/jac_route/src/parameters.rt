ghost use Rattle.std.specs.Prelude.{◌≡◌, ◌++◌, length, unwrap_or, IfOk};
ghost use Rattle.std.specs.Option.{option_copied};
ghost use Rattle.jac_value.specs.Values.{value_read};
ghost use Rattle.jac_lang.specs.Lookup.{kind_named, model_place};
ghost use Rattle.jac_lang.specs.Mirror.{application_of, entities_of};
ghost use Rattle.jac_route.specs.Pairs.{value_of_name};
ghost use Rattle.jac_route.specs.Parameters.{parameter, parameters, parameter_read, viewer_of};

use crate::Pairs;
use crate::pairs::find_value;
use jac_lang::{App, Binding, Field, Fields, KindName, Models, PlainEnv, model_of};
use jac_value::{Id, Kind, Memory, Txt, Value, default_of, is_id, value_of};
use std::alloc::Global;

/// Binds each parameter of a view to the value of the first pair with its name, in the path's pairs
/// and then in the others. A value that is missing or can't be read is the default of the kind.
pub fn bind(
    alloc: Global,
    params: &Fields,
    app: &App,
    path: &Pairs,
    rest: &Pairs,
) -> Result<PlainEnv, Memory>
    ensures { IfOk result (λ env. env ≡ parameters (application_of app.now).models params.now
        (path.now ++ rest.now)) }
{
    let fields = params.as_slice();
    let mut bindings = Vec::new(alloc);
    'fields: for field in fields {
        let binding = bind_one(alloc, field, app, path, rest)?;
        bindings.push(binding)?;
    }
    Ok(PlainEnv::from_vec(bindings))
}

fn bind_one(
    alloc: Global,
    field: &Field,
    app: &App,
    path: &Pairs,
    rest: &Pairs,
) -> Result<Binding, Memory>
    ensures { IfOk result (λ b. b ≡ parameter (application_of app.now).models (path.now ++ rest.now)
        field.now) }
{
    let kind = kind_by_name(app, &field.kind);
    let text = value_in(path, rest, &field.name);
    let bound_to = read_parameter(alloc, &kind, text)?;
    let name = field.name.copy(alloc)?;
    Ok(Binding { name, bound_to })
}

// The value of the first pair with this name, in the first list and then in the second.
#[tactic(auto, using(crate::proofs::PairLaws::value_in_both))]
fn value_in<'p>(path: &'p Pairs, rest: &'p Pairs, name: &Txt) -> Option<&'p Txt>
    ensures { option_copied result ≡ value_of_name name.now (path.now ++ rest.now) }
{
    match find_value(path.as_slice(), name) {
        Some(value) => Some(value),
        None => find_value(rest.as_slice(), name),
    }
}

fn read_parameter(alloc: Global, kind: &Kind, text: Option<&Txt>) -> Result<Value, Memory>
    ensures { IfOk result (λ v. v ≡ parameter_read kind.now (option_copied text.entry)) }
{
    match text {
        None => Ok(default_of(alloc, kind)),
        Some(text) => {
            let value = read_text(alloc, kind, text)?;
            Ok(value)
        }
    }
}

fn read_text(alloc: Global, kind: &Kind, text: &Txt) -> Result<Value, Memory>
    ensures { IfOk result (λ v. v ≡ value_read kind.now text.now) }
{
    match kind {
        Kind::Text => {
            let text = text.copy(alloc)?;
            Ok(Value::Text(text))
        }
        Kind::Int | Kind::Bool | Kind::Ref(_) => Ok(value_of(kind, text)),
    }
}

/// The kind with this name. A reference has the number of its model, or the number of models if
/// there is no such model.
pub fn kind_by_name(app: &App, kind: &KindName) -> Kind
    ensures { result ≡ kind_named (application_of app.now).models kind.now }
{
    match kind {
        KindName::Int => Kind::Int,
        KindName::Text => Kind::Text,
        KindName::Bool => Kind::Bool,
        KindName::Ref(name) => Kind::Ref(place_or_count(app, name)),
    }
}

fn place_or_count(app: &App, name: &Txt) -> u8
    ensures { result ≡ unwrap_or (model_place (application_of app.now).models name.now)
        (length (application_of app.now).models) }
{
    match model_of(app, name) {
        Some(place) => place,
        None => count(&app.models),
    }
}

fn count(models: &Models) -> u8
    ensures { result ≡ length (entities_of models.now) }
{
    models.as_slice().len() as u8
}

/// The record of the viewer, or none if the number is no id of the viewer's model.
pub fn viewer_id(number: u128, app: &App) -> Option<Id>
    ensures { result ≡ viewer_of (application_of app.now) number }
{
    match &app.viewer {
        None => None,
        Some(name) => match model_of(app, name) {
            Some(model) => if is_id(number, model) {
                Some(Id(number))
            } else {
                None
            },
            None => None,
        },
    }
}
