//! A field of a model, by numbers.
ghost use Rattle.std.specs.Prelude.{◌≡◌, ◌<◌, Some, length, IfSome};
ghost use Rattle.jac_value.specs.declared.value.Value.{Value as Cell};
ghost use Rattle.jac_lang.specs.Lookup.{fields_at, model_place};
ghost use Rattle.jac_lang.specs.Mirror.{application_of};
ghost use Rattle.jac_plain.specs.World.{World, got, got_of};
ghost use Rattle.jac_shown_rows.specs.Columns.{absent_in, column_got};

use jac_lang::{App, field_of, kind_of, model_of};
use jac_value::{Txt, Value, default_of};
use std::alloc::Global;

/// The number of a model, and that of one of its fields.
#[derive(Clone, Copy)]
pub struct Column<'a> {
    pub app: &'a App,
    pub model: u8,
    pub field: u8,
}

/// The field of this name in the model of this name, if there is one.
pub fn column_named<'a>(app: &'a App, model: &Txt, field: &Txt) -> Option<Column<'a>>
    ensures model { IfSome result (λ c. c.model < length c.app.now.models) }
    ensures field { IfSome result (λ c. c.field < length
        (fields_at (application_of c.app.now).models c.model)) }
    ensures place { IfSome result (λ c. Some c.model
        ≡ model_place (application_of app.now).models model.now) }
    ensures got { (w : World) → w.models ≡ (application_of app.now).models → (v : Cell)
        → column_got w.tables result v ≡ got w model.now field.now v }
{
    match model_of(app, model) {
        Some(place) => column_in(app, place, field),
        None => None,
    }
}

// The same, if the model is at this place.
fn column_in<'a>(app: &'a App, model: u8, field: &Txt) -> Option<Column<'a>>
    requires { model < length app.now.models }
    ensures model { IfSome result (λ c. c.model < length c.app.now.models) }
    ensures field { IfSome result (λ c. c.field < length
        (fields_at (application_of c.app.now).models c.model)) }
    ensures place { IfSome result (λ c. c.model ≡ model) }
    ensures got { (w : World) → w.models ≡ (application_of app.now).models → (v : Cell)
        → column_got w.tables result v ≡ got_of w (Some model) field.now v }
{
    match field_of(app, model, field) {
        Some(field) => Some(Column { app, model, field }),
        None => None,
    }
}

/// The value that is read if there is no cell.
pub fn absent_of(alloc: Global, column: &Column<'_>) -> Value
    requires model { column.now.model < length column.now.app.now.models }
    requires field { column.now.field < length
        (fields_at (application_of column.now.app.now).models column.now.model) }
    ensures { result ≡ absent_in column.now }
{
    default_of(alloc, &kind_of(column.app, column.model, column.field))
}
