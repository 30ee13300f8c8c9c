ghost use Rattle.std.specs.Prelude.{◌≡◌, false, slice_get, unwrap_or};
ghost use Rattle.std.specs.Option.{option_copied};

use jac_rows::Shape;
use jac_value::Kind;

/// The kinds of the model's fields. A model beyond the shape has none.
pub fn kinds_of(shape: &Shape, model: u8) -> Option<&[Kind]>
    ensures { option_copied result ≡ slice_get shape.now.kinds model }
{
    match shape.kinds.as_slice().get(usize::from(model)) {
        Some(kinds) => Some(kinds.as_slice()),
        None => None,
    }
}

/// Whether the model's records are nested under records of another model.
pub fn is_nested(shape: &Shape, model: u8) -> bool
    ensures { result ≡ unwrap_or (slice_get shape.now.nested model) false }
{
    match shape.nested.as_slice().get(usize::from(model)) {
        Some(nested) => *nested,
        None => false,
    }
}
