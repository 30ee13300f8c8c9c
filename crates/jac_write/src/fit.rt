//! Values that a field can store.
ghost use Rattle.std.specs.Prelude.{◌≡◌};
ghost use Rattle.jac_value.specs.Values.{has_kind};
ghost use Rattle.jac_plain.specs.Records.{fitting};

use jac_value::{Kind, Value, default_of, is_id};
use std::alloc::Global;

/// The value, if it is of the kind. Otherwise the default of the kind.
pub(crate) fn fitted(alloc: Global, kind: &Kind, value: Value) -> Value
    ensures { result ≡ fitting kind.now value }
{
    if fits(kind, &value) {
        return value;
    }
    default_of(alloc, kind)
}

fn fits(kind: &Kind, value: &Value) -> bool
    ensures { result ≡ has_kind kind.now value.now }
{
    match (kind, value) {
        (Kind::Int, Value::Int(_)) => true,
        (Kind::Text, Value::Text(_)) => true,
        (Kind::Bool, Value::Bool(_)) => true,
        (Kind::Ref(_), Value::Ref(None)) => true,
        (Kind::Ref(model), Value::Ref(Some(id))) => is_id(id.0, *model),
        _ => false,
    }
}
