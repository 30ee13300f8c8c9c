ghost use Rattle.std.specs.Prelude.{◌≡◌, ◌≢◌, if◌then◌else◌, Some, None};
ghost use Rattle.jac_value.specs.Ids.{is_id_of};
ghost use Rattle.jac_value.specs.Values.{starts_with_plus, value_read, integer_of, int_read, bool_read, ref_read};

use crate::{Id, Kind, Txt, Value, is_id};

/// The value that a parameter's text is read as, or the kind's default if it can't be read. An int
/// is an optional `-` and digits. `1`, `true` and `on` are the bool true. A reference is the digits
/// of an id of its model.
pub fn value_of(kind: &Kind, text: &Txt) -> Value
    requires { kind.now ≢ Kind.Text }
    ensures { result ≡ value_read kind.now text.now }
{
    match kind {
        Kind::Int => Value::Int(read_int(text)),
        Kind::Text => unreachable!(),
        Kind::Bool => Value::Bool(read_bool(text)),
        Kind::Ref(model) => Value::Ref(read_ref(*model, text)),
    }
}

/// The integer that an optional `-` and digits write, if it fits into 64 bits.
pub fn integer_of(text: &Txt) -> Option<i64>
    ensures { result ≡ integer_of text.now }
{
    if has_plus(text) {
        return None;
    }
    match text.as_str().parse::<i64>() {
        Ok(number) => Some(number),
        Err(_) => None,
    }
}

fn read_int(text: &Txt) -> i64
    ensures { result ≡ int_read text.now }
{
    match integer_of(text) {
        Some(number) => number,
        None => 0,
    }
}

fn read_bool(text: &Txt) -> bool
    ensures { result ≡ bool_read text.now }
{
    let word = text.as_str();
    word == "1" || word == "true" || word == "on"
}

fn read_ref(model: u8, text: &Txt) -> Option<Id>
    ensures { result ≡ ref_read model text.now }
{
    if has_plus(text) {
        return None;
    }
    match text.as_str().parse::<u128>() {
        Ok(number) => id_where(number, model),
        Err(_) => None,
    }
}

fn id_where(number: u128, model: u8) -> Option<Id>
    ensures { result ≡ (if is_id_of number model then Some number else None) }
{
    if is_id(number, model) {
        Some(Id(number))
    } else {
        None
    }
}

fn has_plus(text: &Txt) -> bool
    ensures { result ≡ starts_with_plus text.now }
{
    match text.as_bytes() {
        [b'+', ..] => true,
        _ => false,
    }
}
