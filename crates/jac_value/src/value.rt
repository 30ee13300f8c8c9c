ghost use Rattle.std.specs.Prelude.{◌≡◌, ◌≢◌, IfOk};
ghost use Rattle.jac_value.specs.Values.{default_value, value_text};

use crate::{Id, List, Memory, TryClone, Txt};
use std::alloc::Global;

/// The kind of a field or a parameter. `Ref` has the place of the model in the application.
#[derive(Clone, Copy, Debug, PartialEq, Eq)]
pub enum Kind {
    Int,
    Text,
    Bool,
    Ref(u8),
}

/// The kinds of a model's fields, in the order of the program's text.
pub type Kinds = List<Kind>;

impl TryClone for Kind {
    fn try_clone(&self, _: Global) -> Result<Kind, Memory> {
        Ok(*self)
    }
}

/// A value of a field or a parameter. Ints are ordered by number and texts by bytes. False comes
/// before true, and the empty reference before every id.
#[derive(Debug, Drop, PartialEq, Eq, PartialOrd, Ord)]
pub enum Value {
    Int(i64),
    Text(Txt),
    Bool(bool),
    Ref(Option<Id>),
}

impl Value {
    pub fn copy(&self, alloc: Global) -> Result<Value, Memory>
        ensures { IfOk result (λ v. v ≡ self.now) }
    {
        match self {
            Value::Int(number) => Ok(Value::Int(*number)),
            Value::Text(text) => {
                let text = text.copy(alloc)?;
                Ok(Value::Text(text))
            }
            Value::Bool(truth) => Ok(Value::Bool(*truth)),
            Value::Ref(id) => Ok(Value::Ref(*id)),
        }
    }
}

impl TryClone for Value {
    fn try_clone(&self, alloc: Global) -> Result<Value, Memory> {
        let copy = self.copy(alloc)?;
        Ok(copy)
    }
}

/// The default of the kind: 0, the empty text, false or the empty reference.
pub fn default_of(alloc: Global, kind: &Kind) -> Value
    ensures { result ≡ default_value kind.now }
{
    match kind {
        Kind::Int => Value::Int(0),
        Kind::Text => Value::Text(Txt::empty(alloc)),
        Kind::Bool => Value::Bool(false),
        Kind::Ref(_) => Value::Ref(None),
    }
}

/// The value as a page shows it: the decimal number, the text itself, `true` or `false`, the
/// decimal id, or nothing for an empty reference.
pub fn text_of(alloc: Global, value: &Value) -> Result<Txt, Memory>
    ensures { IfOk result (λ t. t ≡ value_text value.now) }
{
    match value {
        Value::Int(number) => {
            let digits = format!(in alloc; "{number}")?;
            Ok(Txt::from_string(digits))
        }
        Value::Text(text) => {
            let text = text.copy(alloc)?;
            Ok(text)
        }
        Value::Bool(true) => {
            let word = Txt::from_str(alloc, "true")?;
            Ok(word)
        }
        Value::Bool(false) => {
            let word = Txt::from_str(alloc, "false")?;
            Ok(word)
        }
        Value::Ref(None) => Ok(Txt::empty(alloc)),
        Value::Ref(Some(id)) => {
            let number = id.0;
            let decimal = format!(in alloc; "{number}")?;
            Ok(Txt::from_string(decimal))
        }
    }
}
