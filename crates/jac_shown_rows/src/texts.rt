//! Texts of values.
ghost use Rattle.std.specs.Prelude.{◌≡◌, ◌<◌, ◌++◌, IfOk, IfSome, MatchOption, OnOk};
ghost use Rattle.std.specs.String.{string_bytes};
ghost use Rattle.jac_lang.specs.declared.expressions.Expr.{size-Expr};
ghost use Rattle.jac_lang.specs.declared.expressions.Exprs.{size-Exprs};
ghost use Rattle.jac_lang.specs.Mirror.{expression_of, expressions_of};
ghost use Rattle.jac_lang.specs.Syntax.{Expressions};
ghost use Rattle.jac_value.specs.declared.value.Value.TheVariants.{Text};
ghost use Rattle.jac_value.specs.Values.{value_text};
ghost use Rattle.jac_plain.specs.Expressions.{bytes_of};

use jac_lang::{Expr, Exprs};
use jac_value::{Memory, Txt, Value, text_of};
use std::alloc::Global;

/// The text as a value.
pub fn text_copy(alloc: Global, text: &Txt) -> Result<Value, Memory>
    ensures { IfOk result (λ v. v ≡ Text text.now) }
{
    let text = text.copy(alloc)?;
    Ok(Value::Text(text))
}

/// The text that a page shows of the value.
pub fn spell(alloc: Global, value: &Value) -> Result<Value, Memory>
    ensures { IfOk result (λ v. v ≡ Text (value_text value.now)) }
{
    let text = text_of(alloc, value)?;
    Ok(Value::Text(text))
}

/// The first part and those after it, if there are any.
pub fn split_first(parts: &Exprs) -> Option<(&Expr, &Exprs)>
    ensures cases { MatchOption result (expressions_of parts.now ≡ Expressions.none)
        (λ p. expressions_of parts.now ≡ Expressions.more (expression_of p.0.now)
        (expressions_of p.1.now)) }
    ensures smaller { IfSome result (λ p. (size-Expr p.0.now < size-Exprs parts.now)
        × (size-Exprs p.1.now < size-Exprs parts.now)) }
{
    match parts {
        Exprs::End => None,
        Exprs::More(part, rest) => Some((&**part, &**rest)),
    }
}

/// Appends the text.
pub fn push_text(joined: &mut String, value: &Value) -> Result<(), Memory>
    ensures { OnOk result (string_bytes joined.new ≡ string_bytes joined.old ++ bytes_of
        value.now) }
{
    joined.push_str(str_of(value))?;
    Ok(())
}

fn str_of(value: &Value) -> &str
    ensures { result.now ≡ bytes_of value.now }
{
    match value {
        Value::Text(text) => text.as_str(),
        _ => "",
    }
}
