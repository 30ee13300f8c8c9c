ghost use Rattle.std.specs.Prelude.{◌≡◌, IfOk, IfSome};
ghost use Rattle.std.specs.Option.{option_copied};
ghost use Rattle.jac_value.specs.Values.{value_text};
ghost use Rattle.jac_lang.specs.Mirror.{expression_of};
ghost use Rattle.jac_plain.specs.Expressions.{look, mean};
ghost use Rattle.jac_plain.specs.World.{World};
ghost use Rattle.jac_shown_rows.specs.BoundNames.{bound_or_zero};

use jac_lang::{Binding, Expr};
use jac_value::{Memory, Txt, Value};
use std::alloc::Global;

/// What the name is bound to, or 0.
pub fn look_up(alloc: Global, env: &[Binding], name: &Txt) -> Result<Value, Memory>
    ensures { IfOk result (λ v. v ≡ look env.now name.now) }
{
    match innermost(env, name) {
        Some(value) => {
            let value = value.copy(alloc)?;
            Ok(value)
        }
        None => Ok(Value::Int(0)),
    }
}

/// The value of the name, lent, if the expression is a bound name.
pub fn bound_value<'e>(env: &'e [Binding], e: &Expr) -> Option<&'e Value>
    ensures { IfSome result (λ v. (w : World)
        → v.now ≡ mean w (expression_of e.now) env.now) }
{
    match e {
        Expr::Name(name) => value_bound(env, name),
        _ => None,
    }
}

fn value_bound<'e>(env: &'e [Binding], name: &Txt) -> Option<&'e Value>
    ensures { IfSome result (λ v. v.now ≡ look env.now name.now) }
{
    match innermost(env, name) {
        Some(value) => Some(value),
        None => None,
    }
}

/// The text of an expression that is a text, or a name bound to one.
pub fn text_at_hand<'e>(env: &'e [Binding], e: &'e Expr) -> Option<&'e [u8]>
    ensures { IfSome result (λ t. (w : World)
        → t.now ≡ value_text (mean w (expression_of e.now) env.now)) }
{
    match e {
        Expr::Text(text) => Some(text.as_bytes()),
        Expr::Name(name) => text_bound(env, name),
        _ => None,
    }
}

fn text_bound<'e>(env: &'e [Binding], name: &Txt) -> Option<&'e [u8]>
    ensures { IfSome result (λ t. t.now ≡ value_text (look env.now name.now)) }
{
    match innermost(env, name) {
        Some(value) => text_in(value),
        None => None,
    }
}

fn text_in(value: &Value) -> Option<&[u8]>
    ensures { IfSome result (λ t. t.now ≡ value_text value.now) }
{
    match value {
        Value::Text(text) => Some(text.as_bytes()),
        _ => None,
    }
}

fn innermost<'e>(env: &'e [Binding], name: &Txt) -> Option<&'e Value>
    ensures { bound_or_zero (option_copied result) ≡ look env.now name.now }
{
    let mut rest = env;
    'bindings: while let Some((binding, outer)) = rest.split_last() {
        if binding.name == *name {
            return Some(&binding.bound_to);
        }
        rest = outer;
    }
    None
}
