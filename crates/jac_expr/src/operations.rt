//! Operations on faceted values. Under each assignment, the operation is applied to the values
//! there.
ghost use Rattle.std.specs.Prelude.{◌≡◌, ℕ, Bool, not, IfOk, ◌++◌, map};
ghost use Rattle.jac_value.specs.declared.value.Value.TheVariants.{Bool as Truth, Text};
ghost use Rattle.jac_facet.specs.Shape.{at};
ghost use Rattle.jac_plain.specs.Expressions.{is_true, two, bytes_of};
ghost use Rattle.jac_value.specs.Values.{value_text};
ghost use Rattle.jac_expr.specs.Tupled.{all_at, truths};

use jac_facet::{Facet, Facets};
use jac_lang::Op;
use jac_plain::{is_true, two_values};
use jac_value::{Memory, Txt, Value, text_of};
use jac_world::Steps;
use std::alloc::Global;
use std::sync::ledger::Ledger;

pub(crate) fn combine_two<L: Ledger>(
    alloc: Global,
    op: Op,
    first: &Facet<Value>,
    second: &Facet<Value>,
    splits: &mut Steps<L>,
) -> Result<Facet<Value>, Memory>
    ensures { IfOk result (λ f. (w : ℕ → Bool) → at w f ≡ two op (at w first.now)
        (at w second.now)) }
{
    Ok(first.combine(alloc, second, |x, y| Ok(two_values(op, x, y)), splits)?)
}

pub(crate) fn negate<L: Ledger>(
    alloc: Global,
    facet: &Facet<Value>,
    splits: &mut Steps<L>,
) -> Result<Facet<Value>, Memory>
    ensures { IfOk result (λ f. (w : ℕ → Bool) → at w f ≡ Truth (not (is_true (at w facet.now)))) }
{
    Ok(facet.map(alloc, |value| Ok(Value::Bool(!is_true(value))), splits)?)
}

pub(crate) fn text_leaf(alloc: Global, text: &Txt) -> Result<Facet<Value>, Memory>
    ensures { IfOk result (λ f. (w : ℕ → Bool) → at w f ≡ Text text.now) }
{
    let text = text.copy(alloc)?;
    Ok(Facet::leaf(Value::Text(text)))
}

// The text of the value, as a page shows it.
pub(crate) fn spell<L: Ledger>(
    alloc: Global,
    facet: &Facet<Value>,
    splits: &mut Steps<L>,
) -> Result<Facet<Value>, Memory>
    ensures { IfOk result (λ f. (w : ℕ → Bool) → at w f ≡ Text (value_text (at w facet.now))) }
{
    Ok(facet.map(alloc, |value| text_value(alloc, value), splits)?)
}

// The two texts, joined.
pub(crate) fn join<L: Ledger>(
    alloc: Global,
    first: &Facet<Value>,
    second: &Facet<Value>,
    splits: &mut Steps<L>,
) -> Result<Facet<Value>, Memory>
    ensures { IfOk result (λ f. (w : ℕ → Bool)
        → at w f ≡ Text (bytes_of (at w first.now) ++ bytes_of (at w second.now))) }
{
    Ok(first.combine(alloc, second, |x, y| join_values(alloc, x, y), splits)?)
}

fn text_value(alloc: Global, value: &Value) -> Result<Value, Memory>
    ensures { IfOk result (λ v. v ≡ Text (value_text value.now)) }
{
    let text = text_of(alloc, value)?;
    Ok(Value::Text(text))
}

fn join_values(alloc: Global, first: &Value, second: &Value) -> Result<Value, Memory>
    ensures { IfOk result (λ v. v ≡ Text (bytes_of first.now ++ bytes_of second.now)) }
{
    let mut joined = String::from_str(alloc, str_of(first))?;
    joined.push_str(str_of(second))?;
    Ok(Value::Text(Txt::from_string(joined)))
}

fn str_of(value: &Value) -> &str
    ensures { result.now ≡ bytes_of value.now }
{
    match value {
        Value::Text(text) => text.as_str(),
        _ => "",
    }
}

/// Whether each value is true.
pub(crate) fn marks_of<L: Ledger>(
    alloc: Global,
    values: &[Facet<Value>],
    splits: &mut Steps<L>,
) -> Result<Facets<bool>, Memory>
    ensures { IfOk result (λ ms. (w : ℕ → Bool) → all_at w ms ≡ truths (all_at w values.now)) }
{
    let mut marks = Vec::new(alloc);
    'values: for value in values {
        let mark = mark_of(alloc, value, splits)?;
        marks.push(mark)?;
    }
    Ok(Facets::from_vec(marks))
}

fn mark_of<L: Ledger>(
    alloc: Global,
    value: &Facet<Value>,
    splits: &mut Steps<L>,
) -> Result<Facet<bool>, Memory>
    ensures { IfOk result (λ m. (w : ℕ → Bool) → at w m ≡ is_true (at w value.now)) }
{
    Ok(value.map(alloc, |value| Ok(is_true(value)), splits)?)
}
