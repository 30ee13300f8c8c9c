ghost use Rattle.std.specs.Prelude.{◌≡◌, ℕ, Bool, true, [], ◌∷◌, IfOk, IfSome};
ghost use Rattle.jac_value.specs.declared.value.Value.{Value as Plain};
ghost use Rattle.jac_world.specs.World.{holds};
ghost use Rattle.jac_facet.specs.Shape.{at};
ghost use Rattle.jac_facet.specs.Leaves.{leaves_seen};
ghost use Rattle.jac_plain.specs.Expressions.{is_true, pick, two};

use jac_facet::Facet;
use jac_lang::Op;
use jac_plain::{decided, is_true};
use jac_value::{Memory, Value};
use jac_world::{Guard, Steps};
use std::alloc::Global;
use std::sync::ledger::Ledger;

/// Whether the condition is true. `None` unless the condition is known to be the same wherever the
/// path condition holds.
pub(crate) fn truth_under(
    alloc: Global,
    pc: &Guard,
    condition: &Facet<Value>,
) -> Result<Option<bool>, Memory>
    ensures { IfOk result (λ o. IfSome o (λ t. (w : ℕ → Bool) → holds w pc.now ≡ true
        → is_true (at w condition.now) ≡ t)) }
{
    let leaves = condition.leaves_under(alloc, pc)?;
    Ok(only_truth(leaves.as_slice()))
}

fn only_truth(leaves: &[(Guard, Value)]) -> Option<bool>
    ensures { IfSome result (λ t. (w : ℕ → Bool) (x : Plain) → leaves_seen w leaves.now ≡ x ∷ []
        → is_true x ≡ t) }
{
    match leaves {
        [leaf] => Some(is_true(&leaf.1)),
        _ => None,
    }
}

/// The value of an `and` or an `or`, if the first operand decides it. `None` unless that operand is
/// known to be the same wherever the path condition holds.
pub(crate) fn decided_under(
    alloc: Global,
    pc: &Guard,
    op: Op,
    first: &Facet<Value>,
) -> Result<Option<Value>, Memory>
    ensures { IfOk result (λ o. IfSome o (λ v. (w : ℕ → Bool) (other : Plain)
        → holds w pc.now ≡ true → two op (at w first.now) other ≡ v)) }
{
    let leaves = first.leaves_under(alloc, pc)?;
    Ok(only_decided(op, leaves.as_slice()))
}

fn only_decided(op: Op, leaves: &[(Guard, Value)]) -> Option<Value>
    ensures { IfSome result (λ v. (w : ℕ → Bool) (x other : Plain)
        → leaves_seen w leaves.now ≡ x ∷ [] → two op x other ≡ v) }
{
    match leaves {
        [leaf] => decided(op, &leaf.1),
        _ => None,
    }
}

// The first facet where the condition is true, and the second elsewhere.
pub(crate) fn choose<L: Ledger>(
    alloc: Global,
    pc: &Guard,
    condition: &Facet<Value>,
    first: &Facet<Value>,
    second: &Facet<Value>,
    splits: &mut Steps<L>,
) -> Result<Facet<Value>, Memory>
    ensures { IfOk result (λ f. (w : ℕ → Bool) → holds w pc.now ≡ true
        → at w f ≡ pick (is_true (at w condition.now)) (at w first.now) (at w second.now)) }
{
    let leaves = condition.leaves_under(alloc, pc)?;
    let all = leaves.as_slice();
    let mut chosen = second.copy(alloc)?;
    'leaves: for leaf in all {
        let side = side_of(&leaf.1, first, second);
        chosen = Facet::under(alloc, &leaf.0, side, &chosen, splits)?;
    }
    Ok(chosen)
}

fn side_of<'f>(
    condition: &Value,
    first: &'f Facet<Value>,
    second: &'f Facet<Value>,
) -> &'f Facet<Value>
    ensures { (w : ℕ → Bool) → at w result.now ≡ pick (is_true condition.now) (at w first.now)
        (at w second.now) }
{
    if is_true(condition) { first } else { second }
}
