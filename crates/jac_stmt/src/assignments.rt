//! Assignments to names under a path condition.
ghost use Rattle.std.specs.Prelude.{◌≡◌, ◌<◌, ℕ, Bool, if◌then◌else◌, length, IfSome, OnOk};
ghost use Rattle.jac_expr.specs.Seen.{env_at};
ghost use Rattle.jac_facet.specs.Shape.{at};
ghost use Rattle.jac_plain.specs.Statements.{with_value};
ghost use Rattle.jac_world.specs.World.{holds};
ghost use Rattle.jac_stmt.specs.Places.{last_name_place};

use jac_expr::Env;
use jac_facet::Facet;
use jac_value::{Memory, Txt, Value};
use jac_world::{Guard, Steps};
use std::alloc::Global;
use std::mem;
use std::sync::ledger::Ledger;

/// Changes the innermost binding of the name wherever the path condition holds. Does nothing if the
/// name has no binding.
pub(crate) fn assign<L: Ledger>(
    alloc: Global,
    env: &mut Env,
    pc: &Guard,
    name: &Txt,
    value: &Facet<Value>,
    splits: &mut Steps<L>,
) -> Result<(), Memory>
    ensures { OnOk result ((w : ℕ → Bool) → env_at w env.new ≡ (if holds w pc.now
        then with_value name.now (at w value.now) (env_at w env.old) else env_at w env.old)) }
{
    let mut bindings = mem::replace(env, Env::empty(alloc)).into_vec();
    assign_in(alloc, &mut bindings, pc, name, value, splits)?;
    *env = Env::from_vec(bindings);
    Ok(())
}

fn assign_in<L: Ledger>(
    alloc: Global,
    bindings: &mut Vec<(Txt, Facet<Value>)>,
    pc: &Guard,
    name: &Txt,
    value: &Facet<Value>,
    splits: &mut Steps<L>,
) -> Result<(), Memory>
    ensures { OnOk result ((w : ℕ → Bool) → env_at w bindings.new.items ≡ (if holds w pc.now
        then with_value name.now (at w value.now) (env_at w bindings.old.items)
        else env_at w bindings.old.items)) }
{
    let Some(place) = innermost(bindings.as_slice(), name) else {
        return Ok(());
    };
    let binding = &mut bindings[place];
    let changed = Facet::under(alloc, pc, value, &binding.1, splits)?;
    binding.1 = changed;
    Ok(())
}

// The place of the innermost binding of the name, which is the last one.
fn innermost(bindings: &[(Txt, Facet<Value>)], name: &Txt) -> Option<usize>
    ensures place { result ≡ last_name_place name.now bindings.now }
    ensures within { IfSome result (λ p. p < length bindings.now) }
{
    let mut rest = bindings;
    'bindings: while let Some((binding, outer)) = rest.split_last() {
        if binding.0 == *name {
            return Some(outer.len());
        }
        rest = outer;
    }
    None
}
