//! The parameters of a request.
ghost use Rattle.std.specs.Prelude.{◌≡◌, ℕ, Bool, ◌∷◌, [], ◌++◌, IfOk, OnOk};
ghost use Rattle.jac_expr.specs.Seen.{env_at};
ghost use Rattle.jac_lang.specs.Mirror.{application_of};
ghost use Rattle.jac_route.specs.Parameters.{parameters};

use jac_expr::Env;
use jac_facet::Facet;
use jac_lang::{App, Binding, View};
use jac_route::{Pairs, bind};
use jac_value::{Memory, Txt, Value};
use std::alloc::Global;

/// The parameters of the view, the same under every assignment. Pairs of the path come before the
/// others.
pub(crate) fn bind_alike(
    alloc: Global,
    app: &App,
    view: &View,
    path: &Pairs,
    pairs: &Pairs,
) -> Result<Env, Memory>
    ensures { IfOk result (λ env. (w : ℕ → Bool) → env_at w env
        ≡ parameters (application_of app.now).models view.now.params (path.now ++ pairs.now)) }
{
    let bindings = bind(alloc, &view.params, app, path, pairs)?.into_vec();
    let env = alike(alloc, bindings.as_slice())?;
    Ok(env)
}

// The bindings, the same under every assignment.
fn alike(alloc: Global, bindings: &[Binding]) -> Result<Env, Memory>
    ensures { IfOk result (λ env. (w : ℕ → Bool) → env_at w env ≡ bindings.now) }
{
    let mut env = Vec::new(alloc);
    'bindings: for binding in bindings {
        add_alike(alloc, &mut env, binding)?;
    }
    Ok(Env::from_vec(env))
}

fn add_alike(
    alloc: Global,
    env: &mut Vec<(Txt, Facet<Value>)>,
    binding: &Binding,
) -> Result<(), Memory>
    ensures { OnOk result ((w : ℕ → Bool)
        → env_at w env.new.items ≡ env_at w env.old.items ++ binding.now ∷ []) }
{
    let name = binding.name.copy(alloc)?;
    let value = binding.bound_to.copy(alloc)?;
    env.push((name, Facet::leaf(value)))?;
    Ok(())
}
