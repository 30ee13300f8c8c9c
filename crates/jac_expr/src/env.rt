//! The names in scope.
ghost use Rattle.std.specs.Prelude.{◌≡◌, [], ◌∷◌, ◌++◌, take, IfOk, OnOk, OnErr, ℕ, Bool};
ghost use Rattle.std.specs.Option.{option_copied};
ghost use Rattle.jac_facet.specs.Shape.{at};
ghost use Rattle.jac_plain.specs.Expressions.{look};
ghost use Rattle.jac_expr.specs.Seen.{env_at};
ghost use Rattle.jac_expr.specs.Leafed.{shown_or_zero};

use jac_facet::Facet;
use jac_value::{Memory, Txt, Value};
use std::alloc::Global;
use std::marker::Model;

/// The names in scope with their faceted values. The innermost is the last one.
#[derive(Drop)]
pub struct Env {
    bindings: Vec<(Txt, Facet<Value>)>,
}

impl Model for Env {
    ghost use Rattle.std.specs.Prelude.{List, ℕ};
    ghost use Rattle.std.specs.Coded.{codes, coded_list, coded×, coded_ℕ};
    ghost use Rattle.jac_facet.specs.Shape.{Shape, shape_code};
    ghost use Rattle.jac_value.specs.declared.value.Value.{Value as Plain};

    ghost Value = { List (List ℕ × Shape Plain) };

    ghost coded = { coded_list (coded× (coded_list coded_ℕ) (shape_code (Prim.hlevel codes))) };

    ghost view = { λ e. e.bindings.items };
}

impl Env {
    pub fn empty(alloc: Global) -> Env
        ensures { result ≡ [] }
    {
        Env {
            bindings: Vec::new(alloc),
        }
    }

    pub fn from_vec(bindings: Vec<(Txt, Facet<Value>)>) -> Env
        ensures { result ≡ bindings.items }
    {
        Env { bindings }
    }

    pub fn as_slice(&self) -> &[(Txt, Facet<Value>)]
        ensures { result.now ≡ self.now }
    {
        self.bindings.as_slice()
    }

    pub fn into_vec(self) -> Vec<(Txt, Facet<Value>)>
        ensures { result.items ≡ self }
    {
        self.bindings
    }

    pub fn copy(&self, alloc: Global) -> Result<Env, Memory>
        ensures { IfOk result (λ e. e ≡ self.now) }
    {
        let all = self.bindings.as_slice();
        let mut bindings = Vec::new(alloc);
        'bindings: for binding in all {
            let name = binding.0.copy(alloc)?;
            let value = binding.1.copy(alloc)?;
            bindings.push((name, value))?;
        }
        Ok(Env { bindings })
    }

    /// Adds an innermost binding.
    pub fn push(&mut self, name: Txt, value: Facet<Value>) -> Result<(), Memory>
        ensures ok { OnOk result (self.new ≡ self.old ++ (name, value) ∷ []) }
        ensures err { OnErr result (self.new ≡ self.old) }
    {
        self.bindings.push((name, value))?;
        Ok(())
    }

    /// Keeps only the outermost bindings, this many.
    pub fn cut(&mut self, to: usize)
        ensures { self.new ≡ take to self.old }
    {
        self.bindings.truncate(to);
    }
}

// The value of the innermost binding of the name. If there is none, 0.
pub(crate) fn look_up(alloc: Global, env: &Env, name: &Txt) -> Result<Facet<Value>, Memory>
    ensures { IfOk result (λ f. (w : ℕ → Bool) → at w f ≡ look (env_at w env.now) name.now) }
{
    match innermost(env.as_slice(), name) {
        Some(value) => Ok(value.copy(alloc)?),
        None => Ok(Facet::leaf(Value::Int(0))),
    }
}

// The value of the innermost binding of the name, if there is one.
pub(crate) fn innermost<'e>(
    bindings: &'e [(Txt, Facet<Value>)],
    name: &Txt,
) -> Option<&'e Facet<Value>>
    ensures { (w : ℕ → Bool) → shown_or_zero w (option_copied result) ≡ look (env_at w bindings.now)
        name.now }
{
    let mut rest = bindings;
    'bindings: while let Some((binding, outer)) = rest.split_last() {
        if binding.0 == *name {
            return Some(&binding.1);
        }
        rest = outer;
    }
    None
}
