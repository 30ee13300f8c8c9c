//! Assigning another value to a name.
ghost use Rattle.std.specs.Prelude.{◌≡◌, ◌<◌, length, IfSome};
ghost use Rattle.jac_plain.specs.Statements.{with_value};
ghost use Rattle.jac_pruned_pages.specs.Places.{last_place};

use jac_lang::Binding;
use jac_value::{Txt, Value};

/// Changes the innermost binding of the name. If there is none, it changes nothing.
pub(crate) fn assign(env: &mut Vec<Binding>, name: &Txt, value: Value)
    ensures { env.new.items ≡ with_value name.now value env.old.items }
{
    let Some(place) = innermost(env.as_slice(), name) else {
        return;
    };
    let binding = &mut env[place];
    binding.bound_to = value;
}

// The place of the innermost binding of the name, which is the last one.
fn innermost(bindings: &[Binding], name: &Txt) -> Option<usize>
    ensures place { result ≡ last_place name.now bindings.now }
    ensures within { IfSome result (λ p. p < length bindings.now) }
{
    let mut rest = bindings;
    'bindings: while let Some((binding, outer)) = rest.split_last() {
        if binding.name == *name {
            return Some(outer.len());
        }
        rest = outer;
    }
    None
}
