//! Alterations in the order of their ids.
ghost use Rattle.std.specs.Prelude.{◌≡◌, ℕ, true, IfOk};
ghost use Rattle.std.specs.List.{AllByRecursion, Contains};
ghost use Rattle.std.specs.List.Sorted.{IsPermutation};
ghost use Rattle.jac_keep.specs.Alterations.{AreApart};
ghost use Rattle.jac_upgrade.specs.Steps.{IsOwnAlteration, is_changed};

use jac_keep::{Alteration, Alterations};
use jac_value::Memory;
use std::alloc::Global;

/// The alterations by rising id. If a record has two, only one of them is kept.
pub(crate) fn in_order(alloc: Global, made: Vec<Alteration>) -> Result<Alterations, Memory>
    requires { AllByRecursion IsOwnAlteration made.items }
    ensures apart { IfOk result AreApart }
    ensures within { IfOk result (λ c. AllByRecursion (Contains made.items) c) }
    ensures named { IfOk result (λ c. (id : ℕ) → is_changed id made.items ≡ true
        → is_changed id c ≡ true) }
{
    let sorted = sorted_by_id(made)?;
    let changed = put_all(alloc, sorted)?;
    Ok(changed)
}

fn sorted_by_id(made: Vec<Alteration>) -> Result<Vec<Alteration>, Memory>
    ensures { IfOk result (λ v. IsPermutation made.items v.items) }
{
    let mut sorted = made;
    sorted.sort_by_key(|alteration| alteration.id)?;
    Ok(sorted)
}

// Puts all alterations into their order. Those that come in rising order are added at the end.
fn put_all(alloc: Global, made: Vec<Alteration>) -> Result<Alterations, Memory>
    requires { AllByRecursion IsOwnAlteration made.items }
    ensures apart { IfOk result AreApart }
    ensures within { IfOk result (λ c. AllByRecursion (Contains made.items) c) }
    ensures named { IfOk result (λ c. (id : ℕ) → is_changed id made.items ≡ true
        → is_changed id c ≡ true) }
{
    let mut changed = Alterations::empty(alloc);
    'made: for alteration in made {
        let Alteration { id, rows } = alteration;
        changed.put(id, rows)?;
    }
    let _ = changed.as_slice();
    Ok(changed)
}
