//! The alternatives of one record: each excludes the others.
ghost use Rattle.std.specs.Prelude.{◌≡◌, ◌≤◌, ◌++◌, ◌∷◌, [], ℕ, Bool, List, length, take, drop, true, false, IfOk, IfSome, OnOk};
ghost use Rattle.std.specs.List.{AllByRecursion, insert};
ghost use Rattle.jac_world.specs.World.{IsApart};
ghost use Rattle.jac_sqlkeep.specs.Alternatives.{Precedes, EndsBefore, StartsBehind, FitsAt, AreTaken};

use jac_value::Memory;
use jac_world::{Guard, Label};
use std::alloc::Global;

/// The guards of a record's alternatives that were read. As long as each new guard has a place in
/// their order, it is compared only with its neighbours.
#[derive(Drop)]
pub struct Alternatives {
    guards: Vec<Guard>,
    in_order: bool,
}

impl Alternatives {
    pub fn none(alloc: Global) -> Alternatives
        ensures { AreTaken [] result.guards.items result.in_order }
    {
        Alternatives {
            guards: Vec::new(alloc),
            in_order: true,
        }
    }

    pub fn len(&self) -> usize
        ensures { result ≡ length self.now.guards.items }
    {
        self.guards.len()
    }

    /// With one more guard, if it excludes each of the others.
    pub fn with(self, guard: Guard) -> Result<Option<Alternatives>, Memory>
        ensures { IfOk result (λ r. IfSome r (λ next. (all : List (List (ℕ × Bool)))
            → AreTaken all self.guards.items self.in_order
            → AllByRecursion (λ g. IsApart g guard) all
            × AreTaken (all ++ guard ∷ []) next.guards.items next.in_order)) }
    {
        let Alternatives { guards, in_order } = self;
        if in_order {
            let at = place_of(guards.as_slice(), &guard);
            if fits_at(guards.as_slice(), at, &guard) {
                return Ok(Some(placed(guards, at, guard)?));
            }
        }
        if !are_apart(guards.as_slice(), &guard) {
            return Ok(None);
        }
        Ok(Some(pushed(guards, guard)?))
    }
}

fn placed(guards: Vec<Guard>, at: usize, guard: Guard) -> Result<Alternatives, Memory>
    requires { at ≤ length guards.items }
    ensures guards { IfOk result (λ next. next.guards.items ≡ insert guards.items at guard) }
    ensures order { IfOk result (λ next. next.in_order ≡ true) }
{
    let mut guards = guards;
    guards.insert(at, guard)?;
    Ok(Alternatives {
        guards,
        in_order: true,
    })
}

fn pushed(guards: Vec<Guard>, guard: Guard) -> Result<Alternatives, Memory>
    ensures guards { IfOk result (λ next. next.guards.items ≡ guards.items ++ guard ∷ []) }
    ensures order { IfOk result (λ next. next.in_order ≡ false) }
{
    let mut guards = guards;
    guards.push(guard)?;
    Ok(Alternatives {
        guards,
        in_order: false,
    })
}

// The guard's place, if the guards are in order and it has a place there.
fn place_of(guards: &[Guard], guard: &Guard) -> usize
    ensures { result ≤ length guards.now }
{
    let mut low = 0;
    let mut high = guards.len();
    'halves: while low < high {
        let middle = low + (high - low) / 2;
        if precedes(guards[middle].pairs(), guard.pairs()) {
            low = middle + 1;
        } else {
            high = middle;
        }
    }
    low
}

fn fits_at(guards: &[Guard], at: usize, guard: &Guard) -> bool
    requires { at ≤ length guards.now }
    ensures { result ≡ true → FitsAt guards.now at guard.now }
{
    let (front, back) = guards.split_at(at);
    if !ends_before(front, guard) {
        return false;
    }
    starts_behind(back, guard)
}

#[tactic(auto, using(crate::proofs::Ordered::ends_with))]
fn ends_before(guards: &[Guard], guard: &Guard) -> bool
    ensures { result ≡ true → EndsBefore guards.now guard.now }
{
    match guards.split_last() {
        None => true,
        Some((last, _)) => precedes(last.pairs(), guard.pairs()),
    }
}

fn starts_behind(guards: &[Guard], guard: &Guard) -> bool
    ensures { result ≡ true → StartsBehind guards.now guard.now }
{
    match guards.split_first() {
        None => true,
        Some((first, _)) => precedes(guard.pairs(), first.pairs()),
    }
}

// Whether both guards are equal up to a label that the first requires to be shown and the second to
// be hidden.
#[tactic(auto, using(crate::proofs::Ordered::precedes_on, crate::proofs::Ordered::precedes_here))]
fn precedes(first: &[(Label, bool)], second: &[(Label, bool)]) -> bool
    ensures { result ≡ true → Precedes first.now second.now }
{
    let mut left = first;
    let mut right = second;
    'pairs: while let (Some((x, xs)), Some((y, ys))) = (left.split_first(), right.split_first()) {
        if x.0 != y.0 {
            return false;
        }
        if x.1 != y.1 {
            return x.1;
        }
        left = xs;
        right = ys;
    }
    false
}

fn are_apart(guards: &[Guard], guard: &Guard) -> bool
    ensures { result ≡ true → AllByRecursion (λ g. IsApart g guard.now) guards.now }
{
    let mut rest = guards;
    'guards: while let Some((first, more)) = rest.split_first() {
        if !is_apart(first.pairs(), guard.pairs()) {
            return false;
        }
        rest = more;
    }
    true
}

// Whether some label has opposite signs in the two guards.
#[tactic(auto, using(crate::proofs::Ordered::apart_left, crate::proofs::Ordered::apart_right, crate::proofs::Ordered::apart_here))]
fn is_apart(first: &[(Label, bool)], second: &[(Label, bool)]) -> bool
    ensures { result ≡ true → IsApart first.now second.now }
{
    let mut left = first;
    let mut right = second;
    'pairs: while let (Some((x, xs)), Some((y, ys))) = (left.split_first(), right.split_first()) {
        if x.0 < y.0 {
            left = xs;
        } else if y.0 < x.0 {
            right = ys;
        } else if x.1 == y.1 {
            left = xs;
            right = ys;
        } else {
            return true;
        }
    }
    false
}
