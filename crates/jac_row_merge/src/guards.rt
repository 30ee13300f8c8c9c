//! Guards that differ only in the sign of one label, and the order of guards.
ghost use Rattle.std.specs.Prelude.{◌≡◌, ◌<◌, ◌+◌, ◌++◌, ℕ, Bool, true, false, length, take, drop, IfSome, IfOk};
ghost use Rattle.std.specs.Option.{is_some};
ghost use Rattle.std.specs.List.{list_all};
ghost use Rattle.jac_row_merge.specs.Merged.{same_pair, turned_pair, same_pairs, differ_once, pair_before, guard_before, IsJoined};

use jac_value::Memory;
use jac_world::{Guard, Label};
use std::alloc::Global;

/// The guard that holds if one of the two does, or `None` unless they differ only in the sign of
/// one label. It is the first guard without this label.
pub fn join_guards(alloc: Global, one: &Guard, other: &Guard) -> Result<Option<Guard>, Memory>
    ensures joined { IfOk result (λ o. IfSome o (λ g. IsJoined one.now other.now g)) }
    ensures fewer { IfOk result (λ o. IfSome o (λ g. (p : (ℕ × Bool) → Bool)
        → list_all p one.now ≡ true → list_all p g ≡ true)) }
    ensures found { IfOk result (λ o. is_some o ≡ differ_once one.now other.now) }
{
    match turned_place(one.pairs(), other.pairs()) {
        Some(place) => {
            let guard = without(alloc, one, other, place)?;
            Ok(Some(guard))
        }
        None => Ok(None),
    }
}

// The first guard without the label at the place.
fn without(alloc: Global, one: &Guard, other: &Guard, place: usize) -> Result<Guard, Memory>
    requires within { place < length one.now }
    requires joined { IsJoined one.now other.now (take place one.now ++ drop (place + 1) one.now) }
    ensures joined { IfOk result (λ g. IsJoined one.now other.now g) }
    ensures fewer { IfOk result (λ g. (p : (ℕ × Bool) → Bool) → list_all p one.now ≡ true
        → list_all p g ≡ true) }
{
    let mut pairs = Vec::from_slice(alloc, one.pairs())?;
    let _ = pairs.remove(place);
    Ok(Guard::from_pairs(pairs))
}

/// Whether the guards differ only in the sign of one label.
pub fn differ_once(one: &[(Label, bool)], other: &[(Label, bool)]) -> bool
    ensures { result ≡ differ_once one.now other.now }
{
    turned_place(one, other).is_some()
}

// The place of the one label with a different sign.
fn turned_place(one: &[(Label, bool)], other: &[(Label, bool)]) -> Option<usize>
    ensures within { IfSome result (λ place. place < length one.now) }
    ensures joined { IfSome result (λ place. IsJoined one.now other.now (take place one.now
        ++ drop (place + 1) one.now)) }
    ensures found { is_some result ≡ differ_once one.now other.now }
{
    let mut place = 0;
    let mut left = one;
    let mut right = other;
    'pairs: while let (Some((x, xs)), Some((y, ys))) = (left.split_first(), right.split_first()) {
        if is_turned(x, y) && are_same(xs, ys) {
            return Some(place);
        }
        if !is_same(x, y) {
            return None;
        }
        place += 1;
        left = xs;
        right = ys;
    }
    None
}

// Whether the labels are the same, and the signs differ.
fn is_turned(one: &(Label, bool), other: &(Label, bool)) -> bool
    ensures { result ≡ turned_pair one.now other.now }
{
    one.0 == other.0 && one.1 != other.1
}

fn is_same(one: &(Label, bool), other: &(Label, bool)) -> bool
    ensures { result ≡ same_pair one.now other.now }
{
    one.0 == other.0 && one.1 == other.1
}

fn are_same(one: &[(Label, bool)], other: &[(Label, bool)]) -> bool
    ensures { result ≡ same_pairs one.now other.now }
{
    let mut left = one;
    let mut right = other;
    'pairs: while let (Some((x, xs)), Some((y, ys))) = (left.split_first(), right.split_first()) {
        if !is_same(x, y) {
            return false;
        }
        left = xs;
        right = ys;
    }
    left.is_empty() && right.is_empty()
}

/// Whether the first guard comes before the second. They are compared as lists: a lesser label
/// comes first, and hidden comes before shown.
pub fn comes_before(one: &[(Label, bool)], other: &[(Label, bool)]) -> bool
    ensures { result ≡ guard_before one.now other.now }
{
    let mut left = one;
    let mut right = other;
    'pairs: while let (Some((x, xs)), Some((y, ys))) = (left.split_first(), right.split_first()) {
        if !is_same(x, y) {
            return pair_before(x, y);
        }
        left = xs;
        right = ys;
    }
    !right.is_empty()
}

fn pair_before(one: &(Label, bool), other: &(Label, bool)) -> bool
    ensures { result ≡ pair_before one.now other.now }
{
    if one.0 == other.0 {
        other.1
    } else {
        one.0 < other.0
    }
}
