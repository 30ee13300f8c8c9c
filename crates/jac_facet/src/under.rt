ghost use Rattle.std.specs.Prelude.{◌≡◌, ◌≢◌, ℕ, ◌+◌, ◌<◌, ◌≤◌, Bool, true, false, if◌then◌else◌, Some, None, IfOk};
ghost use mathlib.Core.Bool.{beq};
ghost use Rattle.jac_world.specs.World.{holds, has_pair, IsRising, StartsAbove};
ghost use Rattle.jac_facet.specs.Shape.{at, top, splits_in, Above, has_label};
ghost use Rattle.jac_facet.specs.Tops.{IsSmallerLabel};

use crate::combine::first_label;
use crate::facet::MOST_LABELS;
use crate::{Facet, Leaf};
use jac_value::Memory;
use jac_world::{Guard, Label, Steps};
use std::alloc::Global;
use std::sync::ledger::Ledger;

impl<T: Leaf> Facet<T> {
    /// `new` if the guard holds, or else `old`. More than 1,024 labels in the guard, or on a path
    /// of the result, give `Memory`.
    pub fn under<L: Ledger>(
        alloc: Global,
        guard: &Guard,
        new: &Facet<T>,
        old: &Facet<T>,
        splits: &mut Steps<L>,
    ) -> Result<Facet<T>, Memory>
        ensures at { IfOk result (λ r. (w : ℕ → Bool) → at w r ≡ (if holds w guard.now
            then at w new.now else at w old.now)) }
        ensures counted { IfOk result (λ r. splits.old + splits_in r ≤ splits.new) }
    {
        let pairs = guard.pairs();
        if pairs.len() > MOST_LABELS as usize {
            return Err(Memory);
        }
        let facet = Facet::under_pairs(alloc, pairs, new, old, splits)?;
        Ok(facet)
    }

    /// The same facet for every assignment that meets the cut. The result has none of the cut's
    /// labels.
    pub fn prune<L: Ledger>(
        &self,
        alloc: Global,
        cut: &Guard,
        splits: &mut Steps<L>,
    ) -> Result<Facet<T>, Memory>
        ensures at { IfOk result (λ r. (w : ℕ → Bool) → holds w cut.now ≡ true
            → at w r ≡ at w self.now) }
        ensures pruned { IfOk result (λ r. (k : ℕ) (b : Bool) → has_pair cut.now k b ≡ true
            → has_label k r ≡ false) }
        ensures counted { IfOk result (λ r. splits.old + splits_in r ≤ splits.new) }
    {
        let facet = self.prune_pairs(alloc, cut.pairs(), splits)?;
        Ok(facet)
    }

    fn under_pairs<L: Ledger>(
        alloc: Global,
        pairs: &[(Label, bool)],
        new: &Facet<T>,
        old: &Facet<T>,
        splits: &mut Steps<L>,
    ) -> Result<Facet<T>, Memory>
        requires { IsRising pairs.now }
        ensures at { IfOk result (λ r. (w : ℕ → Bool) → at w r ≡ (if holds w pairs.now
            then at w new.now else at w old.now)) }
        ensures above { IfOk result (λ r. (k : ℕ) → StartsAbove k pairs.now → Above k new.now
            → Above k old.now → Above k r) }
        ensures counted { IfOk result (λ r. splits.old + splits_in r ≤ splits.new) }
    {
        match pairs.split_first() {
            None => {
                let facet = new.counted_copy(alloc, splits)?;
                Ok(facet)
            }
            Some((pair, rest)) => match label_before(new, old, pair.0) {
                Some(label) => {
                    let high = Facet::under_pairs(
                        alloc,
                        pairs,
                        new.side(label, true),
                        old.side(label, true),
                        splits,
                    )?;
                    let low = Facet::under_pairs(
                        alloc,
                        pairs,
                        new.side(label, false),
                        old.side(label, false),
                        splits,
                    )?;
                    let facet = Facet::split(alloc, label, high, low, splits)?;
                    Ok(facet)
                }
                None => {
                    let inner = Facet::under_pairs(
                        alloc,
                        rest,
                        new.side(pair.0, pair.1),
                        old.side(pair.0, pair.1),
                        splits,
                    )?;
                    let outer = old.side(pair.0, !pair.1).counted_copy(alloc, splits)?;
                    let facet = Facet::split_by_sign(alloc, pair.0, pair.1, inner, outer, splits)?;
                    Ok(facet)
                }
            },
        }
    }

    // `met` if the label has this sign, or else `unmet`.
    fn split_by_sign<L: Ledger>(
        alloc: Global,
        label: Label,
        sign: bool,
        met: Facet<T>,
        unmet: Facet<T>,
        splits: &mut Steps<L>,
    ) -> Result<Facet<T>, Memory>
        requires met { Above label met }
        requires unmet { Above label unmet }
        ensures at { IfOk result (λ f. (w : ℕ → Bool) → at w f ≡ (if beq sign (w label)
            then at w met else at w unmet)) }
        ensures above { IfOk result (λ f. (k : ℕ) → k < label → Above k f) }
        ensures most { IfOk result (λ f. splits_in f ≤ splits_in met + splits_in unmet + 1) }
        ensures ticks { splits.new ≡ splits.old + 1 }
    {
        if sign {
            let facet = Facet::split(alloc, label, met, unmet, splits)?;
            Ok(facet)
        } else {
            let facet = Facet::split(alloc, label, unmet, met, splits)?;
            Ok(facet)
        }
    }

    fn prune_pairs<L: Ledger>(
        &self,
        alloc: Global,
        pairs: &[(Label, bool)],
        splits: &mut Steps<L>,
    ) -> Result<Facet<T>, Memory>
        requires { IsRising pairs.now }
        ensures at { IfOk result (λ r. (w : ℕ → Bool) → holds w pairs.now ≡ true
            → at w r ≡ at w self.now) }
        ensures pruned { IfOk result (λ r. (k : ℕ) (b : Bool) → has_pair pairs.now k b ≡ true
            → has_label k r ≡ false) }
        ensures above { IfOk result (λ r. (k : ℕ) → Above k self.now → Above k r) }
        ensures labels { IfOk result (λ r. (k : ℕ) → has_label k self.now ≡ false
            → has_label k r ≡ false) }
        ensures counted { IfOk result (λ r. splits.old + splits_in r ≤ splits.new) }
    {
        match pairs.split_first() {
            None => {
                let facet = self.counted_copy(alloc, splits)?;
                Ok(facet)
            }
            Some((pair, rest)) => match label_before(self, self, pair.0) {
                Some(label) => {
                    let high = self.side(label, true).prune_pairs(alloc, pairs, splits)?;
                    let low = self.side(label, false).prune_pairs(alloc, pairs, splits)?;
                    let facet = Facet::split(alloc, label, high, low, splits)?;
                    Ok(facet)
                }
                None => {
                    let below = self.side_without(pair.0, pair.1);
                    let facet = below.prune_pairs(alloc, rest, splits)?;
                    Ok(facet)
                }
            },
        }
    }
}

// The smaller of the first labels, if it is below the limit.
fn label_before<T: Leaf, U: Leaf>(
    first: &Facet<T>,
    second: &Facet<U>,
    limit: Label,
) -> Option<Label>
    ensures { IsSmallerLabel (top first.now) (top second.now) limit result }
{
    match first_label(first, second) {
        Some(label) if label < limit => Some(label),
        _ => None,
    }
}
