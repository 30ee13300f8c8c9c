ghost use Rattle.std.specs.Prelude.{◌≡◌, ◌+◌, ◌≤◌, ℕ, Bool, Ok, IfOk};
ghost use Rattle.std.specs.Fn.{FnReturnsAt};
ghost use Rattle.jac_facet.specs.Answers.{Answers};
ghost use Rattle.jac_facet.specs.Shape.{at, top, splits_in, Above};
ghost use Rattle.jac_facet.specs.Tops.{IsLeast};

use crate::{Facet, Leaf};
use jac_value::Memory;
use jac_world::{Label, Steps};
use std::alloc::Global;
use std::sync::ledger::Ledger;

impl<T: Leaf> Facet<T> {
    /// The facet that has, under each assignment, the function's result for the value of this one.
    /// Each split of the result is counted.
    pub fn map<U: Leaf, F: Fn(&T) -> Result<U, Memory>, L: Ledger>(
        &self,
        alloc: Global,
        f: F,
        splits: &mut Steps<L>,
    ) -> Result<Facet<U>, Memory>
        requires { F.IsAlwaysCallable f }
        ensures at { IfOk result (λ r. (w : ℕ → Bool) → FnReturnsAt F.Fn f (at w self.now)
            (Ok (at w r))) }
        ensures counted { IfOk result (λ r. splits.old + splits_in r ≤ splits.new) }
    {
        let mapped = self.map_by(alloc, &f, splits)?;
        Ok(mapped)
    }

    /// The facet that has, under each assignment, the function's result for the values of the two
    /// facets. Each split of the result is counted.
    pub fn combine<U: Leaf, V: Leaf, F: Fn(&T, &U) -> Result<V, Memory>, L: Ledger>(
        &self,
        alloc: Global,
        other: &Facet<U>,
        f: F,
        splits: &mut Steps<L>,
    ) -> Result<Facet<V>, Memory>
        requires { F.IsAlwaysCallable f }
        ensures at { IfOk result (λ r. (w : ℕ → Bool) → Answers F.Fn f (at w self.now)
            (at w other.now) (Ok (at w r))) }
        ensures counted { IfOk result (λ r. splits.old + splits_in r ≤ splits.new) }
    {
        let combined = self.combine_by(alloc, other, &f, splits)?;
        Ok(combined)
    }

    fn map_by<U: Leaf, F: Fn(&T) -> Result<U, Memory>, L: Ledger>(
        &self,
        alloc: Global,
        f: &F,
        splits: &mut Steps<L>,
    ) -> Result<Facet<U>, Memory>
        requires { F.IsAlwaysCallable f.now }
        ensures at { IfOk result (λ r. (w : ℕ → Bool) → FnReturnsAt F.Fn f.now (at w self.now)
            (Ok (at w r))) }
        ensures above { IfOk result (λ r. (k : ℕ) → Above k self.now → Above k r) }
        ensures counted { IfOk result (λ r. splits.old + splits_in r ≤ splits.new) }
    {
        match self.top() {
            None => {
                let value = f(self.first())?;
                Ok(Facet::leaf(value))
            }
            Some(label) => {
                let high = self.side(label, true).map_by(alloc, f, splits)?;
                let low = self.side(label, false).map_by(alloc, f, splits)?;
                let both = Facet::split(alloc, label, high, low, splits)?;
                Ok(both)
            }
        }
    }

    fn combine_by<U: Leaf, V: Leaf, F: Fn(&T, &U) -> Result<V, Memory>, L: Ledger>(
        &self,
        alloc: Global,
        other: &Facet<U>,
        f: &F,
        splits: &mut Steps<L>,
    ) -> Result<Facet<V>, Memory>
        requires { F.IsAlwaysCallable f.now }
        ensures at { IfOk result (λ r. (w : ℕ → Bool) → Answers F.Fn f.now (at w self.now)
            (at w other.now) (Ok (at w r))) }
        ensures above { IfOk result (λ r. (k : ℕ) → Above k self.now → Above k other.now
            → Above k r) }
        ensures counted { IfOk result (λ r. splits.old + splits_in r ≤ splits.new) }
    {
        match first_label(self, other) {
            None => {
                let value = f(self.first(), other.first())?;
                Ok(Facet::leaf(value))
            }
            Some(label) => {
                let high = self
                    .side(label, true)
                    .combine_by(alloc, other.side(label, true), f, splits)?;
                let low = self
                    .side(label, false)
                    .combine_by(alloc, other.side(label, false), f, splits)?;
                let both = Facet::split(alloc, label, high, low, splits)?;
                Ok(both)
            }
        }
    }
}

// The smaller of the first labels of the two facets.
pub(crate) fn first_label<T: Leaf, U: Leaf>(first: &Facet<T>, second: &Facet<U>) -> Option<Label>
    ensures { IsLeast (top first.now) (top second.now) result }
{
    match (first.top(), second.top()) {
        (Some(x), Some(y)) => { if x < y { Some(x) } else { Some(y) } }
        (Some(x), None) => Some(x),
        (None, y) => y,
    }
}
