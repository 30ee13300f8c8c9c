ghost use Rattle.std.specs.Prelude.{◌≡◌, ◌≢◌, ℕ, ◌+◌, ◌<◌, ◌≤◌, Bool, false, if◌then◌else◌, Some, None, IfOk, IfSome, IsTrue, ◌↔◌};
ghost use Rattle.jac_world.specs.World.{shown_by};
ghost use Rattle.jac_facet.specs.Shape.{Shape, one, at, top, depth, splits_in, Above, IsOrdered, has_label};
ghost use Rattle.jac_facet.specs.Tops.{UpTo};

use crate::Leaf;
use jac_value::Memory;
use jac_world::{Assignment, Label, Steps};
use std::alloc::Global;
use std::marker::Model;
use std::sync::ledger::Ledger;

/// The largest number of labels on a path of a facet. Functions on a facet, and its drop, recurse
/// once for each label on a path. A facet with a longer path is refused as out of memory, so that
/// the size of the stack doesn't decide whether they end.
pub(crate) const MOST_LABELS: u32 = 1024;

/// A faceted value (Austin and Flanagan, POPL 2012): one value, or a label with two facets, one for
/// when it is shown and one for when it is hidden.
#[cycle(facet)]
#[derive(Drop)]
pub struct Facet<T> {
    pub(crate) node: Node<T>,
    // The number of labels on the longest path.
    labels: u32,
}

#[cycle(facet)]
#[derive(Drop)]
pub(crate) enum Node<T> {
    Leaf(T),
    Split(Label, Box<Facet<T>>, Box<Facet<T>>),
}

impl<T> Model for Facet<T> {
    ghost use Rattle.jac_facet.specs.Shape.{Shape, shape_code, depth, IsOrdered};

    ghost Value = { Shape T };

    ghost coded = { shape_code T.code };

    ghost use Rattle.jac_facet.specs.Node.{shape_of};

    ghost view = { λ f. shape_of f.node };

    ghost invariant = { λ f. IsOrdered (shape_of f.node) };

    ghost size = { depth };

    ghost use Rattle.jac_facet.specs.NodeFalls.{deep_le-depth};

    ghost size_decreases = { λ a h. deep_le-depth a.node };
}

impl<T: Leaf> Facet<T> {
    pub fn leaf(value: T) -> Facet<T>
        ensures { result ≡ one value }
    {
        Facet {
            node: Node::Leaf(value),
            labels: 0,
        }
    }

    /// `high` if the label is shown, or else `low`. If the sides are equal, the result is that
    /// side. A path of more than 1,024 labels gives `Memory`.
    pub fn split<L: Ledger>(
        alloc: Global,
        label: Label,
        high: Facet<T>,
        low: Facet<T>,
        splits: &mut Steps<L>,
    ) -> Result<Facet<T>, Memory>
        requires high { Above label high }
        requires low { Above label low }
        ensures at { IfOk result (λ f. (w : ℕ → Bool) → at w f ≡ (if w label then at w high
            else at w low)) }
        ensures above { IfOk result (λ f. (k : ℕ) → k < label → Above k f) }
        ensures labels { IfOk result (λ f. (k : ℕ) → k ≢ label → has_label k high ≡ false
            → has_label k low ≡ false → has_label k f ≡ false) }
        ensures most { IfOk result (λ f. splits_in f ≤ splits_in high + splits_in low + 1) }
        ensures ticks { splits.new ≡ splits.old + 1 }
    {
        splits.tick();
        if high.same(&low) {
            return Ok(high);
        }
        let labels = high.labels.max(low.labels);
        if labels >= MOST_LABELS {
            return Err(Memory);
        }
        let high = Box::new(alloc, high)?;
        let low = Box::new(alloc, low)?;
        Ok(Facet {
            node: Node::Split(label, high, low),
            labels: labels + 1,
        })
    }

    pub fn at(&self, assignment: &Assignment) -> &T
        ensures { result.now ≡ at (shown_by assignment.now) self.now }
    {
        match &self.node {
            Node::Leaf(value) => value,
            Node::Split(label, high, low) => {
                if assignment.shows(*label) {
                    high.at(assignment)
                } else {
                    low.at(assignment)
                }
            }
        }
    }

    pub fn copy(&self, alloc: Global) -> Result<Facet<T>, Memory>
        ensures { IfOk result (λ f. f ≡ self.now) }
    {
        match &self.node {
            Node::Leaf(value) => {
                let value = value.copy(alloc)?;
                Ok(Facet {
                    node: Node::Leaf(value),
                    labels: 0,
                })
            }
            Node::Split(label, high, low) => {
                let high = Box::new(alloc, high.copy(alloc)?)?;
                let low = Box::new(alloc, low.copy(alloc)?)?;
                Ok(Facet {
                    node: Node::Split(*label, high, low),
                    labels: self.labels,
                })
            }
        }
    }

    // A copy of the facet. Each of its splits is counted.
    pub(crate) fn counted_copy<L: Ledger>(
        &self,
        alloc: Global,
        copied: &mut Steps<L>,
    ) -> Result<Facet<T>, Memory>
        ensures same { IfOk result (λ f. f ≡ self.now) }
        ensures counted { IfOk result (λ f. copied.old + splits_in f ≤ copied.new) }
    {
        match &self.node {
            Node::Leaf(value) => {
                let value = value.copy(alloc)?;
                Ok(Facet {
                    node: Node::Leaf(value),
                    labels: 0,
                })
            }
            Node::Split(label, high, low) => {
                copied.tick();
                let high = Box::new(alloc, high.counted_copy(alloc, copied)?)?;
                let low = Box::new(alloc, low.counted_copy(alloc, copied)?)?;
                Ok(Facet {
                    node: Node::Split(*label, high, low),
                    labels: self.labels,
                })
            }
        }
    }

    /// A law: labels rise strictly on every path, and the two sides of each split differ.
    pub fn keeps_order(&self)
        ensures { IsOrdered self.now }
    {
        let _ = &self.node;
    }

    pub(crate) fn same(&self, other: &Facet<T>) -> bool
        ensures { IsTrue result ↔ (self.now ≡ other.now) }
    {
        match (&self.node, &other.node) {
            (Node::Leaf(x), Node::Leaf(y)) => x == y,
            (Node::Split(first, high, low), Node::Split(second, other_high, other_low)) => {
                first == second && high.same(other_high) && low.same(other_low)
            }
            _ => false,
        }
    }

    // The first label, unless the facet is one value.
    pub(crate) fn top(&self) -> Option<Label>
        ensures top { result ≡ top self.now }
        ensures first { IfSome result (λ k. UpTo k (top self.now)) }
    {
        match &self.node {
            Node::Leaf(_) => None,
            Node::Split(label, _, _) => Some(*label),
        }
    }

    // The leftmost value.
    pub(crate) fn first(&self) -> &T
        ensures { top self.now ≡ None → (w : ℕ → Bool) → at w self.now ≡ result.now }
    {
        match &self.node {
            Node::Leaf(value) => value,
            Node::Split(_, high, _) => high.first(),
        }
    }

    // The side for `shown` if the label is the first, or else the facet itself.
    pub(crate) fn side(&self, label: Label, shown: bool) -> &Facet<T>
        ensures at { (w : ℕ → Bool) → w label ≡ shown → at w result.now ≡ at w self.now }
        ensures past { UpTo label (top self.now) → Above label result.now }
        ensures above { (k : ℕ) → Above k self.now → Above k result.now }
        ensures labels { (k : ℕ) → has_label k self.now ≡ false → has_label k result.now ≡ false }
        ensures depth { depth result.now ≤ depth self.now }
        ensures less { top self.now ≡ Some label → depth result.now < depth self.now }
    {
        match &self.node {
            Node::Split(first, high, low) if *first == label => { if shown { high } else { low } }
            _ => self,
        }
    }

    // The side for `shown` of a facet with no label below this one. The side doesn't have the
    // label.
    pub(crate) fn side_without(&self, label: Label, shown: bool) -> &Facet<T>
        requires { UpTo label (top self.now) }
        ensures at { (w : ℕ → Bool) → w label ≡ shown → at w result.now ≡ at w self.now }
        ensures gone { has_label label result.now ≡ false }
        ensures above { (k : ℕ) → Above k self.now → Above k result.now }
        ensures labels { (k : ℕ) → has_label k self.now ≡ false → has_label k result.now ≡ false }
        ensures depth { depth result.now ≤ depth self.now }
    {
        let side = self.side(label, shown);
        let _ = &side.node;
        side
    }
}
