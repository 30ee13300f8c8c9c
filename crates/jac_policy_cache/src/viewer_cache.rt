//! A viewer's cache.
ghost use Rattle.std.specs.Prelude.{◌≡◌, ◌||◌, ◌&&◌, ◌==◌, ℕ, Bool, None, if◌then◌else◌, IfOk, OnOk};
ghost use Rattle.jac_world.specs.World.{shown_by};
ghost use Rattle.jac_policy_cache.specs.Memo.{depends, is_asked, recall, watches};
ghost use Rattle.jac_policy_cache.specs.Affected.{affects};
ghost use Rattle.jac_policy_cache.specs.ViewerCache.{IsEmptyCache, Invalidates, is_marked};

use crate::{Invalidation, Labels, PolicyMemo};
use jac_value::{Id, Memory};
use jac_world::{Assignment, Label};
use std::alloc::Global;

/// The number of stale labels that a cache may have beyond its labels with cached results before it
/// counts as overgrown.
const SPARE: usize = 1024;

/// A viewer's cache: the labels that are shown, if they were settled; the results of policies; and
/// the stale labels. A label is stale if its cached result, or a result that depends on it, may be
/// wrong.
#[derive(Drop)]
pub struct ViewerCache {
    pub labels: Option<Assignment>,
    pub answers: PolicyMemo,
    pub stale: Labels,
}

impl ViewerCache {
    /// The cache of a viewer for whom nothing has been settled.
    pub fn empty(alloc: Global) -> ViewerCache
        ensures { IsEmptyCache result }
    {
        ViewerCache {
            labels: None,
            answers: PolicyMemo::empty(alloc),
            stale: Labels::empty(alloc),
        }
    }

    /// Forgets the results that a change may affect. The affected labels become stale, and so do
    /// the labels that their results depend on. Only the labels that the change names and the
    /// affected groups are searched, not all labels with cached results.
    pub fn invalidate(
        &mut self,
        alloc: Global,
        viewer: &Option<Id>,
        invalidation: &Invalidation,
    ) -> Result<(), Memory>
        ensures { OnOk result (Invalidates invalidation.now viewer.now self.old self.new) }
    {
        let affected = affected_of(alloc, &self.answers, viewer, invalidation)?;
        mark_all(&self.answers, affected.as_slice(), &mut self.stale)?;
        forget_all(&mut self.answers, affected.as_slice());
        Ok(())
    }

    /// Whether settling anew costs less than keeping this cache: too many labels are stale, or most
    /// watchers are left over. The cache of a viewer who doesn't return would otherwise keep
    /// growing.
    pub fn is_overgrown(&self) -> bool {
        self.stale.len() > self.answers.len().saturating_add(SPARE) || self.answers.is_crowded()
    }
}

// The labels that the change names, and the labels with cached results that it affects.
fn affected_of(
    alloc: Global,
    answers: &PolicyMemo,
    viewer: &Option<Id>,
    invalidation: &Invalidation,
) -> Result<Labels, Memory>
    ensures { IfOk result (λ ls. (k : ℕ) → shown_by ls k ≡ (shown_by invalidation.now.labels k
        || (affects invalidation.now viewer.now k && is_asked answers.now k))) }
{
    let mut affected = invalidation.labels.copy(alloc)?;
    if !invalidation.groups.is_empty() {
        answers.add_affected(alloc, invalidation, viewer, &mut affected)?;
    }
    Ok(affected)
}

// Marks each of the labels as stale, and the labels that its results depend on.
fn mark_all(answers: &PolicyMemo, labels: &[Label], stale: &mut Labels) -> Result<(), Memory>
    ensures { OnOk result ((k : ℕ)
        → shown_by stale.new k ≡ (shown_by stale.old k || is_marked answers.now labels.now k)) }
{
    'labels: for label in labels {
        mark(answers, *label, stale)?;
    }
    Ok(())
}

fn mark(answers: &PolicyMemo, label: Label, stale: &mut Labels) -> Result<(), Memory>
    ensures { OnOk result ((k : ℕ)
        → shown_by stale.new k ≡ (shown_by stale.old k || (label == k || depends answers.now label
        k))) }
{
    stale.add(label)?;
    answers.add_named(label, stale)
}

fn forget_all(answers: &mut PolicyMemo, labels: &[Label])
    ensures recalls { (k : ℕ) (w : ℕ → Bool)
        → recall answers.new k w ≡ (if shown_by labels.now k then None
        else recall answers.old k w) }
    ensures watches { (k j : ℕ) → watches answers.new k j ≡ watches answers.old k j }
{
    'labels: for label in labels {
        answers.forget(*label);
    }
}
