//! Labels with all that they are linked to by cached results.
ghost use Rattle.std.specs.Prelude.{◌≡◌, ◌==◌, ◌||◌, ℕ, true, IfOk, OnOk};
ghost use Rattle.jac_world.specs.World.{shown_by};
ghost use Rattle.jac_policy_cache.specs.Linked.{AreLinkedIf, IsDoneBefore};
ghost use Rattle.jac_policy_cache.specs.Memo.{depends, watches};

use crate::{Labels, PolicyMemo};
use jac_value::Memory;
use jac_world::Label;
use std::alloc::Global;

// The labels with all that they are linked to. `None` if these aren't fewer than `most`.
pub(crate) fn linked(
    answers: &PolicyMemo,
    alloc: Global,
    labels: &Labels,
    most: usize,
) -> Result<Option<Labels>, Memory>
    ensures { IfOk result (AreLinkedIf answers.now labels.now) }
{
    let mut all = labels.copy(alloc)?;
    let mut left = Vec::from_slice(alloc, labels.as_slice())?;
    'labels: for _ in 0..most {
        if most < all.len() {
            return Ok(None);
        }
        let Some(label) = left.pop() else {
            return Ok(Some(all));
        };
        add_near(answers, alloc, label, &mut all, &mut left)?;
    }
    Ok(None)
}

// Adds the labels that are directly linked to this one.
fn add_near(
    answers: &PolicyMemo,
    alloc: Global,
    label: Label,
    all: &mut Labels,
    left: &mut Vec<Label>,
) -> Result<(), Memory>
    ensures near { OnOk result ((k : ℕ) → (watches answers.now label k || depends answers.now label
        k)
        ≡ true → shown_by all.new k ≡ true) }
    ensures kept { OnOk result ((k : ℕ) → shown_by all.old k ≡ true → shown_by all.new k ≡ true) }
    ensures before { OnOk result (IsDoneBefore all.old left.old.items all.new left.new.items) }
{
    let mut near = answers.watchers(alloc, label)?;
    answers.add_named(label, &mut near)?;
    add_new(near.as_slice(), all, left)
}

// Adds to `all` the labels that aren't in it yet. They are also added to `left`, the labels whose
// links are still to be followed.
fn add_new(labels: &[Label], all: &mut Labels, left: &mut Vec<Label>) -> Result<(), Memory>
    ensures all { OnOk result ((k : ℕ)
        → shown_by all.new k ≡ (shown_by all.old k || shown_by labels.now k)) }
    ensures before { OnOk result (IsDoneBefore all.old left.old.items all.new left.new.items) }
{
    'labels: for label in labels {
        add_one(*label, all, left)?;
    }
    Ok(())
}

fn add_one(label: Label, all: &mut Labels, left: &mut Vec<Label>) -> Result<(), Memory>
    ensures all { OnOk result ((k : ℕ) → shown_by all.new k ≡ (shown_by all.old k || label == k)) }
    ensures before { OnOk result (IsDoneBefore all.old left.old.items all.new left.new.items) }
{
    if all.has(label) {
        return Ok(());
    }
    all.add(label)?;
    left.push(label)?;
    Ok(())
}
