//! Cached results of policies, found by the label or by its group.
ghost use Rattle.std.specs.Prelude.{◌≡◌, ◌==◌, ◌||◌, ◌&&◌, ◌+◌, ◌*◌, ◌%◌, ℕ, Bool, None, is_some, if◌then◌else◌, OnOk};
ghost use Rattle.std.specs.BTreeMap.{get};
ghost use Rattle.std.specs.List.{list_any};
ghost use Rattle.std.specs.Option.{option_copied};
ghost use Rattle.std.specs.Ordering.{nat_cmp};
ghost use Rattle.jac_world.specs.World.{shown_by, names};
ghost use Rattle.jac_policy_cache.specs.declared.invalidation.AffectedGroup.{AffectedGroup as Group};
ghost use Rattle.jac_policy_cache.specs.Memo.{given_of, depends_in, or_known, recall_in};
ghost use Rattle.jac_policy_cache.specs.Affected.{is_for, is_in_group};

use crate::invalidation::{is_for, is_in_group};
use crate::{AffectedGroup, LabelMemo, MemoEntry};
use jac_value::{Id, Memory};
use jac_world::Label;
use std::alloc::Global;
use std::collections::BTreeMap;

/// The cached results of each label. The labels of one group of a model are stored together, under
/// the remainder by 512 that they have in common.
#[derive(Drop)]
pub struct ByGroup {
    groups: BTreeMap<u16, BTreeMap<Label, LabelMemo>>,
}

impl ByGroup {
    pub fn empty(alloc: Global) -> ByGroup
        ensures { (k : ℕ) → given_of result k ≡ None }
    {
        ByGroup {
            groups: BTreeMap::new(alloc),
        }
    }

    /// The cached results of the label.
    pub fn get(&self, label: Label) -> Option<&LabelMemo>
        ensures { option_copied result ≡ given_of self.now label }
    {
        match self.groups.get(&group_of(label)) {
            Some(group) => group.get(&label),
            None => None,
        }
    }

    /// Adds a result of the label after its other results.
    pub fn give(&mut self, alloc: Global, label: Label, known: MemoEntry) -> Result<(), Memory>
        ensures depends { OnOk result ((j k : ℕ) → depends_in (given_of self.new j) k
            ≡ ((label == j && names known.when k) || depends_in (given_of self.old j) k)) }
        ensures recalls { OnOk result ((k : ℕ) → (w : ℕ → Bool) → recall_in (given_of self.new k) w
            ≡ (if label == k then or_known (recall_in (given_of self.old k) w) known w
            else recall_in (given_of self.old k) w)) }
    {
        let none = BTreeMap::new(alloc);
        let group = self.groups.entry(group_of(label))?.or_insert(none);
        give(group, alloc, label, known)
    }

    /// Removes the cached results of the label.
    pub fn forget(&mut self, label: Label)
        ensures { (k : ℕ)
            → given_of self.new k ≡ (if label == k then None else given_of self.old k) }
    {
        match self.groups.get_mut(&group_of(label)) {
            Some(group) => forget(group, label),
            None => {}
        }
    }

    /// Adds the labels with cached results in the groups that are affected for this viewer, in no
    /// particular order.
    pub fn add_affected(
        &self,
        groups: &[AffectedGroup],
        viewer: &Option<Id>,
        labels: &mut Vec<Label>,
    ) -> Result<(), Memory>
        ensures { OnOk result ((k : ℕ) → shown_by labels.new.items k ≡ (shown_by labels.old.items k
            || (list_any (λ (g : Group). is_in_group g k && is_for g.viewer viewer.now) groups.now
            && is_some (given_of self.now k)))) }
    {
        'groups: for group in groups {
            self.add_if_for(group, viewer, labels)?;
        }
        Ok(())
    }

    fn add_if_for(
        &self,
        group: &AffectedGroup,
        viewer: &Option<Id>,
        labels: &mut Vec<Label>,
    ) -> Result<(), Memory>
        ensures { OnOk result ((k : ℕ) → shown_by labels.new.items k ≡ (shown_by labels.old.items k
            || ((is_in_group group.now k && is_for group.now.viewer viewer.now)
            && is_some (given_of self.now k)))) }
    {
        if is_for(&group.viewer, viewer) {
            self.add_group(group, labels)?;
        }
        Ok(())
    }

    fn add_group(&self, group: &AffectedGroup, labels: &mut Vec<Label>) -> Result<(), Memory>
        ensures { OnOk result ((k : ℕ) → shown_by labels.new.items k ≡ (shown_by labels.old.items k
            || (is_in_group group.now k && is_some (given_of self.now k)))) }
    {
        match self.groups.get(&number_of(group.model, group.group)) {
            Some(given) => add_asked(given, group, labels),
            None => Ok(()),
        }
    }

    /// The number of labels with cached results.
    pub fn len(&self) -> usize {
        let mut labels: usize = 0;
        'groups: for group in self.groups.values() {
            labels = labels.saturating_add(group.len());
        }
        labels
    }
}

// The remainder of a label by 512. All labels of a group have the same one.
fn group_of(label: Label) -> u16
    ensures { result ≡ label % 512 }
{
    (label.0 % 512) as u16
}

// The remainder of the labels of a group, if the group has any.
fn number_of(model: u8, group: u8) -> u16
    ensures { result ≡ model * 8 + group }
{
    u16::from(model) * 8 + u16::from(group)
}

fn give(
    given: &mut BTreeMap<Label, LabelMemo>,
    alloc: Global,
    label: Label,
    known: MemoEntry,
) -> Result<(), Memory>
    ensures depends { OnOk result ((j k : ℕ) → depends_in (get nat_cmp given.new j) k
        ≡ ((label == j && names known.when k) || depends_in (get nat_cmp given.old j) k)) }
    ensures recalls { OnOk result ((k : ℕ) → (w : ℕ → Bool) → recall_in (get nat_cmp given.new k) w
        ≡ (if label == k then or_known (recall_in (get nat_cmp given.old k) w) known w
        else recall_in (get nat_cmp given.old k) w)) }
{
    let none = LabelMemo {
        answers: Vec::new(alloc),
    };
    let of_label = given.entry(label)?.or_insert(none);
    of_label.answers.push(known)?;
    Ok(())
}

fn forget(given: &mut BTreeMap<Label, LabelMemo>, label: Label)
    ensures { (k : ℕ)
        → get nat_cmp given.new k ≡ (if label == k then None else get nat_cmp given.old k) }
{
    let _ = given.remove(&label);
}

fn add_asked(
    given: &BTreeMap<Label, LabelMemo>,
    group: &AffectedGroup,
    labels: &mut Vec<Label>,
) -> Result<(), Memory>
    ensures { OnOk result ((k : ℕ) → shown_by labels.new.items k ≡ (shown_by labels.old.items k
        || (is_in_group group.now k && is_some (get nat_cmp given.now k)))) }
{
    'asked: for label in given.keys() {
        add_if_in(group, *label, labels)?;
    }
    Ok(())
}

// The labels that are stored with those of a group belong to the group. This is tested here instead
// of being an invariant.
fn add_if_in(group: &AffectedGroup, label: Label, labels: &mut Vec<Label>) -> Result<(), Memory>
    ensures { OnOk result ((k : ℕ) → shown_by labels.new.items k ≡ (shown_by labels.old.items k
        || (label == k && is_in_group group.now k))) }
{
    if is_in_group(group, label) {
        labels.push(label)?;
    }
    Ok(())
}
