//! Cached results of policies, each with a guard of the labels that were consulted for it.
ghost use Rattle.std.specs.Prelude.{◌≡◌, ◌==◌, ◌||◌, ◌&&◌, ℕ, Bool, false, None, Some, true, is_some, if◌then◌else◌, Option, IfOk, OnOk};
ghost use Rattle.jac_world.specs.World.{shown_by, holds, names, IsAscending};
ghost use Rattle.std.specs.Ordering.{nat_cmp};
ghost use Rattle.std.specs.BTreeMap.{get};
ghost use Rattle.jac_plain.specs.Policies.{with_label};
ghost use Rattle.jac_policy_cache.specs.Memo.{first_fitting, depends, is_asked, names_label, or_known, recall, signed_labels, watched_in, watches};
ghost use Rattle.jac_policy_cache.specs.Linked.{AreLinkedIf};
ghost use Rattle.jac_policy_cache.specs.Affected.{affects};

use crate::by_group::ByGroup;
use crate::links::linked;
use crate::{Invalidation, Labels};
use jac_value::{Id, Memory};
use jac_world::{Assignment, Guard, Label};
use std::alloc::Global;
use std::collections::BTreeMap;

/// The result of a label's policy under each assignment for which the guard holds.
#[derive(Drop)]
pub struct MemoEntry {
    pub when: Guard,
    pub holds: bool,
}

/// All cached results of one label, the oldest first.
#[derive(Drop)]
pub struct LabelMemo {
    pub answers: Vec<MemoEntry>,
}

/// The cached results of each label, and the watchers of each label. A watcher is a label that
/// consulted this one for a result.
#[derive(Drop)]
pub struct PolicyMemo {
    pub given: ByGroup,
    pub watchers: BTreeMap<Label, Labels>,
    /// The number of watchers of all labels. It never falls, because watchers aren't removed.
    links: usize,
    /// The number of labels that the cached results name. A label counts once for each result that
    /// names it.
    named: usize,
}

/// The number of watchers that may be left over before a memo counts as crowded.
const SPARE: usize = 1024;

impl PolicyMemo {
    pub fn empty(alloc: Global) -> PolicyMemo
        ensures recalls { (k : ℕ) → (w : ℕ → Bool) → recall result k w ≡ None }
        ensures watches { (k j : ℕ) → watches result k j ≡ false }
    {
        PolicyMemo {
            given: ByGroup::empty(alloc),
            watchers: BTreeMap::new(alloc),
            links: 0,
            named: 0,
        }
    }

    /// The cached result of the label under the assignment with the label itself shown.
    pub fn recalled(&self, a: &Assignment, label: Label) -> Option<bool>
        ensures { result ≡ recall self.now label (with_label label (shown_by a.now)) }
    {
        match self.given.get(label) {
            Some(given) => first_fitting(given.answers.as_slice(), a, label),
            None => None,
        }
    }

    /// Whether a cached result says that the label isn't allowed under the assignment with the
    /// label itself shown.
    pub fn refuses(&self, a: &Assignment, label: Label) -> bool
        ensures { result ≡ true
            → recall self.now label (with_label label (shown_by a.now)) ≡ Some false }
    {
        match self.recalled(a, label) {
            Some(holds) => !holds,
            None => false,
        }
    }

    /// Caches a result of the label. The label then watches all labels that were consulted.
    pub fn put(&mut self, alloc: Global, label: Label, known: MemoEntry) -> Result<(), Memory>
        ensures watches { OnOk result ((k j : ℕ)
            → watches self.new k j ≡ ((names known.when k && label == j) || watches self.old k j)) }
        ensures recalls { OnOk result ((k : ℕ) → (w : ℕ → Bool) → recall self.new k w ≡ (if label
            == k then or_known (recall self.old k w) known w else recall self.old k w)) }
        ensures depends { OnOk result ((j k : ℕ)
            → depends self.new j k ≡ ((label == j && names known.when k) || depends self.old j k)) }
    {
        let before = links_of(&self.watchers, known.when.pairs());
        watch_all(&mut self.watchers, alloc, known.when.pairs(), label)?;
        let made = links_of(&self.watchers, known.when.pairs()).saturating_sub(before);
        self.links = self.links.saturating_add(made);
        self.named = self.named.saturating_add(known.when.pairs().len());
        self.given.give(alloc, label, known)
    }

    /// The labels that consulted this one for a result.
    pub fn watchers(&self, alloc: Global, label: Label) -> Result<Labels, Memory>
        ensures { IfOk result (λ ls. (j : ℕ) → shown_by ls j ≡ watches self.now label j) }
    {
        match self.watchers.get(&label) {
            Some(watchers) => watchers.copy(alloc),
            None => Ok(Labels::empty(alloc)),
        }
    }

    /// Adds the labels that the cached results of this one depend on.
    pub fn add_named(&self, label: Label, labels: &mut Labels) -> Result<(), Memory>
        ensures { OnOk result ((k : ℕ)
            → shown_by labels.new k ≡ (shown_by labels.old k || depends self.now label k)) }
    {
        match self.given.get(label) {
            Some(given) => add_answers(given.answers.as_slice(), labels),
            None => Ok(()),
        }
    }

    // Adds the labels with cached results that the change may affect. The labels that the change
    // names are already in `labels`. Only the groups that are affected for this viewer are
    // searched.
    pub(crate) fn add_affected(
        &self,
        alloc: Global,
        invalidation: &Invalidation,
        viewer: &Option<Id>,
        labels: &mut Labels,
    ) -> Result<(), Memory>
        requires named { (k : ℕ) → shown_by invalidation.now.labels k ≡ true → shown_by labels.old k
            ≡ true }
        ensures { OnOk result ((k : ℕ) → shown_by labels.new k ≡ (shown_by labels.old k
            || (affects invalidation.now viewer.now k && is_asked self.now k))) }
    {
        let mut affected = Vec::from_slice(alloc, labels.as_slice())?;
        self.given
            .add_affected(invalidation.groups.as_slice(), viewer, &mut affected)?;
        *labels = Labels::rising(affected);
        Ok(())
    }

    /// Forgets the results of the label. Its watchers stay, and so do the labels that it watches.
    pub fn forget(&mut self, label: Label)
        ensures recalls { (k : ℕ) (w : ℕ → Bool)
            → recall self.new k w ≡ (if label == k then None else recall self.old k w) }
        ensures watches { (k j : ℕ) → watches self.new k j ≡ watches self.old k j }
        ensures depends { (j k : ℕ)
            → depends self.new j k ≡ (if label == j then false else depends self.old j k) }
        ensures asked { (k : ℕ)
            → is_asked self.new k ≡ (if label == k then false else is_asked self.old k) }
    {
        let gone = match self.given.get(label) {
            Some(given) => named_by(given.answers.as_slice()),
            None => 0,
        };
        self.named = self.named.saturating_sub(gone);
        self.given.forget(label);
    }

    /// Whether most of the watchers are left over from forgotten results. Their number keeps
    /// growing if records are made and deleted for ever.
    pub fn is_crowded(&self) -> bool {
        self.links / 2 > self.named.saturating_add(SPARE)
    }

    /// The labels with all labels that watch them and all that their results depend on,
    /// transitively. `None` if these aren't fewer than `most`.
    pub fn linked(
        &self,
        alloc: Global,
        labels: &Labels,
        most: usize,
    ) -> Result<Option<Labels>, Memory>
        ensures { IfOk result (AreLinkedIf self.now labels.now) }
    {
        linked(self, alloc, labels, most)
    }

    /// The number of labels with cached results.
    pub fn len(&self) -> usize {
        self.given.len()
    }
}

// The first result whose guard holds under the assignment with the label shown.
fn first_fitting(answers: &[MemoEntry], a: &Assignment, label: Label) -> Option<bool>
    ensures { result ≡ first_fitting answers.now (with_label label (shown_by a.now)) }
{
    'answers: for known in answers {
        if fits(known.when.pairs(), a, label) {
            return Some(known.holds);
        }
    }
    None
}

fn fits(pairs: &[(Label, bool)], a: &Assignment, label: Label) -> bool
    ensures { result ≡ holds (with_label label (shown_by a.now)) pairs.now }
{
    pairs.iter().all(|pair| pair.1 == shows(a, label, pair.0))
}

fn shows(a: &Assignment, added: Label, label: Label) -> bool
    ensures { result ≡ with_label added (shown_by a.now) label }
{
    added == label || a.shows(label)
}

fn add_answers(answers: &[MemoEntry], labels: &mut Labels) -> Result<(), Memory>
    ensures { OnOk result ((k : ℕ)
        → shown_by labels.new k ≡ (shown_by labels.old k || names_label answers.now k)) }
{
    'answers: for known in answers {
        add_pairs(known.when.pairs(), labels)?;
    }
    Ok(())
}

fn add_pairs(pairs: &[(Label, bool)], labels: &mut Labels) -> Result<(), Memory>
    ensures { OnOk result ((k : ℕ)
        → shown_by labels.new k ≡ (shown_by labels.old k || names pairs.now k)) }
{
    'pairs: for pair in pairs {
        labels.add(pair.0)?;
    }
    Ok(())
}

// The number of watchers of the labels of these pairs.
fn links_of(watchers: &BTreeMap<Label, Labels>, pairs: &[(Label, bool)]) -> usize {
    let mut links: usize = 0;
    'pairs: for pair in pairs {
        links = links.saturating_add(watchers_of(watchers, pair.0));
    }
    links
}

fn watchers_of(watchers: &BTreeMap<Label, Labels>, label: Label) -> usize {
    match watchers.get(&label) {
        Some(watchers) => watchers.len(),
        None => 0,
    }
}

// The number of labels that these results name.
fn named_by(answers: &[MemoEntry]) -> usize {
    let mut named: usize = 0;
    'answers: for known in answers {
        named = named.saturating_add(known.when.pairs().len());
    }
    named
}

fn watch_all(
    watchers: &mut BTreeMap<Label, Labels>,
    alloc: Global,
    pairs: &[(Label, bool)],
    label: Label,
) -> Result<(), Memory>
    ensures { OnOk result ((k j : ℕ) → watched_in (get nat_cmp watchers.new k) j
        ≡ ((names pairs.now k && label == j) || watched_in (get nat_cmp watchers.old k) j)) }
{
    'pairs: for pair in pairs {
        watch(watchers, alloc, pair.0, label)?;
    }
    Ok(())
}

// Makes the second label a watcher of the first.
fn watch(
    watchers: &mut BTreeMap<Label, Labels>,
    alloc: Global,
    watched: Label,
    label: Label,
) -> Result<(), Memory>
    ensures { OnOk result ((k j : ℕ) → watched_in (get nat_cmp watchers.new k) j
        ≡ ((watched == k && label == j) || watched_in (get nat_cmp watchers.old k) j)) }
{
    let of_watched = watchers.entry(watched)?.or_insert(Labels::empty(alloc));
    of_watched.add(label)?;
    Ok(())
}

/// The guard that holds if the labels are shown and hidden as under the assignment.
pub fn signs(alloc: Global, labels: &[Label], a: &Assignment) -> Result<Guard, Memory>
    requires { IsAscending labels.now }
    ensures { IfOk result (λ g. g ≡ signed_labels (shown_by a.now) labels.now) }
{
    let pairs = signed_pairs(alloc, labels, a)?;
    Ok(Guard::from_pairs(pairs))
}

fn signed_pairs(
    alloc: Global,
    labels: &[Label],
    a: &Assignment,
) -> Result<Vec<(Label, bool)>, Memory>
    ensures { IfOk result (λ v. v.items ≡ signed_labels (shown_by a.now) labels.now) }
{
    let mut pairs = Vec::new(alloc);
    'labels: for label in labels {
        pairs.push((*label, a.shows(*label)))?;
    }
    Ok(pairs)
}
