//! Which of the shown labels are evaluated again if one more is shown.
ghost use Rattle.std.specs.Prelude.{◌≡◌, ◌==◌, ◌||◌, ◌&&◌, ℕ, false, IfOk, OnOk};
ghost use Rattle.std.specs.Ordering.{nat_cmp};
ghost use Rattle.std.specs.BTreeMap.{get};
ghost use Rattle.jac_world.specs.World.{shown_by};
ghost use Rattle.jac_policy_cache.specs.Memo.{watched_in};
ghost use Rattle.jac_why.specs.Watched.{asks_again};

use jac_policy_cache::Labels;
use jac_value::Memory;
use jac_world::Label;
use std::alloc::Global;
use std::collections::BTreeMap;

/// For each label, the labels that consulted it. They are evaluated again if it is shown too.
#[derive(Drop)]
pub struct Watchers {
    lists: BTreeMap<Label, Labels>,
}

impl Watchers {
    pub fn empty(alloc: Global) -> Watchers
        ensures { (k j : ℕ) → asks_again result k j ≡ false }
    {
        Watchers {
            lists: BTreeMap::new(alloc),
        }
    }

    /// Makes the label a watcher of the labels that it consulted.
    pub fn watch(&mut self, alloc: Global, label: Label, consulted: &[Label]) -> Result<(), Memory>
        ensures { OnOk result ((k j : ℕ) → asks_again self.new k j
            ≡ ((shown_by consulted.now k && label == j) || asks_again self.old k j)) }
    {
        watch_all(&mut self.lists, alloc, consulted, label)
    }

    /// The labels that are evaluated if this one is shown too: the labels that consulted it, and
    /// itself.
    pub fn asked(&self, alloc: Global, label: Label) -> Result<Labels, Memory>
        ensures { IfOk result (λ ls. (j : ℕ) →
            shown_by ls j ≡ (label == j || asks_again self.now label j)) }
    {
        let mut labels = self.watchers(alloc, label)?;
        labels.add(label)?;
        Ok(labels)
    }

    fn watchers(&self, alloc: Global, label: Label) -> Result<Labels, Memory>
        ensures { IfOk result (λ ls. (j : ℕ) → shown_by ls j ≡ asks_again self.now label j) }
    {
        match self.lists.get(&label) {
            Some(watchers) => watchers.copy(alloc),
            None => Ok(Labels::empty(alloc)),
        }
    }
}

fn watch_all(
    lists: &mut BTreeMap<Label, Labels>,
    alloc: Global,
    consulted: &[Label],
    label: Label,
) -> Result<(), Memory>
    ensures { OnOk result ((k j : ℕ) → watched_in (get nat_cmp lists.new k) j
        ≡ ((shown_by consulted.now k && label == j) || watched_in (get nat_cmp lists.old k) j)) }
{
    'labels: for watched in consulted {
        watch(lists, alloc, *watched, label)?;
    }
    Ok(())
}

// Makes the second label a watcher of the first.
fn watch(
    lists: &mut BTreeMap<Label, Labels>,
    alloc: Global,
    watched: Label,
    label: Label,
) -> Result<(), Memory>
    ensures { OnOk result ((k j : ℕ) → watched_in (get nat_cmp lists.new k) j
        ≡ ((watched == k && label == j) || watched_in (get nat_cmp lists.old k) j)) }
{
    let of_watched = lists.entry(watched)?.or_insert(Labels::empty(alloc));
    of_watched.add(label)?;
    Ok(())
}
