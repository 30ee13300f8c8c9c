ghost use Rattle.std.specs.Prelude.{◌≡◌, ◌==◌, ◌||◌, [], ℕ, length, IfOk, OnOk};
ghost use Rattle.jac_world.specs.World.{shown_by, IsAscending};

use jac_value::Memory;
use jac_world::{Label, add_among, is_among};
use std::alloc::Global;
use std::marker::Model;

/// Labels by rising number, without duplicates.
#[derive(Drop)]
pub struct Labels {
    labels: Vec<Label>,
}

impl Model for Labels {
    ghost use Rattle.std.specs.Prelude.{List, ℕ};
    ghost use Rattle.jac_world.specs.World.{IsAscending};

    ghost Value = { List ℕ };

    ghost view = { λ a. a.labels.items };

    ghost invariant = { λ a. IsAscending a.labels.items };
}

impl Labels {
    pub fn empty(alloc: Global) -> Labels
        ensures { result ≡ [] }
    {
        Labels {
            labels: Vec::new(alloc),
        }
    }

    /// The labels by rising number, without duplicates.
    pub fn rising(labels: Vec<Label>) -> Labels
        ensures same { (k : ℕ) → shown_by result k ≡ shown_by labels.items k }
        ensures ascending { IsAscending result }
    {
        let labels = sorted(labels);
        Labels { labels }
    }

    pub fn as_slice(&self) -> &[Label]
        ensures labels { result.now ≡ self.now }
        ensures ascending { IsAscending self.now }
    {
        self.labels.as_slice()
    }

    /// Whether the label is one of these.
    pub fn has(&self, label: Label) -> bool
        ensures { result ≡ shown_by self.now label }
    {
        is_among(self.labels.as_slice(), label)
    }

    pub fn len(&self) -> usize
        ensures { result ≡ length self.now }
    {
        self.labels.len()
    }

    /// Adds the label to these.
    pub fn add(&mut self, label: Label) -> Result<(), Memory>
        ensures { OnOk result ((k : ℕ) → shown_by self.new k ≡ (label == k
            || shown_by self.old k)) }
    {
        add_among(&mut self.labels, label)
    }

    pub fn copy(&self, alloc: Global) -> Result<Labels, Memory>
        ensures { IfOk result (λ a. a ≡ self.now) }
    {
        let labels = Vec::from_slice(alloc, self.labels.as_slice())?;
        Ok(Labels { labels })
    }
}

fn sorted(labels: Vec<Label>) -> Vec<Label>
    ensures ascending { IsAscending result.items }
    ensures same { (k : ℕ) → shown_by result.items k ≡ shown_by labels.items k }
{
    let mut labels = labels;
    labels.sort_unstable();
    labels.dedup();
    labels
}
