ghost use Rattle.std.specs.Prelude.{◌≡◌, ℕ, not, ◌==◌, ◌||◌, ◌&&◌, [], IfOk, OnOk, OnErr};
ghost use Rattle.jac_world.specs.World.{shown_by, IsAscending};

use crate::{Label, add_among, is_among, remove_among};
use jac_value::Memory;
use std::alloc::Global;
use std::marker::Model;

/// The labels that a viewer is shown. Every other label is hidden.
#[derive(Debug, Drop)]
pub struct Assignment {
    labels: Vec<Label>,
}

impl Model for Assignment {
    ghost use Rattle.std.specs.Prelude.{List, ℕ};
    ghost use Rattle.jac_world.specs.World.{IsAscending};

    ghost Value = { List ℕ };

    ghost view = { λ a. a.labels.items };

    ghost invariant = { λ a. IsAscending a.labels.items };
}

impl Assignment {
    pub fn empty(alloc: Global) -> Assignment
        ensures { result ≡ [] }
    {
        Assignment {
            labels: Vec::new(alloc),
        }
    }

    pub fn shows(&self, label: Label) -> bool
        ensures { result ≡ shown_by self.now label }
    {
        is_among(self.labels.as_slice(), label)
    }

    pub fn as_slice(&self) -> &[Label]
        ensures labels { result.now ≡ self.now }
        ensures ascending { IsAscending self.now }
    {
        self.labels.as_slice()
    }

    /// The labels of this assignment and the given one.
    pub fn with(&self, alloc: Global, label: Label) -> Result<Assignment, Memory>
        ensures { IfOk result (λ a. (k : ℕ) → shown_by a k ≡ (label == k || shown_by self.now k)) }
    {
        let mut more = self.copy(alloc)?;
        more.add(label)?;
        Ok(more)
    }

    /// Shows this label. It may be shown already.
    pub fn add(&mut self, label: Label) -> Result<(), Memory>
        ensures added { OnOk result ((k : ℕ)
            → shown_by self.new k ≡ (label == k || shown_by self.old k)) }
        ensures kept { OnErr result (self.new ≡ self.old) }
    {
        add_among(&mut self.labels, label)
    }

    /// Hides this label. It may be hidden already.
    pub fn remove(&mut self, label: Label)
        ensures { (k : ℕ) → shown_by self.new k ≡ (not (label == k) && shown_by self.old k) }
    {
        remove_among(&mut self.labels, label);
    }

    pub fn copy(&self, alloc: Global) -> Result<Assignment, Memory>
        ensures { IfOk result (λ a. a ≡ self.now) }
    {
        let labels = Vec::from_slice(alloc, self.labels.as_slice())?;
        Ok(Assignment { labels })
    }
}
