//! Labels and their text.
ghost use Rattle.std.specs.Prelude.{◌≡◌, ◌++◌, [], OnOk};
ghost use Rattle.std.specs.String.{string_bytes};
ghost use Rattle.jac_replies.specs.Spelled.{more_labels};

use crate::reply::put_more;
use jac_value::Memory;
use jac_world::Label;
use std::alloc::Global;
use std::marker::Model;

/// Labels, and the text with each of them after a comma.
#[derive(Drop)]
pub struct LabelText {
    labels: Vec<Label>,
    text: String,
}

impl Model for LabelText {
    ghost use Rattle.std.specs.Prelude.{◌≡◌, List, ℕ};
    ghost use Rattle.std.specs.String.{string_bytes};
    ghost use Rattle.jac_replies.specs.Spelled.{more_labels};

    ghost Value = { List ℕ };

    ghost view = { λ t. t.labels.items };

    ghost invariant = { λ t. string_bytes t.text ≡ more_labels t.labels.items };
}

impl LabelText {
    /// No labels, with an empty text.
    pub fn none(alloc: Global) -> LabelText
        ensures { result ≡ [] }
    {
        LabelText {
            labels: Vec::new(alloc),
            text: String::new(alloc),
        }
    }

    /// The number of labels.
    pub fn len(&self) -> usize {
        self.labels.len()
    }

    /// Adds the text of these labels. If they begin with the labels of the last call, only the
    /// others are written anew.
    pub fn put(&mut self, labels: &[Label], to: &mut String) -> Result<(), Memory>
        ensures { OnOk result (string_bytes to.new ≡ string_bytes to.old
            ++ more_labels labels.now) }
    {
        follow(&mut self.labels, &mut self.text, labels)?;
        to.push_str(self.text.as_str())?;
        Ok(())
    }
}

// Makes the text that of these labels. If this is out of memory, it becomes the text of no labels.
fn follow(kept: &mut Vec<Label>, text: &mut String, labels: &[Label]) -> Result<(), Memory>
    requires { string_bytes text.old ≡ more_labels kept.old.items }
    ensures followed { OnOk result (kept.new.items ≡ labels.now) }
    ensures kept { string_bytes text.new ≡ more_labels kept.new.items }
{
    match labels.strip_prefix(kept.as_slice()) {
        Some(more) => add(kept, text, more),
        None => {
            kept.clear();
            text.clear();
            add(kept, text, labels)
        }
    }
}

// Adds labels to a text. If this is out of memory, it becomes the text of no labels.
fn add(kept: &mut Vec<Label>, text: &mut String, labels: &[Label]) -> Result<(), Memory>
    requires { string_bytes text.old ≡ more_labels kept.old.items }
    ensures added { OnOk result (kept.new.items ≡ kept.old.items ++ labels.now) }
    ensures kept { string_bytes text.new ≡ more_labels kept.new.items }
{
    match add_both(kept, text, labels) {
        Ok(()) => Ok(()),
        Err(Memory) => {
            kept.clear();
            text.clear();
            Err(Memory)
        }
    }
}

fn add_both(kept: &mut Vec<Label>, text: &mut String, labels: &[Label]) -> Result<(), Memory>
    ensures kept { OnOk result (kept.new.items ≡ kept.old.items ++ labels.now) }
    ensures text { OnOk result (string_bytes text.new
        ≡ string_bytes text.old ++ more_labels labels.now) }
{
    put_more(labels, text)?;
    kept.extend_from_slice(labels)?;
    Ok(())
}
