ghost use Rattle.std.specs.Prelude.{◌≡◌, ◌==◌, ◌||◌, ℕ, IfOk};
ghost use Rattle.std.specs.List.{slice_split};
ghost use Rattle.jac_world.specs.World.{shown_by};
ghost use Rattle.jac_cli.specs.Words.{label_of_word, labels_of_word, labels_of_parts};

use super::numbers::number_within;
use jac_value::{Memory, first_part};
use jac_world::{Assignment, Label};
use std::alloc::Global;
use std::marker::Model;

/// Labels as they were written, in any order.
#[derive(Drop)]
pub struct Labels {
    labels: Vec<Label>,
}

impl Model for Labels {
    ghost use Rattle.std.specs.Prelude.{List, ℕ};

    ghost Value = { List ℕ };

    ghost view = { λ a. a.labels.items };
}

impl Labels {
    pub fn as_slice(&self) -> &[Label]
        ensures { result.now ≡ self.now }
    {
        self.labels.as_slice()
    }

    /// The assignment that shows these labels and no other.
    pub fn assignment(&self, alloc: Global) -> Result<Assignment, Memory>
        ensures { IfOk result (λ a. (k : ℕ) → shown_by a k ≡ shown_by self.now k) }
    {
        let mut assignment = Assignment::empty(alloc);
        let mut left = self.labels.as_slice();
        'labels: while let Some((label, rest)) = left.split_first() {
            assignment = with_label(alloc, &assignment, *label)?;
            left = rest;
        }
        Ok(assignment)
    }
}

fn with_label(alloc: Global, assignment: &Assignment, label: Label) -> Result<Assignment, Memory>
    ensures { IfOk result (λ a. (k : ℕ) → shown_by a k ≡ (label == k
        || shown_by assignment.now k)) }
{
    match assignment.with(alloc, label) {
        Ok(more) => Ok(more),
        Err(_) => Err(Memory),
    }
}

/// The labels that a word writes: `-` for none, or numbers separated by commas.
pub(super) fn labels_of(alloc: Global, word: &[u8]) -> Result<Option<Labels>, Memory>
    ensures { IfOk result (λ labels. labels ≡ labels_of_word word.now) }
{
    if word == b"-".as_slice() {
        return Ok(Some(Labels {
            labels: Vec::new(alloc),
        }));
    }
    labels_of_parts(alloc, word)
}

fn labels_of_parts(alloc: Global, word: &[u8]) -> Result<Option<Labels>, Memory>
    ensures { IfOk result (λ labels. labels ≡ labels_of_parts (slice_split (λ b. b == 44)
        word.now)) }
{
    let mut labels = Vec::new(alloc);
    let mut left = Some(word);
    'parts: while let Some(bytes) = left {
        let (part, rest) = first_part(bytes, b',');
        match label_of(part) {
            Some(label) => labels.push(label)?,
            None => return Ok(None),
        }
        left = rest;
    }
    Ok(Some(Labels { labels }))
}

fn label_of(word: &[u8]) -> Option<Label>
    ensures { result ≡ label_of_word word.now }
{
    match number_within(word, 0, u128::MAX) {
        Some(number) => Some(Label(number)),
        None => None,
    }
}
