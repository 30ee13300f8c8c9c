//! Labels in rising order, each once. They are searched by bisection and changed in place.
ghost use Rattle.std.specs.Prelude.{◌≡◌, ℕ, true, [], ◌∷◌, ◌++◌, not, ◌==◌, ◌||◌, ◌&&◌, OnOk, OnErr, IsTrue};
ghost use Rattle.jac_world.specs.World.{shown_by, IsAscending};

use crate::Label;
use jac_value::Memory;

/// Whether the label is among the labels. It takes logarithmic time in their number.
pub fn is_among(labels: &[Label], label: Label) -> bool
    requires { IsAscending labels.now }
    ensures { result ≡ shown_by labels.now label }
{
    labels.binary_search(&label).is_ok()
}

/// Inserts the label, unless it is there already. If it is the last label or above it, there is no
/// bisection.
pub fn add_among(labels: &mut Vec<Label>, label: Label) -> Result<(), Memory>
    requires { IsAscending labels.old.items }
    ensures added { OnOk result ((k : ℕ) → shown_by labels.new.items k
        ≡ (label == k || shown_by labels.old.items k)) }
    ensures ascending { IsAscending labels.new.items }
    ensures kept { OnErr result (labels.new.items ≡ labels.old.items) }
{
    if is_last(labels.as_slice(), label) {
        return Ok(());
    }
    if is_above(labels.as_slice(), label) {
        labels.push(label)?;
        return Ok(());
    }
    add_between(labels, label)
}

// Whether the label is the last of the labels.
fn is_last(labels: &[Label], label: Label) -> bool
    ensures { IsTrue result → shown_by labels.now label ≡ true }
{
    let count = labels.len();
    if count == 0 {
        return false;
    }
    labels[count - 1] == label
}

// Whether the label is above the last of the labels.
fn is_above(labels: &[Label], label: Label) -> bool
    requires { IsAscending labels.now }
    ensures { IsTrue result → IsAscending (labels.now ++ label ∷ []) }
{
    let count = labels.len();
    if count == 0 {
        return false;
    }
    labels[count - 1] < label
}

fn add_between(labels: &mut Vec<Label>, label: Label) -> Result<(), Memory>
    requires { IsAscending labels.old.items }
    ensures added { OnOk result ((k : ℕ) → shown_by labels.new.items k
        ≡ (label == k || shown_by labels.old.items k)) }
    ensures ascending { IsAscending labels.new.items }
    ensures kept { OnErr result (labels.new.items ≡ labels.old.items) }
{
    match labels.as_slice().binary_search(&label) {
        Ok(_) => Ok(()),
        Err(place) => {
            labels.insert(place, label)?;
            Ok(())
        }
    }
}

/// Removes the label, if it is there.
pub fn remove_among(labels: &mut Vec<Label>, label: Label)
    requires { IsAscending labels.old.items }
    ensures removed { (k : ℕ) → shown_by labels.new.items k
        ≡ (not (label == k) && shown_by labels.old.items k) }
    ensures ascending { IsAscending labels.new.items }
{
    match labels.as_slice().binary_search(&label) {
        Ok(place) => {
            labels.remove(place);
        }
        Err(_) => {}
    }
}
