//! The labels that were consulted.
ghost use Rattle.std.specs.Prelude.{◌≡◌, ◌==◌, ◌||◌, ℕ, [], Bool, true, Option, IfOk, OnOk, IsTrue};
ghost use Rattle.jac_world.specs.World.{shown_by, holds, names, IsAscending};
ghost use Rattle.jac_shown_rows.specs.Consulted.{Agrees, Grows};
ghost use Rattle.jac_shown_rows.specs.Own.{IsOwn, names_own};

use crate::recent_places::RecentPlaces;
use jac_keep::Place;
use jac_value::{Id, Memory};
use jac_world::{Assignment, Label, add_among, is_among};
use std::alloc::Global;
use std::marker::Model;

/// The labels that were consulted, by rising number. Labels are only added. What was found is right
/// under each assignment that agrees on them.
///
/// Labels are mostly consulted by rising number, or repeatedly. So each is first looked for at the
/// place of the one before it. No answer depends on that place.
#[derive(Drop)]
pub struct Support {
    labels: Vec<Label>,
    // The place of the label that was consulted last.
    last: usize,
    // The place, in an assignment, of the label that was found last.
    near: usize,
    // Where the rows of records were found.
    recent: RecentPlaces,
}

impl Model for Support {
    ghost use Rattle.std.specs.Prelude.{List, ℕ};
    ghost use Rattle.jac_world.specs.World.{IsAscending};

    ghost Value = { List ℕ };

    ghost view = { λ s. s.labels.items };

    ghost invariant = { λ s. IsAscending s.labels.items };
}

impl Support {
    pub fn empty(alloc: Global) -> Support
        ensures { result ≡ [] }
    {
        Support {
            labels: Vec::new(alloc),
            last: 0,
            near: 0,
            recent: RecentPlaces::none(),
        }
    }

    pub fn as_slice(&self) -> &[Label]
        ensures labels { result.now ≡ self.now }
        ensures ascending { IsAscending self.now }
    {
        self.labels.as_slice()
    }

    /// Whether the label was consulted.
    pub fn has(&self, label: Label) -> bool
        ensures { result ≡ shown_by self.now label }
    {
        is_among(self.as_slice(), label)
    }

    /// Adds this label.
    pub fn add(&mut self, label: Label) -> Result<(), Memory>
        ensures added { OnOk result ((k : ℕ)
            → shown_by self.new k ≡ (label == k || shown_by self.old k)) }
        ensures grows { Grows self.old self.new }
    {
        add_near(&mut self.labels, label, &mut self.last)
    }

    /// Where the record's rows were found, if no other record of its model was looked up later.
    pub fn place_of(&self, id: Id) -> Option<Place> {
        self.recent.place_of(id)
    }

    /// Keeps where the record's rows were found. No answer depends on it.
    pub fn keep_place(&mut self, id: Id, place: Place)
        ensures { self.new ≡ self.old }
    {
        self.recent.keep(id, place);
    }

    // Whether the guard of these pairs holds.
    fn meets(&mut self, pairs: &[(Label, bool)], assignment: &Assignment) -> bool
        ensures met { result ≡ holds (shown_by assignment.now) pairs.now }
        ensures same { self.new ≡ self.old }
    {
        are_met(pairs, assignment, &mut self.near)
    }
}

// Adds this label. It is first looked for at the place.
fn add_near(labels: &mut Vec<Label>, label: Label, last: &mut usize) -> Result<(), Memory>
    requires { IsAscending labels.old.items }
    ensures added { OnOk result ((k : ℕ) → shown_by labels.new.items k
        ≡ (label == k || shown_by labels.old.items k)) }
    ensures ascending { IsAscending labels.new.items }
    ensures grows { Grows labels.old.items labels.new.items }
{
    if was_consulted(labels.as_slice(), label, last) {
        return Ok(());
    }
    add_label(labels, label)
}

// Whether the label is among the labels. A label above all of them isn't looked for.
fn was_consulted(labels: &[Label], label: Label, last: &mut usize) -> bool
    requires { IsAscending labels.now }
    ensures { result ≡ true → shown_by labels.now label ≡ true }
{
    if is_above(labels, label) {
        return false;
    }
    is_shown(labels, label, last)
}

fn is_above(labels: &[Label], label: Label) -> bool {
    match labels.last() {
        Some(greatest) => *greatest < label,
        None => true,
    }
}

fn add_label(labels: &mut Vec<Label>, label: Label) -> Result<(), Memory>
    requires { IsAscending labels.old.items }
    ensures added { OnOk result ((k : ℕ) → shown_by labels.new.items k
        ≡ (label == k || shown_by labels.old.items k)) }
    ensures ascending { IsAscending labels.new.items }
    ensures grows { Grows labels.old.items labels.new.items }
{
    match add_among(labels, label) {
        Ok(()) => Ok(()),
        Err(_) => Err(Memory),
    }
}

/// Whether the guard of these pairs holds. All its labels are consulted. Under each assignment that
/// agrees on the support, the answer is the same.
pub fn consult(
    pairs: &[(Label, bool)],
    assignment: &Assignment,
    support: &mut Support,
) -> Result<bool, Memory>
    ensures value { IfOk result (λ b. (w : ℕ → Bool) → Agrees support.new
        (shown_by assignment.now) w
        → b ≡ holds w pairs.now) }
    ensures consulted { OnOk result ((k : ℕ) → names pairs.now k ≡ true
        → shown_by support.new k ≡ true) }
    ensures grows { Grows support.old support.new }
    ensures own { (this : Option ℕ) → names_own this pairs.now ≡ true → IsOwn this support.old
        → OnOk result (IsOwn this support.new) }
{
    add_labels(pairs, support)?;
    Ok(support.meets(pairs, assignment))
}

// Whether the guard of these pairs holds. A single label is first looked for near the place.
fn are_met(pairs: &[(Label, bool)], assignment: &Assignment, near: &mut usize) -> bool
    ensures { result ≡ holds (shown_by assignment.now) pairs.now }
{
    match pairs {
        [pair] => pair.1 == is_shown(assignment.as_slice(), pair.0, near),
        _ => are_all_met(pairs, assignment),
    }
}

fn are_all_met(pairs: &[(Label, bool)], assignment: &Assignment) -> bool
    ensures { result ≡ holds (shown_by assignment.now) pairs.now }
{
    pairs.iter().all(|pair| pair.1 == assignment.shows(pair.0))
}

// Whether the label is among those that are shown. It is looked for at the place, then after it,
// then by bisection. If it is found, `near` is then its place.
fn is_shown(shown: &[Label], label: Label, near: &mut usize) -> bool
    requires { IsAscending shown.now }
    ensures { result ≡ shown_by shown.now label }
{
    if stands_at(shown, *near, label) {
        return true;
    }
    let next = near.saturating_add(1);
    if stands_at(shown, next, label) {
        *near = next;
        return true;
    }
    is_found(shown, label, near)
}

fn stands_at(shown: &[Label], place: usize, label: Label) -> bool
    ensures { IsTrue result → shown_by shown.now label ≡ true }
{
    if place >= shown.len() {
        return false;
    }
    shown[place] == label
}

fn is_found(shown: &[Label], label: Label, near: &mut usize) -> bool
    requires { IsAscending shown.now }
    ensures { result ≡ shown_by shown.now label }
{
    let found = shown.binary_search(&label);
    if let Ok(place) = &found {
        *near = *place;
    }
    found.is_ok()
}

fn add_labels(pairs: &[(Label, bool)], support: &mut Support) -> Result<(), Memory>
    ensures consulted { OnOk result ((k : ℕ) → names pairs.now k ≡ true
        → shown_by support.new k ≡ true) }
    ensures grows { Grows support.old support.new }
    ensures own { (this : Option ℕ) → names_own this pairs.now ≡ true → IsOwn this support.old
        → OnOk result (IsOwn this support.new) }
{
    'pairs: for pair in pairs {
        support.add(pair.0)?;
    }
    Ok(())
}
