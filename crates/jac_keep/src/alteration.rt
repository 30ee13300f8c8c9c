ghost use Rattle.std.specs.Prelude.{◌≡◌, ◌<◌, ◌≤◌, ℕ, List, [], Some, None, true, false, nat_lt, length, All, insert, slice_set, IfOk, OnOk, OnErr, MatchResult};
ghost use Rattle.std.specs.Option.{option_copied};
ghost use Rattle.std.specs.List.{HoldsAt};
ghost use Rattle.std.specs.List.Sorted.{IsPartitionPoint};
ghost use Rattle.jac_world.specs.World.{IsRisingBy};
ghost use Rattle.jac_rows.specs.declared.row.Row.{Row as Seen};
ghost use Rattle.jac_keep.specs.declared.alteration.Alteration.{Alteration as Named};
ghost use Rattle.jac_keep.specs.Alterations.{AreApart, alternatives_named, with_alteration, altered_rows, alters};

use crate::placement::alter_rows;
use jac_rows::Rows;
use jac_value::{Id, Memory, id_model};
use std::alloc::Global;
use std::marker::Model;

/// A record with all its new alternatives. If there are no rows, the record is deleted.
#[derive(Debug, Drop)]
pub struct Alteration {
    pub id: Id,
    pub rows: Rows,
}

impl Alteration {
    pub fn copy(&self, alloc: Global) -> Result<Alteration, Memory>
        ensures { IfOk result (λ a. a ≡ self.now) }
    {
        let rows = self.rows.copy(alloc)?;
        Ok(Alteration { id: self.id, rows })
    }
}

/// Alterations of records, at most one for each, by rising id.
#[derive(Debug, Drop)]
pub struct Alterations {
    changed: Vec<Alteration>,
}

impl Model for Alterations {
    ghost use Rattle.std.specs.Prelude.{List};
    ghost use Rattle.jac_keep.specs.declared.alteration.Alteration.{Alteration as Item};

    ghost Value = { List Item };

    ghost use Rattle.jac_keep.specs.Alterations.{AreApart};

    ghost view = { λ a. a.changed.items };

    ghost invariant = { λ a. AreApart a.changed.items };
}

impl Alterations {
    pub fn empty(alloc: Global) -> Alterations
        ensures { result ≡ [] }
    {
        Alterations {
            changed: Vec::new(alloc),
        }
    }

    pub fn from_vec(changed: Vec<Alteration>) -> Alterations
        requires { AreApart changed.items }
        ensures { result ≡ changed.items }
    {
        Alterations { changed }
    }

    pub fn into_vec(self) -> Vec<Alteration>
        ensures items { result.items ≡ self }
        ensures apart { AreApart self }
    {
        self.changed
    }

    pub fn as_slice(&self) -> &[Alteration]
        ensures items { result.now ≡ self.now }
        ensures apart { AreApart self.now }
    {
        self.changed.as_slice()
    }

    pub fn copy(&self, alloc: Global) -> Result<Alterations, Memory>
        ensures { IfOk result (λ a. a ≡ self.now) }
    {
        let items = self.changed.as_slice();
        let mut changed = Vec::new(alloc);
        'changed: for alteration in items {
            let alteration = alteration.copy(alloc)?;
            changed.push(alteration)?;
        }
        Ok(Alterations { changed })
    }

    /// The new alternatives of the record, if it is altered.
    pub fn find(&self, id: Id) -> Option<&Rows>
        ensures found { option_copied result ≡ alternatives_named id self.now }
        ensures apart { AreApart self.now }
    {
        let items = self.changed.as_slice();
        match place_of(items, id) {
            Ok(at) => Some(&items[at].rows),
            Err(_) => None,
        }
    }

    /// Adds an alteration of the record. It replaces an earlier one of the same record.
    #[tactic(auto, using(crate::proofs::AlteringLaws::apart_put))]
    pub fn put(&mut self, id: Id, rows: Rows) -> Result<(), Memory>
        requires { All (λ (r : Seen). r.id ≡ id) rows }
        ensures put { OnOk result (self.new ≡ with_alteration id rows self.old) }
        ensures apart { AreApart self.old }
    {
        put_in(&mut self.changed, id, rows)?;
        Ok(())
    }

    /// The rows of a model after the alterations of its records.
    pub fn alter(&self, alloc: Global, model: usize, rows: Rows) -> Result<Rows, Memory>
        ensures altered { IfOk result (λ r. r ≡ altered_rows model self.now rows) }
        ensures apart { AreApart self.now }
    {
        let rows = alter_rows(alloc, self.changed.as_slice(), model, rows.into_vec())?;
        Ok(Rows::from_vec(rows))
    }
}

/// Whether a record of the model is altered.
pub fn is_altered(changed: &[Alteration], model: usize) -> bool
    ensures { result ≡ alters model changed.now }
{
    'changed: for alteration in changed {
        if usize::from(id_model(alteration.id)) == model {
            return true;
        }
    }
    false
}

// Adds an alteration of the record. It replaces an earlier one of the same record.
fn put_in(changed: &mut Vec<Alteration>, id: Id, rows: Rows) -> Result<(), Memory>
    requires { IsRisingBy (λ (a : Named). a.id) changed.old.items }
    ensures ok { OnOk result (changed.new.items ≡ with_alteration id rows changed.old.items) }
    ensures err { OnErr result (changed.new.items ≡ changed.old.items) }
{
    match place_of(changed.as_slice(), id) {
        Ok(at) => changed[at] = Alteration { id, rows },
        Err(at) => changed.insert(at, Alteration { id, rows })?,
    }
    Ok(())
}

// The place of the record's alteration (`Ok`), or the place where it is to be inserted (`Err`).
fn place_of(items: &[Alteration], id: Id) -> Result<usize, usize>
    requires { IsRisingBy (λ (a : Named). a.id) items.now }
    ensures within { MatchResult result (λ at. at < length items.now)
        (λ at. at ≤ length items.now) }
    ensures place { MatchResult result (λ at. (rows : List Seen) → with_alteration id rows items.now
        ≡ slice_set items.now at (record { id = id; rows = rows })) (λ at. (rows : List Seen)
        → with_alteration id rows items.now ≡ insert items.now at
        (record { id = id; rows = rows })) }
    ensures named { MatchResult result (λ at. HoldsAt (λ
        (a : Named). alternatives_named id items.now
        ≡ Some a.rows) items.now at) (λ _. alternatives_named id items.now ≡ None) }
{
    let at = count_below(items, id);
    if at == items.len() {
        return Err(at);
    }
    if items[at].id == id { Ok(at) } else { Err(at) }
}

// The number of alterations with lesser ids.
fn count_below(items: &[Alteration], id: Id) -> usize
    requires { IsRisingBy (λ (a : Named). a.id) items.now }
    ensures within { result ≤ length items.now }
    ensures point { IsPartitionPoint (λ (a : Named). nat_lt a.id id ≡ true) (λ a. nat_lt a.id id
        ≡ false) items.now result }
{
    items.partition_point(|alteration| alteration.id < id)
}

/// What a request leaves: the records that it altered, and the next number.
#[derive(Debug, Drop)]
pub struct Change {
    pub changed: Alterations,
    pub number: u64,
}
