//! A set of ids in rising order. It is searched by bisection, and changed in place.
ghost use Rattle.std.specs.Prelude.{◌≡◌, ◌==◌, ◌||◌, ◌&&◌, not, ℕ, [], false, OnOk, OnErr, IsTrue};
ghost use Rattle.jac_world.specs.World.{shown_by, IsAscending};

use jac_value::{Id, Memory};
use std::alloc::Global;
use std::marker::Model;

/// A set of ids in rising order.
#[derive(Debug, Drop)]
pub struct RisingIds {
    ids: Vec<Id>,
}

impl Model for RisingIds {
    ghost use Rattle.std.specs.Prelude.{List, ℕ};
    ghost use Rattle.jac_world.specs.World.{IsAscending};

    ghost Value = { List ℕ };

    ghost view = { λ i. i.ids.items };

    ghost invariant = { λ i. IsAscending i.ids.items };
}

impl RisingIds {
    pub fn empty(alloc: Global) -> RisingIds
        ensures { result ≡ [] }
    {
        RisingIds {
            ids: Vec::new(alloc),
        }
    }

    pub fn as_slice(&self) -> &[Id]
        ensures ids { result.now ≡ self.now }
        ensures ascending { IsAscending self.now }
    {
        self.ids.as_slice()
    }

    pub fn is_empty(&self) -> bool
        ensures { IsTrue result → (k : ℕ) → shown_by self.now k ≡ false }
    {
        self.ids.is_empty()
    }

    pub fn has(&self, id: Id) -> bool
        ensures { result ≡ shown_by self.now id }
    {
        is_among(self.as_slice(), id)
    }

    /// Adds the id, unless it is there.
    pub fn add(&mut self, id: Id) -> Result<(), Memory>
        ensures added { OnOk result ((k : ℕ) → shown_by self.new k ≡ (id == k
            || shown_by self.old k)) }
        ensures kept { OnErr result (self.new ≡ self.old) }
    {
        add_id(&mut self.ids, id)
    }

    /// Removes the id, if it is there. It takes no memory.
    pub fn remove(&mut self, id: Id)
        ensures { (k : ℕ) → shown_by self.new k ≡ (not (id == k) && shown_by self.old k) }
    {
        remove_id(&mut self.ids, id);
    }
}

fn is_among(ids: &[Id], id: Id) -> bool
    requires { IsAscending ids.now }
    ensures { result ≡ shown_by ids.now id }
{
    ids.binary_search(&id).is_ok()
}

fn add_id(ids: &mut Vec<Id>, id: Id) -> Result<(), Memory>
    requires { IsAscending ids.old.items }
    ensures added { OnOk result ((k : ℕ)
        → shown_by ids.new.items k ≡ (id == k || shown_by ids.old.items k)) }
    ensures ascending { IsAscending ids.new.items }
    ensures kept { OnErr result (ids.new.items ≡ ids.old.items) }
{
    match ids.as_slice().binary_search(&id) {
        Ok(_) => Ok(()),
        Err(place) => {
            ids.insert(place, id)?;
            Ok(())
        }
    }
}

fn remove_id(ids: &mut Vec<Id>, id: Id)
    requires { IsAscending ids.old.items }
    ensures removed { (k : ℕ) → shown_by ids.new.items k ≡ (not (id == k)
        && shown_by ids.old.items k) }
    ensures ascending { IsAscending ids.new.items }
{
    match ids.as_slice().binary_search(&id) {
        Ok(place) => {
            ids.remove(place);
        }
        Err(_) => {}
    }
}
