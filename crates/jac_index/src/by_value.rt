ghost use Rattle.std.specs.Prelude.{◌≡◌, ◌==◌, ◌||◌, ◌&&◌, not, ℕ, Bool, false, IfOk, OnOk, OnErr, IsTrue};
ghost use Rattle.jac_world.specs.World.{shown_by, IsAscending};
ghost use Rattle.jac_value.specs.declared.value.Value.{Value as Cell};
ghost use Rattle.jac_index.specs.Triples.{is_same_value, has_index_pair, IsPairAdded, IsPairRemoved};

use crate::RisingIds;
use jac_value::{Id, Ids, Memory, Value};
use std::alloc::Global;
use std::collections::BTreeMap;

/// An index of one field: the ids of records by the value of the field.
#[derive(Debug, Drop)]
pub struct ByValue {
    ids: BTreeMap<Value, RisingIds>,
}

impl ByValue {
    pub fn new(alloc: Global) -> ByValue
        ensures { (v : Cell) (id : ℕ) → has_index_pair result v id ≡ false }
    {
        ByValue {
            ids: BTreeMap::new(alloc),
        }
    }

    /// Adds the record under the value.
    pub fn add(&mut self, alloc: Global, value: &Value, id: Id) -> Result<(), Memory>
        ensures added { OnOk result (IsPairAdded value.now id self.old self.new) }
        ensures kept { OnErr result ((v : Cell) (k : ℕ) → has_index_pair self.new v k
            ≡ has_index_pair self.old
            v k) }
    {
        if self.ids.contains_key(value) {
            self.add_more(value, id)
        } else {
            self.add_first(alloc, value, id)
        }
    }

    fn add_more(&mut self, value: &Value, id: Id) -> Result<(), Memory>
        ensures added { OnOk result (IsPairAdded value.now id self.old self.new) }
        ensures kept { OnErr result ((v : Cell) (k : ℕ) → has_index_pair self.new v k
            ≡ has_index_pair self.old
            v k) }
    {
        match self.ids.get_mut(value) {
            Some(ids) => ids.add(id),
            None => Err(Memory),
        }
    }

    fn add_first(&mut self, alloc: Global, value: &Value, id: Id) -> Result<(), Memory>
        requires { (k : ℕ) → has_index_pair self.old value.now k ≡ false }
        ensures added { OnOk result (IsPairAdded value.now id self.old self.new) }
        ensures kept { OnErr result ((v : Cell) (k : ℕ) → has_index_pair self.new v k
            ≡ has_index_pair self.old
            v k) }
    {
        let mut ids = RisingIds::empty(alloc);
        ids.add(id)?;
        let key = value.copy(alloc)?;
        self.ids.insert(key, ids)?;
        Ok(())
    }

    /// Removes the record under the value. A value without records is removed too. It takes no
    /// memory.
    pub fn remove(&mut self, value: &Value, id: Id)
        ensures { IsPairRemoved value.now id self.old self.new }
    {
        if self.remove_id(value, id) {
            self.close(value);
        }
    }

    // Removes the record under the value. The result is true if the value has an entry without
    // records.
    fn remove_id(&mut self, value: &Value, id: Id) -> bool
        ensures removed { IsPairRemoved value.now id self.old self.new }
        ensures none { IsTrue result → (k : ℕ) → has_index_pair self.new value.now k ≡ false }
    {
        match self.ids.get_mut(value) {
            Some(ids) => {
                ids.remove(id);
                ids.is_empty()
            }
            None => false,
        }
    }

    // Removes the entry of a value without records.
    fn close(&mut self, value: &Value)
        requires { (k : ℕ) → has_index_pair self.old value.now k ≡ false }
        ensures { (v : Cell) (k : ℕ) → has_index_pair self.new v k ≡ has_index_pair self.old v k }
    {
        let _ = self.ids.remove(value);
    }

    /// The records under the value, by rising id, each once.
    pub fn find(&self, alloc: Global, value: &Value) -> Result<Ids, Memory>
        ensures found { IfOk result (λ ids. (k : ℕ) → shown_by ids k
            ≡ has_index_pair self.now value.now k) }
        ensures ascending { IfOk result IsAscending }
    {
        match self.ids.get(value) {
            Some(ids) => {
                let found = Vec::from_slice(alloc, ids.as_slice())?;
                Ok(Ids::from_vec(found))
            }
            None => Ok(Ids::empty(alloc)),
        }
    }
}
