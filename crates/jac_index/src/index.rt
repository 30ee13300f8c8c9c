ghost use Rattle.std.specs.Prelude.{◌≡◌, ◌==◌, ◌||◌, ◌&&◌, not, ℕ, Bool, false, IfOk, OnOk, OnErr};
ghost use Rattle.jac_world.specs.World.{shown_by, IsAscending};
ghost use Rattle.jac_value.specs.declared.value.Value.{Value as Cell};
ghost use Rattle.jac_index.specs.Triples.{has_triple, AreSame, IsAdded, IsRemoved, HasField};

use crate::ByValue;
use jac_value::{Id, Ids, Memory, Value};
use std::alloc::Global;
use std::collections::BTreeMap;

/// An index of the fields of records: triples of a field, a value and the id of a record that has
/// the value in the field.
#[derive(Debug, Drop)]
pub struct Index {
    fields: BTreeMap<u8, ByValue>,
}

impl Index {
    pub fn new(alloc: Global) -> Index
        ensures { (f : ℕ) (v : Cell) (id : ℕ) → has_triple result f v id ≡ false }
    {
        Index {
            fields: BTreeMap::new(alloc),
        }
    }

    /// Adds the triple.
    pub fn add(&mut self, alloc: Global, field: u8, value: &Value, id: Id) -> Result<(), Memory>
        ensures added { OnOk result (IsAdded field value.now id self.old self.new) }
        ensures kept { OnErr result (AreSame self.old self.new) }
    {
        self.open(alloc, field)?;
        self.add_in(alloc, field, value, id)
    }

    // Makes an entry for the field, unless there is one.
    fn open(&mut self, alloc: Global, field: u8) -> Result<(), Memory>
        ensures same { AreSame self.old self.new }
        ensures opened { OnOk result (HasField field self.new) }
    {
        if self.fields.contains_key(&field) {
            return Ok(());
        }
        self.fields.insert(field, ByValue::new(alloc))?;
        Ok(())
    }

    fn add_in(&mut self, alloc: Global, field: u8, value: &Value, id: Id) -> Result<(), Memory>
        requires { HasField field self.old }
        ensures added { OnOk result (IsAdded field value.now id self.old self.new) }
        ensures kept { OnErr result (AreSame self.old self.new) }
    {
        match self.fields.get_mut(&field) {
            Some(values) => values.add(alloc, value, id),
            None => unreachable!(),
        }
    }

    /// Removes the triple. It takes no memory.
    pub fn remove(&mut self, field: u8, value: &Value, id: Id)
        ensures { IsRemoved field value.now id self.old self.new }
    {
        if let Some(values) = self.fields.get_mut(&field) {
            values.remove(value, id);
        }
    }

    /// The records that have the value in the field, by rising id, each once.
    pub fn find(&self, alloc: Global, field: u8, value: &Value) -> Result<Ids, Memory>
        ensures found { IfOk result (λ ids. (k : ℕ) → shown_by ids k ≡ has_triple self.now field
            value.now k) }
        ensures ascending { IfOk result IsAscending }
    {
        match self.fields.get(&field) {
            Some(values) => values.find(alloc, value),
            None => Ok(Ids::empty(alloc)),
        }
    }
}
