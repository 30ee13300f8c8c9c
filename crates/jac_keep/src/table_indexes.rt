//! The indexes of a state's tables.
ghost use Rattle.std.specs.Prelude.{◌≡◌, ◌==◌, ◌<◌, ℕ, false, List, length, Some, None, if◌then◌else◌, IfOk, OnOk};
ghost use Rattle.jac_rows.specs.declared.row.Row.{Row as Seen};
ghost use Rattle.jac_rows.specs.Tables.{rows_of};
ghost use Rattle.jac_value.specs.Ids.{model_of_id};
ghost use Rattle.jac_keep.specs.Records.{AreOf, AreOrdered};
ghost use Rattle.jac_keep.specs.Alterations.{alters, overlaid};
ghost use Rattle.jac_keep.specs.MatchingRecords.{holders};
ghost use Rattle.jac_keep.specs.Indexed.{index_at, AreIndexesOf, IndexesModel, Remains, IsIndexKept};

use crate::Alteration;
use crate::table_index::TableIndex;
use jac_rows::{Row, Rows};
use jac_value::{Memory, Value, id_model};
use std::alloc::Global;
use std::collections::BTreeMap;

/// The indexes of the tables that values were sought in.
#[derive(Debug, Drop)]
pub struct TableIndexes {
    models: BTreeMap<u8, TableIndex>,
}

impl TableIndexes {
    pub fn none(alloc: Global) -> TableIndexes
        ensures { (tables : List (List Seen)) → AreIndexesOf tables result }
    {
        TableIndexes {
            models: BTreeMap::new(alloc),
        }
    }

    /// All alternatives of the records of the model that have an alternative with the value in the
    /// field.
    pub fn find(
        &mut self,
        alloc: Global,
        rows: &[Row],
        model: u8,
        field: u8,
        value: &Value,
    ) -> Result<Rows, Memory>
        requires ordered { AreOrdered rows.now }
        requires right { (tables : List (List Seen)) × (AreIndexesOf tables self.old
            × (rows_of tables model ≡ rows.now)) }
        ensures found { IfOk result (λ found. found ≡ holders field value.now rows.now) }
        ensures right { (tables : List (List Seen)) → rows_of tables model ≡ rows.now
            → AreIndexesOf tables self.old → AreIndexesOf tables self.new }
    {
        self.open(alloc, model)?;
        self.find_in(alloc, rows, model, field, value)
    }

    fn open(&mut self, alloc: Global, model: u8) -> Result<(), Memory>
        ensures right { (tables : List (List Seen)) → AreIndexesOf tables self.old
            → AreIndexesOf tables self.new }
        ensures opened { OnOk result (IndexesModel model self.new) }
    {
        if self.models.contains_key(&model) {
            return Ok(());
        }
        self.models.insert(model, TableIndex::new(alloc))?;
        Ok(())
    }

    fn find_in(
        &mut self,
        alloc: Global,
        rows: &[Row],
        model: u8,
        field: u8,
        value: &Value,
    ) -> Result<Rows, Memory>
        requires ordered { AreOrdered rows.now }
        requires right { (tables : List (List Seen)) × (AreIndexesOf tables self.old
            × (rows_of tables model ≡ rows.now)) }
        requires opened { IndexesModel model self.old }
        ensures found { IfOk result (λ found. found ≡ holders field value.now rows.now) }
        ensures right { (tables : List (List Seen)) → rows_of tables model ≡ rows.now
            → AreIndexesOf tables self.old → AreIndexesOf tables self.new }
    {
        match self.models.get_mut(&model) {
            Some(index) => index.find(alloc, rows, field, value),
            None => unreachable!(),
        }
    }

    /// Updates the index of the altered record's table. `rows` are those before the alteration. The
    /// index is dropped if the table was empty, or if there isn't enough memory.
    pub fn alter_one(
        &mut self,
        alloc: Global,
        rows: &[Row],
        alteration: &Alteration,
    ) -> Result<(), Memory>
        requires ordered { AreOrdered rows.now }
        requires own { AreOf alteration.now.id alteration.now.rows }
        ensures left { Remains alteration.now.id rows.now alteration.now.rows
            (index_at (model_of_id alteration.now.id) self.old)
            (index_at (model_of_id alteration.now.id) self.new) }
        ensures others { (m : ℕ) → (model_of_id alteration.now.id == m) ≡ false
            → index_at m self.new ≡ index_at m self.old }
        ensures kept { OnOk result (0 < length rows.now
            → IsIndexKept (index_at (model_of_id alteration.now.id) self.old)
            (index_at (model_of_id alteration.now.id) self.new)) }
    {
        match self.models.remove(&id_model(alteration.id)) {
            Some(index) => self.put_altered(alloc, index, rows, alteration),
            None => Ok(()),
        }
    }

    // Puts the index after the record is altered, unless the table is empty.
    fn put_altered(
        &mut self,
        alloc: Global,
        index: TableIndex,
        rows: &[Row],
        alteration: &Alteration,
    ) -> Result<(), Memory>
        requires ordered { AreOrdered rows.now }
        requires own { AreOf alteration.now.id alteration.now.rows }
        requires none { index_at (model_of_id alteration.now.id) self.old ≡ None }
        ensures left { Remains alteration.now.id rows.now alteration.now.rows (Some index)
            (index_at (model_of_id alteration.now.id) self.new) }
        ensures others { (m : ℕ) → (model_of_id alteration.now.id == m) ≡ false
            → index_at m self.new ≡ index_at m self.old }
        ensures kept { OnOk result (0 < length rows.now
            → IsIndexKept (Some index) (index_at (model_of_id alteration.now.id) self.new)) }
    {
        if rows.is_empty() {
            return Ok(());
        }
        let after = index.altered(alloc, rows, alteration)?;
        self.models.insert(id_model(alteration.id), after)?;
        Ok(())
    }

    /// Drops the indexes of the tables of altered records. It takes no memory.
    pub fn forget(&mut self, changed: &[Alteration])
        ensures left { (m : ℕ) → index_at m self.new ≡ (if alters m changed.now then None
            else index_at m self.old) }
        ensures right { (tables : List (List Seen)) → AreIndexesOf tables self.old
            → AreIndexesOf (overlaid changed.now tables) self.new }
    {
        'changed: for alteration in changed {
            self.forget_one(id_model(alteration.id));
        }
    }

    /// Drops the index of the model. It takes no memory.
    pub fn forget_one(&mut self, model: u8)
        ensures { (m : ℕ) → index_at m self.new ≡ (if model == m then None
            else index_at m self.old) }
    {
        let _ = self.models.remove(&model);
    }
}
