//! The indexes of one table.
ghost use Rattle.std.specs.Prelude.{◌≡◌, ℕ, List, IfOk, OnOk};
ghost use Rattle.jac_rows.specs.declared.row.Row.{Row as Seen};
ghost use Rattle.jac_world.specs.World.{shown_by, IsAscending};
ghost use Rattle.jac_keep.specs.Records.{AreOf, AreOrdered, alternatives};
ghost use Rattle.jac_keep.specs.MatchingRecords.{holds_cell, holders};
ghost use Rattle.jac_keep.specs.Indexed.{IsIndexOf, IndexesField, Follows, KeepsFields};

use crate::Alteration;
use crate::by_field::index_of;
use crate::fields::{alter_fields, field_of, put_in};
use crate::gatherer::rows_of_ids;
use crate::places::place_in;
use jac_index::ByValue;
use jac_rows::{Row, Rows};
use jac_value::{Ids, Memory, Value};
use std::alloc::Global;

/// The records of a table by the values of fields. A field has an index after the first call of
/// `find` for it.
#[derive(Debug, Drop)]
pub struct TableIndex {
    fields: Vec<Option<ByValue>>,
}

impl TableIndex {
    pub fn new(alloc: Global) -> TableIndex
        ensures { (rows : List Seen) → IsIndexOf rows result }
    {
        TableIndex {
            fields: Vec::new(alloc),
        }
    }

    /// All alternatives of the records that have an alternative with the value in the field. The
    /// first call for a field goes through the whole table.
    pub fn find(
        &mut self,
        alloc: Global,
        rows: &[Row],
        field: u8,
        value: &Value,
    ) -> Result<Rows, Memory>
        requires ordered { AreOrdered rows.now }
        requires right { IsIndexOf rows.now self.old }
        ensures found { IfOk result (λ found. found ≡ holders field value.now rows.now) }
        ensures right { IsIndexOf rows.now self.new }
    {
        self.open(alloc, rows, field)?;
        let ids = self.ids(alloc, rows, field, value)?;
        let found = rows_of_ids(alloc, rows, ids.as_slice())?;
        Ok(found)
    }

    // Makes an index of the field, unless there is one.
    fn open(&mut self, alloc: Global, rows: &[Row], field: u8) -> Result<(), Memory>
        requires { IsIndexOf rows.now self.old }
        ensures right { IsIndexOf rows.now self.new }
        ensures opened { OnOk result (IndexesField field self.new) }
    {
        let place = usize::from(field);
        if field_of(self.fields.as_slice(), place).is_some() {
            return Ok(());
        }
        let made = index_of(alloc, rows, place)?;
        put_in(&mut self.fields, place, made)
    }

    fn ids(&self, alloc: Global, rows: &[Row], field: u8, value: &Value) -> Result<Ids, Memory>
        requires right { IsIndexOf rows.now self.now }
        requires opened { IndexesField field self.now }
        ensures held { IfOk result (λ ids. (k : ℕ) → shown_by ids k ≡ holds_cell field value.now
            rows.now k) }
        ensures ascending { IfOk result IsAscending }
    {
        let _ = rows;
        match field_of(self.fields.as_slice(), usize::from(field)) {
            Some(values) => values.find(alloc, value),
            None => unreachable!(),
        }
    }

    /// The index after the record is altered, with the same fields.
    pub fn altered(
        self,
        alloc: Global,
        rows: &[Row],
        alteration: &Alteration,
    ) -> Result<TableIndex, Memory>
        requires ordered { AreOrdered rows.now }
        requires own { AreOf alteration.now.id alteration.now.rows }
        ensures follows { IfOk result (λ index. Follows alteration.now.id
            (alternatives alteration.now.id rows.now) alteration.now.rows self index) }
        ensures kept { IfOk result (λ index. KeepsFields self index) }
    {
        let place = place_in(rows, alteration.id);
        let (_, from) = rows.split_at(place.start);
        let (own, _) = from.split_at(place.count);
        let fields = alter_fields(alloc, self.fields, own, alteration.rows.as_slice())?;
        Ok(TableIndex { fields })
    }
}
