//! The work of one request: a keeper, and the records that the request replaced.
ghost use Rattle.std.specs.Prelude.{◌≡◌, ◌<◌, ◌≤◌, [], length, All, IfOk, IfSome, IsOkAnd, OnOk, IsTrue};
ghost use Rattle.jac_value.specs.Ids.{model_of_id};
ghost use Rattle.jac_rows.specs.Tables.{rows_of};
ghost use Rattle.jac_keep.specs.Records.{alternatives};
ghost use Rattle.jac_rows.specs.declared.row.Row.{Row as Seen};
ghost use Rattle.jac_keep.specs.MatchingRecords.{holders};
ghost use Rattle.jac_keep.specs.Cause.{HasCause};
ghost use Rattle.jac_keep.specs.ChangedState.{state_with, changed_state};
ghost use Rattle.jac_keep.specs.WorkState.{state_of, IsTold, LeavesKeeper, ReadsWork};

use crate::masks::masked;
use crate::{Alterations, Change, Keeper, Place, Stop, is_altered};
use jac_rows::{Row, Rows};
use jac_value::{Id, Memory, Value};
use std::alloc::Global;

/// The records that a request replaced so far, each with all its alternatives.
pub type Overlay = Alterations;

/// A keeper with replaced records over it, and the allocator for what is made of them. The type
/// parameter `O` for the records lets contracts know the keeper after the work is dropped. Use
/// `Work` instead.
pub struct WorkOver<'k, K: Keeper, O> {
    pub alloc: Global,
    pub keeper: &'k mut K,
    pub over: O,
}

/// The keeper's state, after the replaced records. The keeper's own state isn't changed.
pub type Work<'k, K> = WorkOver<'k, K, Overlay>;

impl<K: Keeper, O: Drop> Drop for WorkOver<'_, K, O> {
    fn drop(self)
        ensures { self.exit.1.0.now ≡ self.entry.keeper.now }
    {
        let WorkOver {
            alloc: _,
            keeper: _,
            over: _,
        } = self;
    }
}

impl<'k, K: Keeper> WorkOver<'k, K, Overlay> {
    #[tactic(auto, using(crate::proofs::WorkLaws::overlaid_none))]
    pub fn new(alloc: Global, keeper: &'k mut K) -> Work<'k, K>
        ensures reference { result.keeper.ghost_name ≡ keeper.entry.ghost_name }
        ensures keeper { result.keeper.now ≡ keeper.old }
        ensures over { result.over ≡ [] }
        ensures state { state_of K.seen result ≡ (K.seen keeper.old).state }
        ensures told { IsTrue (K.seen keeper.old).tells → IsTold K.seen result }
    {
        WorkOver {
            alloc,
            keeper,
            over: Alterations::empty(alloc),
        }
    }

    /// All rows of the model.
    pub fn rows(&mut self, model: u8) -> Result<Rows, Stop>
        requires { IsTrue (K.seen self.old.keeper.now).store.attached }
        ensures exact { IsTold K.seen self.new
            → IfOk result (λ rows. rows ≡ rows_of (state_of K.seen self.old).tables model) }
        ensures reads { ReadsWork K.seen self.old self.new result }
    {
        let rows = self.keeper.rows(self.alloc, model)?;
        let rows = self.over.alter(self.alloc, usize::from(model), rows)?;
        Ok(rows)
    }

    /// All alternatives of the records of the model that have an alternative with the value in the
    /// field.
    pub fn rows_with(&mut self, model: u8, field: u8, value: &Value) -> Result<Rows, Stop>
        requires { IsTrue (K.seen self.old.keeper.now).store.attached }
        ensures exact { IsTold K.seen self.new
            → IfOk result (λ rows. rows ≡ holders field value.now
            (rows_of (state_of K.seen self.old).tables model)) }
        ensures reads { ReadsWork K.seen self.old self.new result }
    {
        let rows = self.keeper.rows_with(self.alloc, model, field, value)?;
        let masks = masked(self.alloc, &self.over, field, value)?;
        let found = masks.alter(self.alloc, usize::from(model), rows)?;
        Ok(found)
    }

    /// The alternatives of one record.
    pub fn one(&mut self, id: Id) -> Result<Rows, Stop>
        requires { IsTrue (K.seen self.old.keeper.now).store.attached }
        ensures exact { IsTold K.seen self.new
            → IfOk result (λ rows. rows ≡ alternatives id (rows_of (state_of K.seen self.old).tables
            (model_of_id id))) }
        ensures reads { ReadsWork K.seen self.old self.new result }
    {
        match self.over.find(id) {
            Some(rows) => {
                let rows = rows.copy(self.alloc)?;
                Ok(rows)
            }
            None => {
                let rows = self.keeper.one(self.alloc, id)?;
                Ok(rows)
            }
        }
    }

    /// The place of the record's alternatives, if they are in memory.
    pub fn look(&mut self, id: Id) -> Result<Option<Place>, Stop>
        requires { IsTrue (K.seen self.old.keeper.now).store.attached }
        ensures { ReadsWork K.seen self.old self.new result }
    {
        match self.over.find(id) {
            Some(_) => Ok(Some(Place { start: 0, count: 0 })),
            None => {
                let place = self.keeper.find(id)?;
                Ok(place)
            }
        }
    }

    /// The record's alternatives, borrowed, if they are in memory. They are sought near this place
    /// first, but found wherever they are.
    pub fn looked(&self, id: Id, near: Place) -> Option<&[Row]>
        ensures { IfSome result (λ rows. IsTold K.seen self.now
            → rows.now ≡ alternatives id (rows_of (state_of K.seen self.now).tables
            (model_of_id id))) }
    {
        match self.over.find(id) {
            Some(rows) => Some(rows.as_slice()),
            None => self.keeper.held(id, near),
        }
    }

    /// Whether the rows of the model are in memory. They aren't if a record of the model was
    /// replaced.
    pub fn look_rows(&mut self, model: u8) -> Result<bool, Stop>
        requires { IsTrue (K.seen self.old.keeper.now).store.attached }
        ensures { ReadsWork K.seen self.old self.new result }
    {
        if is_altered(self.over.as_slice(), usize::from(model)) {
            return Ok(false);
        }
        let found = self.keeper.find_rows(self.alloc, model)?;
        Ok(found)
    }

    /// All rows of the model, borrowed, if they are in memory.
    pub fn looked_rows(&self, model: u8) -> Option<&[Row]>
        ensures { IfSome result (λ rows. IsTold K.seen self.now
            → rows.now ≡ rows_of (state_of K.seen self.now).tables model) }
    {
        if is_altered(self.over.as_slice(), usize::from(model)) {
            return None;
        }
        self.keeper.held_rows(model)
    }

    /// Puts these rows in place of the record's alternatives. If there are no rows, the record is
    /// deleted.
    pub fn replace(&mut self, id: Id, rows: Rows) -> Result<(), Stop>
        requires own { All (λ (r : Seen). r.id ≡ id) rows }
        requires a_table { IsTrue (K.seen self.old.keeper.now).tells
            → model_of_id id < length (K.seen self.old.keeper.now).state.tables }
        ensures exact { OnOk result (state_of K.seen self.new ≡ state_with id rows
            (state_of K.seen self.old)) }
        ensures told { IsTold K.seen self.old → OnOk result (IsTold K.seen self.new) }
        ensures back { OnOk result (IsTold K.seen self.new → IsTold K.seen self.old) }
        ensures cause { HasCause (K.seen self.old.keeper.now).faults
            (K.seen self.new.keeper.now).faults result }
        ensures same { LeavesKeeper K.seen self.old self.new }
    {
        self.over.put(id, rows)?;
        Ok(())
    }

    /// The replaced records, as a change that sets the number. It takes no memory.
    pub fn into_change(self, number: u64) -> Result<Change, Memory>
        ensures changed { IsOkAnd result (λ c. (c.changed ≡ self.entry.over)
            × (c.number ≡ number)) }
        ensures applied { IsOkAnd result (λ c. changed_state c (K.seen self.entry.keeper.now).state
            ≡ record (state_of K.seen self.entry) { number = number }) }
        ensures keeper { self.exit.1.0.now ≡ self.entry.keeper.now }
    {
        let WorkOver {
            alloc: _,
            keeper: _,
            over,
        } = self;
        Ok(Change {
            changed: over,
            number,
        })
    }
}
