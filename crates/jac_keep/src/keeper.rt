ghost use Rattle.std.specs.Prelude.{◌≡◌, ◌≤◌, ◌^◌, ℕ, Bool, IfOk, IfSome, OnOk, OnErr, IsTrue};
ghost use Rattle.jac_value.specs.Ids.{model_of_id};
ghost use Rattle.jac_rows.specs.Good.{IsSound};
ghost use Rattle.jac_rows.specs.declared.state.State.{State};
ghost use Rattle.jac_rows.specs.Tables.{rows_of};
ghost use Rattle.jac_keep.specs.Records.{alternatives};
ghost use Rattle.jac_keep.specs.MatchingRecords.{holders};
ghost use Rattle.jac_keep.specs.KeeperSeen.{KeeperSeen, Keeps, Looks, Reads};
ghost use Rattle.jac_keep.specs.ChangedState.{changed_state};
ghost use Rattle.jac_keep.specs.Preorder.{Preorder, of_any};

use crate::{Change, Place, Stop};
use jac_rows::{Row, Rows};
use jac_value::{Id, Value};
use std::alloc::Global;

/// Keeps a faceted state.
pub trait Keeper {
    /// What contracts see of it. Its state means nothing unless `tells` holds. Its count of faults
    /// never falls, and stops at 2^64 - 1.
    ghost seen: { Self → KeeperSeen };

    /// A relation between the keeper before and after each call, for example that its state stays
    /// known. By default it always holds.
    ghost goes: { Preorder Self } = { of_any };

    /// The number of the next accepted request.
    fn number(&mut self) -> Result<u64, Stop>
        requires { IsTrue (seen self.old).store.attached }
        ensures exact { IsTrue (seen self.new).tells
            → IfOk result (λ n. n ≡ (seen self.old).state.number) }
        ensures in_range { IfOk result (λ n. (1 ≤ n) × (n ≤ 2 ^ 40)) }
        ensures reads { Reads (seen self.old) (seen self.new) result }
        ensures goes { goes.holds self.old self.new };

    /// All rows of the model, by rising id.
    fn rows(&mut self, alloc: Global, model: u8) -> Result<Rows, Stop>
        requires { IsTrue (seen self.old).store.attached }
        ensures exact { IsTrue (seen self.new).tells
            → IfOk result (λ rows. rows ≡ rows_of (seen self.old).state.tables model) }
        ensures reads { Reads (seen self.old) (seen self.new) result }
        ensures goes { goes.holds self.old self.new };

    /// The alternatives of one record.
    fn one(&mut self, alloc: Global, id: Id) -> Result<Rows, Stop>
        requires { IsTrue (seen self.old).store.attached }
        ensures exact { IsTrue (seen self.new).tells
            → IfOk result (λ rows. rows ≡ alternatives id (rows_of (seen self.old).state.tables
            (model_of_id id))) }
        ensures reads { Reads (seen self.old) (seen self.new) result }
        ensures goes { goes.holds self.old self.new };

    /// All alternatives of the records that have an alternative with the value in the field.
    fn rows_with(
        &mut self,
        alloc: Global,
        model: u8,
        field: u8,
        value: &Value,
    ) -> Result<Rows, Stop>
        requires { IsTrue (seen self.old).store.attached }
        ensures exact { IsTrue (seen self.new).tells
            → IfOk result (λ rows. rows ≡ holders field value.now
            (rows_of (seen self.old).state.tables model)) }
        ensures reads { Reads (seen self.old) (seen self.new) result }
        ensures goes { goes.holds self.old self.new };

    /// The place of the record's alternatives, if this keeper has them in memory. It counts as a
    /// read.
    fn find(&mut self, id: Id) -> Result<Option<Place>, Stop>
        requires { IsTrue (seen self.old).store.attached }
        ensures looks { Looks (seen self.old) (seen self.new) result }
        ensures goes { goes.holds self.old self.new }
    {
        let _ = id;
        Ok(None)
    }

    /// The record's alternatives, borrowed, if this keeper has them in memory. They are sought near
    /// this place first, but found wherever they are.
    fn held(&self, id: Id, near: Place) -> Option<&[Row]>
        ensures { IfSome result (λ rows. IsTrue (seen self.now).tells
            → rows.now ≡ alternatives id (rows_of (seen self.now).state.tables (model_of_id id))) }
    {
        let _ = id;
        let _ = near;
        None
    }

    /// Whether this keeper has the rows of the model in memory. It counts as a read.
    fn find_rows(&mut self, alloc: Global, model: u8) -> Result<bool, Stop>
        requires { IsTrue (seen self.old).store.attached }
        ensures looks { Looks (seen self.old) (seen self.new) result }
        ensures goes { goes.holds self.old self.new }
    {
        let _ = alloc;
        let _ = model;
        Ok(false)
    }

    /// All rows of the model, by rising id, borrowed, if this keeper has them in memory.
    fn held_rows(&self, model: u8) -> Option<&[Row]>
        ensures { IfSome result (λ rows. IsTrue (seen self.now).tells
            → rows.now ≡ rows_of (seen self.now).state.tables model) }
    {
        let _ = model;
        None
    }

    /// Replaces the alternatives of the changed records and sets the number, all or nothing.
    fn apply(&mut self, alloc: Global, change: &Change) -> Result<(), Stop>
        requires attached { IsTrue (seen self.old).store.attached }
        requires good { IsTrue (seen self.old).tells
            → IsSound (changed_state change.now (seen self.old).state) }
        ensures exact { IsTrue (seen self.new).tells
            → OnOk result ((seen self.new).state ≡ changed_state change.now (seen self.old).state) }
        ensures refused { IsTrue (seen self.new).tells
            → OnErr result ((seen self.new).state ≡ (seen self.old).state) }
        ensures kept { Keeps (seen self.old) (seen self.new) result }
        ensures goes { goes.holds self.old self.new };
}
