//! Whether the record that a reference refers to is in the tables.
ghost use Rattle.std.specs.Prelude.{◌≡◌, ℕ, Bool, true, Option, IfOk, OnOk, IsTrue};
ghost use Rattle.jac_value.specs.Ids.{model_of_id};
ghost use Rattle.jac_world.specs.World.{shown_by};
ghost use Rattle.jac_rows.specs.Project.{rows_at, project_at};
ghost use Rattle.jac_rows.specs.Tables.{rows_of};
ghost use Rattle.jac_keep.specs.WorkState.{state_of, IsTold, ReadsWork};
ghost use Rattle.jac_lang.specs.declared.application.App.{App};
ghost use Rattle.jac_plain.specs.Expressions.{is_live, stands};
ghost use Rattle.jac_plain.specs.Policies.{has_id};
ghost use Rattle.jac_plain.specs.World.{record_with};
ghost use Rattle.jac_plain.specs.declared.context.Ctx.{Ctx as Context};
ghost use Rattle.jac_shown_rows.specs.Consulted.{Agrees, Grows};
ghost use Rattle.jac_shown_rows.specs.Own.{IsOwn, are_own_rows, stands_own};
ghost use Rattle.jac_plain.specs.Shown.{world_at};

use crate::Support;
use crate::lookup::look_once;
use crate::reading::shown_row;
use jac_keep::{Keeper, Stop, Work};
use jac_rows::Row;
use jac_value::{Id, Memory, Value};
use jac_world::Assignment;
use std::alloc::Global;

/// Whether the record that the value refers to is in the tables.
pub fn stand<K: Keeper>(
    work: &mut Work<'_, K>,
    a: &Assignment,
    value: &Value,
    support: &mut Support,
) -> Result<bool, Stop>
    requires { IsTrue (K.seen work.old.keeper.now).store.attached }
    ensures value { IsTold K.seen work.new → IfOk result (λ b. (app : App) (ctx : Context) (w : ℕ
        → Bool) → Agrees support.new (shown_by a.now) w
        → b ≡ is_live (world_at app ctx (state_of K.seen work.old) w) value.now) }
    ensures reads { ReadsWork K.seen work.old work.new result }
    ensures grows { Grows support.old support.new }
    ensures own { IsTold K.seen work.new → (this : Option ℕ)
        → stands_own this value.now (state_of K.seen work.old).tables ≡ true
        → IsOwn this support.old → OnOk result (IsOwn this support.new) }
{
    match value {
        Value::Ref(Some(id)) => {
            let found = record_stands(work, a, *id, support)?;
            Ok(found)
        }
        _ => Ok(false),
    }
}

/// Whether the assignment shows the record. The labels that were consulted are added to the
/// support. Under each assignment that agrees on the support, the answer is the same.
pub fn record_stands<K: Keeper>(
    work: &mut Work<'_, K>,
    a: &Assignment,
    id: Id,
    support: &mut Support,
) -> Result<bool, Stop>
    requires attached { IsTrue (K.seen work.old.keeper.now).store.attached }
    ensures value { IsTold K.seen work.new → IfOk result (λ b. (w : ℕ → Bool)
        → Agrees support.new (shown_by a.now) w → b ≡ has_id (project_at w
        (state_of K.seen work.old))
        id) }
    ensures reads { ReadsWork K.seen work.old work.new result }
    ensures grows { Grows support.old support.new }
    ensures own { IsTold K.seen work.new → (this : Option ℕ)
        → are_own_rows this id (rows_of (state_of K.seen work.old).tables (model_of_id id)) ≡ true
        → IsOwn this support.old → OnOk result (IsOwn this support.new) }
{
    if let Some(near) = look_once(work, id, support)? {
        if let Some(rows) = work.looked(id, near) {
            let found = has_row(work.alloc, rows, a, id, support)?;
            return Ok(found);
        }
    }
    let rows = work.one(id)?;
    let found = has_row(work.alloc, rows.as_slice(), a, id, support)?;
    Ok(found)
}

fn has_row(
    alloc: Global,
    rows: &[Row],
    a: &Assignment,
    id: Id,
    support: &mut Support,
) -> Result<bool, Memory>
    ensures value { IfOk result (λ b. (w : ℕ → Bool) → Agrees support.new (shown_by a.now) w
        → b ≡ stands (record_with id (rows_at w rows.now))) }
    ensures grows { Grows support.old support.new }
    ensures own { (this : Option ℕ) → are_own_rows this id rows.now ≡ true → IsOwn this support.old
        → OnOk result (IsOwn this support.new) }
{
    let row = shown_row(alloc, rows, a, id, None, support)?;
    Ok(row.is_some())
}
