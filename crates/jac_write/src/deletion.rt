//! Deletes records under a path condition.
ghost use Rattle.std.specs.Prelude.{◌<◌, length, slice_set, OnOk, IsTrue};
ghost use Rattle.jac_value.specs.Ids.{model_of_id};
ghost use Rattle.jac_facet.specs.Shape.{at};
ghost use Rattle.jac_rows.specs.Tables.{rows_of};
ghost use Rattle.jac_keep.specs.WorkState.{state_of, IsTold, WritesWork};
ghost use Rattle.jac_plain.specs.Records.{tables_after, without};
ghost use Rattle.jac_write.specs.Writes.{Writes, WritesEach, KeepsOrMerges, StaysTold};

use crate::alternatives::outside;
use crate::merged::merged_rows;
use jac_facet::Facet;
use jac_keep::{Keeper, Stop, Work, sound_after_change};
use jac_value::{Id, Value, id_model};
use jac_world::Guard;

// Deletes the alternatives of a record where the guard holds.
fn delete_alternatives<K: Keeper>(work: &mut Work<'_, K>, guard: &Guard, id: Id) -> Result<(), Stop>
    requires attached { IsTrue (K.seen work.old.keeper.now).store.attached }
    requires a_table { IsTrue (K.seen work.old.keeper.now).tells
        → model_of_id id < length (K.seen work.old.keeper.now).state.tables }
    ensures left { IsTold K.seen work.new
        → OnOk result
        (Writes (λ w ts. slice_set ts (model_of_id id) (without id (rows_of ts (model_of_id id))))
        guard.now (state_of K.seen work.old) (state_of K.seen work.new)) }
    ensures told { OnOk result (StaysTold K.seen work.old work.new) }
    ensures merged { IsTold K.seen work.new
        → OnOk result (KeepsOrMerges (state_of K.seen work.old) (state_of K.seen work.new)) }
    ensures keeps { WritesWork K.seen work.old work.new result }
{
    sound_after_change();
    let rows = work.one(id)?;
    if rows.as_slice().is_empty() {
        return Ok(());
    }
    let kept = outside(work.alloc, guard, id, rows.as_slice())?;
    let merged = merged_rows(work.alloc, kept)?;
    work.replace(id, merged)?;
    Ok(())
}

// Deletes the record where the guard holds. If the id isn't one of the model, nothing is done.
fn delete_record<K: Keeper>(
    work: &mut Work<'_, K>,
    guard: &Guard,
    model: u8,
    id: Id,
) -> Result<(), Stop>
    requires attached { IsTrue (K.seen work.old.keeper.now).store.attached }
    requires a_table { IsTrue (K.seen work.old.keeper.now).tells
        → model < length (K.seen work.old.keeper.now).state.tables }
    ensures left { IsTold K.seen work.new
        → OnOk result (Writes (λ w ts. slice_set ts model (without id (rows_of ts model))) guard.now
        (state_of K.seen work.old) (state_of K.seen work.new)) }
    ensures told { OnOk result (StaysTold K.seen work.old work.new) }
    ensures merged { IsTold K.seen work.new
        → OnOk result (KeepsOrMerges (state_of K.seen work.old) (state_of K.seen work.new)) }
    ensures keeps { WritesWork K.seen work.old work.new result }
{
    if id_model(id) != model {
        return Ok(());
    }
    delete_alternatives(work, guard, id)?;
    Ok(())
}

// Deletes the record that the value refers to, where the guard holds.
fn delete_where<K: Keeper>(
    work: &mut Work<'_, K>,
    guard: &Guard,
    model: u8,
    target: &Value,
) -> Result<(), Stop>
    requires attached { IsTrue (K.seen work.old.keeper.now).store.attached }
    requires a_table { IsTrue (K.seen work.old.keeper.now).tells
        → model < length (K.seen work.old.keeper.now).state.tables }
    ensures left { IsTold K.seen work.new
        → OnOk result (Writes (λ w. tables_after model target.now without) guard.now
        (state_of K.seen work.old) (state_of K.seen work.new)) }
    ensures told { OnOk result (StaysTold K.seen work.old work.new) }
    ensures merged { IsTold K.seen work.new
        → OnOk result (KeepsOrMerges (state_of K.seen work.old) (state_of K.seen work.new)) }
    ensures keeps { WritesWork K.seen work.old work.new result }
{
    match target {
        Value::Ref(Some(id)) => {
            delete_record(work, guard, model, *id)?;
            Ok(())
        }
        _ => Ok(()),
    }
}

fn delete_leaves<K: Keeper>(
    work: &mut Work<'_, K>,
    model: u8,
    leaves: &[(Guard, Value)],
) -> Result<(), Stop>
    requires attached { IsTrue (K.seen work.old.keeper.now).store.attached }
    requires a_table { IsTrue (K.seen work.old.keeper.now).tells
        → model < length (K.seen work.old.keeper.now).state.tables }
    ensures left { IsTold K.seen work.new
        → OnOk result (WritesEach (λ w v. tables_after model v without) leaves.now
        (state_of K.seen work.old) (state_of K.seen work.new)) }
    ensures told { OnOk result (StaysTold K.seen work.old work.new) }
    ensures merged { IsTold K.seen work.new
        → OnOk result (KeepsOrMerges (state_of K.seen work.old) (state_of K.seen work.new)) }
    ensures keeps { WritesWork K.seen work.old work.new result }
{
    'leaves: for leaf in leaves {
        delete_where(work, &leaf.0, model, &leaf.1)?;
    }
    Ok(())
}

/// Deletes the record that the target refers to, wherever the path condition holds. If the target
/// isn't a record of the model, or doesn't exist, nothing is done.
pub fn delete<K: Keeper>(
    work: &mut Work<'_, K>,
    pc: &Guard,
    model: u8,
    target: &Facet<Value>,
) -> Result<(), Stop>
    requires attached { IsTrue (K.seen work.old.keeper.now).store.attached }
    requires a_table { IsTrue (K.seen work.old.keeper.now).tells
        → model < length (K.seen work.old.keeper.now).state.tables }
    ensures left { IsTold K.seen work.new
        → OnOk result (Writes (λ w. tables_after model (at w target.now) without) pc.now
        (state_of K.seen work.old) (state_of K.seen work.new)) }
    ensures told { OnOk result (StaysTold K.seen work.old work.new) }
    ensures merged { IsTold K.seen work.new
        → OnOk result (KeepsOrMerges (state_of K.seen work.old) (state_of K.seen work.new)) }
    ensures keeps { WritesWork K.seen work.old work.new result }
{
    let leaves = target.leaves_under(work.alloc, pc)?;
    delete_leaves(work, model, leaves.as_slice())?;
    Ok(())
}
