//! The records of one binder in the order of a field.
ghost use Rattle.std.specs.Prelude.{◌≡◌, [], ◌∷◌, ℕ, Bool, true, List, Some, map, pos, IfOk, IsTrue};
ghost use Rattle.jac_value.specs.declared.value.Value.TheVariants as value;
ghost use Rattle.jac_world.specs.World.{shown_by};
ghost use Rattle.jac_lang.specs.Lookup.{same_text};
ghost use Rattle.jac_keep.specs.WorkState.{state_of, IsTold, ReadsWork};
ghost use Rattle.jac_plain.specs.Expressions.{key_of, ordered_tuples, sorted_tuples};
ghost use Rattle.jac_plain.specs.World.{got};
ghost use Rattle.jac_query.specs.Sorted.{sorted_by, value_less};
ghost use Rattle.jac_shown_rows.specs.Consulted.{Agrees, Grows};
ghost use Rattle.jac_pruned.specs.OneSorted.{SortsBinder, id_less};
ghost use Rattle.jac_shown_rows.specs.Seen.{seen_at};
ghost use Rattle.jac_shown_rows.specs.RecordIds.{keyed_each, lengthened_tuples};

use crate::order::compare;
use jac_keep::{Keeper, Stop, Work};
use jac_lang::{Binder, Order};
use jac_shown_rows::{Support, WorldContext, column_named, keyed_by};
use jac_value::{Id, Memory, Txt, Value};
use std::alloc::Global;

/// Whether the order is that in which the records are found, or by a field of this binder.
pub(crate) fn sorts_binder(binder: &Binder, order: &Order) -> bool
    ensures { result ≡ true → SortsBinder binder.now order.now }
{
    match order {
        Order::Key => true,
        Order::Up(name, _) => binder.name == *name,
        Order::Down(name, _) => binder.name == *name,
    }
}

/// The ids in the query's order.
pub(crate) fn sort_ids<K: Keeper>(
    work: &mut Work<'_, K>,
    at: &WorldContext<'_>,
    binder: &Binder,
    by: &Order,
    ids: Vec<Id>,
    support: &mut Support,
) -> Result<Vec<Id>, Stop>
    requires attached { IsTrue (K.seen work.old.keeper.now).store.attached }
    requires order { SortsBinder binder.now by.now }
    ensures sorted { IsTold K.seen work.new → IfOk result (λ js. (w : ℕ → Bool)
        → Agrees support.new (shown_by at.now.assignment.now) w
        → lengthened_tuples [] js.items ≡ ordered_tuples
        (seen_at at.now (state_of K.seen work.old) w) (binder.now ∷ []) by.now
        (lengthened_tuples [] ids.items)) }
    ensures reads { ReadsWork K.seen work.old work.new result }
    ensures grows { Grows support.old support.new }
{
    match by {
        Order::Key => Ok(ids),
        Order::Up(_, field) => {
            let rising = sort_by_field(work, at, binder, field, false, ids.as_slice(), support)?;
            Ok(rising)
        }
        Order::Down(_, field) => {
            let falling = sort_by_field(work, at, binder, field, true, ids.as_slice(), support)?;
            Ok(falling)
        }
    }
}

// The ids in the order of the field of the binder's records.
fn sort_by_field<K: Keeper>(
    work: &mut Work<'_, K>,
    at: &WorldContext<'_>,
    binder: &Binder,
    field: &Txt,
    down: bool,
    ids: &[Id],
    support: &mut Support,
) -> Result<Vec<Id>, Stop>
    requires attached { IsTrue (K.seen work.old.keeper.now).store.attached }
    ensures sorted { IsTold K.seen work.new → IfOk result (λ js. (w : ℕ → Bool)
        → Agrees support.new (shown_by at.now.assignment.now) w → (name : List ℕ)
        → same_text binder.now.name name ≡ true
        → lengthened_tuples [] js.items ≡ sorted_tuples (value_less down)
        (key_of (seen_at at.now (state_of K.seen work.old) w) (binder.now ∷ []) name field.now)
        (lengthened_tuples [] ids.now)) }
    ensures reads { ReadsWork K.seen work.old work.new result }
    ensures grows { Grows support.old support.new }
{
    let keyed = keyed_ids(work, at, &binder.model, field, ids, support)?;
    let sorted = sort_keyed_ids(keyed, down)?;
    let plain = plain_ids(work.alloc, sorted.as_slice())?;
    Ok(plain)
}

// Each id with the field of its record. The field is looked up by its name once.
fn keyed_ids<K: Keeper>(
    work: &mut Work<'_, K>,
    at: &WorldContext<'_>,
    model: &Txt,
    field: &Txt,
    ids: &[Id],
    support: &mut Support,
) -> Result<Vec<(Id, Value)>, Stop>
    requires attached { IsTrue (K.seen work.old.keeper.now).store.attached }
    ensures keys { IsTold K.seen work.new → IfOk result (λ ps. (w : ℕ → Bool)
        → Agrees support.new (shown_by at.now.assignment.now) w
        → ps.items ≡ keyed_each (λ j. got (seen_at at.now (state_of K.seen work.old) w) model.now
        field.now (value.Ref (Some j))) ids.now) }
    ensures reads { ReadsWork K.seen work.old work.new result }
    ensures grows { Grows support.old support.new }
{
    match column_named(at.app, model, field) {
        Some(column) => {
            let keyed = keyed_by(work, at.assignment, &column, ids, support)?;
            Ok(keyed)
        }
        None => {
            let keyed = keyed_alike(work.alloc, ids)?;
            Ok(keyed)
        }
    }
}

// Each id with 0.
fn keyed_alike(alloc: Global, ids: &[Id]) -> Result<Vec<(Id, Value)>, Memory>
    ensures { IfOk result (λ ps. ps.items ≡ keyed_each (λ j. value.Int (pos 0)) ids.now) }
{
    let mut keyed = Vec::with_capacity(alloc, ids.len())?;
    'ids: for id in ids {
        keyed.push((*id, Value::Int(0)))?;
    }
    Ok(keyed)
}

fn sort_keyed_ids(keyed: Vec<(Id, Value)>, down: bool) -> Result<Vec<(Id, Value)>, Memory>
    ensures { IfOk result (λ ps. ps.items ≡ sorted_by (id_less down) keyed.items) }
{
    let mut sorted = keyed;
    sorted.sort_by(|x, y| compare(&x.1, &y.1, down))?;
    Ok(sorted)
}

fn plain_ids(alloc: Global, keyed: &[(Id, Value)]) -> Result<Vec<Id>, Memory>
    ensures { IfOk result (λ js. js.items ≡ map (λ p. p.0) keyed.now) }
{
    let mut ids = Vec::with_capacity(alloc, keyed.len())?;
    'keyed: for pair in keyed {
        ids.push(pair.0)?;
    }
    Ok(ids)
}
