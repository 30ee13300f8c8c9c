//! The indexes of the held tables, kept up to date with them.
ghost use Rattle.std.specs.Prelude.{◌≡◌, ◌==◌, ℕ, List, false, Some, None, if◌then◌else◌};
ghost use Rattle.std.specs.Option.{option_copied};
ghost use Rattle.jac_value.specs.Ids.{model_of_id};
ghost use Rattle.jac_rows.specs.declared.row.Row.{Row as Seen};
ghost use Rattle.jac_keep.specs.Alterations.{alters};
ghost use Rattle.jac_keep.specs.Indexed.{index_at, AreAltered, Remains};
ghost use Rattle.jac_keep.specs.Records.{AreOf, AreOrdered};
ghost use Rattle.jac_table_cache.specs.Held.{held, rows_held, IsHolding};

use jac_keep::{Alteration, Alterations, TableIndexes};
use jac_rows::{Row, Rows};
use jac_value::id_model;
use std::alloc::Global;

/// The rows of the model, if its table is held.
pub fn table_of(tables: &[Option<Rows>], model: u8) -> Option<&Rows>
    ensures { option_copied result ≡ held model tables.now }
{
    match tables.get(usize::from(model)) {
        Some(table) => match table {
            Some(rows) => Some(rows),
            None => None,
        },
        None => None,
    }
}

// The rows of the model, or none if its table isn't held.
fn rows_at(tables: &[Option<Rows>], model: u8) -> &[Row]
    ensures { result.now ≡ rows_held model tables.now }
{
    match table_of(tables, model) {
        Some(rows) => rows.as_slice(),
        None => &[],
    }
}

/// Alters the indexes. `tables` are the tables before the alterations.
pub fn alter_indexes(
    alloc: Global,
    tables: &[Option<Rows>],
    indexes: &mut TableIndexes,
    changed: &Alterations,
)
    requires { IsHolding tables.now indexes.old }
    ensures { AreAltered (λ m. rows_held m tables.now) changed.now indexes.old indexes.new }
{
    let items = changed.as_slice();
    'changed: for alteration in items {
        alter_index(alloc, tables, indexes, alteration);
    }
}

fn alter_index(
    alloc: Global,
    tables: &[Option<Rows>],
    indexes: &mut TableIndexes,
    alteration: &Alteration,
)
    requires ordered { (m : ℕ) → AreOrdered (rows_held m tables.now) }
    requires own { AreOf alteration.now.id alteration.now.rows }
    ensures left { Remains alteration.now.id (rows_held (model_of_id alteration.now.id) tables.now)
        alteration.now.rows (index_at (model_of_id alteration.now.id) indexes.old)
        (index_at (model_of_id alteration.now.id) indexes.new) }
    ensures others { (m : ℕ) → (model_of_id alteration.now.id == m) ≡ false
        → index_at m indexes.new ≡ index_at m indexes.old }
{
    let rows = rows_at(tables, id_model(alteration.id));
    let _ = indexes.alter_one(alloc, rows, alteration);
}

/// Drops the index of each altered table that isn't held. It takes no memory.
pub fn forget_dropped(tables: &[Option<Rows>], indexes: &mut TableIndexes, changed: &[Alteration])
    ensures gone { (m : ℕ) → held m tables.now ≡ None → index_at m indexes.new
        ≡ (if alters m changed.now then None else index_at m indexes.old) }
    ensures same { (m : ℕ) (rows : List Seen) → held m tables.now ≡ Some rows
        → index_at m indexes.new ≡ index_at m indexes.old }
{
    'changed: for alteration in changed {
        forget_if_dropped(tables, indexes, id_model(alteration.id));
    }
}

fn forget_if_dropped(tables: &[Option<Rows>], indexes: &mut TableIndexes, model: u8)
    ensures gone { (m : ℕ) → held m tables.now ≡ None → index_at m indexes.new
        ≡ (if model == m then None else index_at m indexes.old) }
    ensures same { (m : ℕ) (rows : List Seen) → held m tables.now ≡ Some rows
        → index_at m indexes.new ≡ index_at m indexes.old }
{
    match table_of(tables, model) {
        Some(rows) => {
            let _ = rows;
        }
        None => indexes.forget_one(model),
    }
}
