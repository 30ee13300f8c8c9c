//! Tables and their indexes, altered together.
ghost use Rattle.std.specs.Prelude.{◌≡◌, ◌==◌, ℕ, false, OnOk, OnErr};
ghost use Rattle.jac_value.specs.Ids.{model_of_id};
ghost use Rattle.jac_rows.specs.Tables.{rows_of};
ghost use Rattle.jac_keep.specs.Alterations.{overlaid};
ghost use Rattle.jac_keep.specs.Indexed.{index_at, AreAltered, AreIndexesOf, AreIndexesIfMade, Remains};
ghost use Rattle.jac_keep.specs.Records.{AreOf};
ghost use Rattle.jac_keep.specs.Sound.{AreTables};

use crate::opening::alter_tables;
use crate::{Alteration, Alterations, TableIndexes};
use jac_rows::Tables;
use jac_value::{Memory, id_model};
use std::alloc::Global;

/// Alters all of the tables or none, and their indexes, if there are any.
pub fn alter_together(
    alloc: Global,
    tables: &mut Tables,
    indexes: &mut Option<TableIndexes>,
    changed: &Alterations,
) -> Result<(), Memory>
    requires rising { AreTables tables.old }
    requires stay { AreTables (overlaid changed.now tables.old) }
    requires indexed { AreIndexesIfMade tables.old indexes.old }
    ensures ok { OnOk result (tables.new ≡ overlaid changed.now tables.old) }
    ensures err { OnErr result (tables.new ≡ tables.old) }
    ensures indexed { AreIndexesIfMade tables.new indexes.new }
{
    match indexes {
        Some(made) => alter_both(alloc, tables, made, changed),
        None => alter_tables(alloc, tables, changed),
    }
}

fn alter_both(
    alloc: Global,
    tables: &mut Tables,
    indexes: &mut TableIndexes,
    changed: &Alterations,
) -> Result<(), Memory>
    requires rising { AreTables tables.old }
    requires stay { AreTables (overlaid changed.now tables.old) }
    requires indexed { AreIndexesOf tables.old indexes.old }
    ensures ok { OnOk result (tables.new ≡ overlaid changed.now tables.old) }
    ensures err { OnErr result (tables.new ≡ tables.old) }
    ensures indexed { AreIndexesOf tables.new indexes.new }
{
    alter_indexes(alloc, &*tables, indexes, changed);
    match alter_tables(alloc, tables, changed) {
        Ok(()) => Ok(()),
        Err(Memory) => {
            indexes.forget(changed.as_slice());
            Err(Memory)
        }
    }
}

// Alters the indexes of the tables. The tables are those before the alterations.
fn alter_indexes(alloc: Global, tables: &Tables, indexes: &mut TableIndexes, changed: &Alterations)
    requires rising { AreTables tables.now }
    requires indexed { AreIndexesOf tables.now indexes.old }
    ensures { AreAltered (rows_of tables.now) changed.now indexes.old indexes.new }
{
    let items = changed.as_slice();
    'changed: for alteration in items {
        alter_index(alloc, tables, indexes, alteration);
    }
}

fn alter_index(alloc: Global, tables: &Tables, indexes: &mut TableIndexes, alteration: &Alteration)
    requires rising { AreTables tables.now }
    requires own { AreOf alteration.now.id alteration.now.rows }
    ensures left { Remains alteration.now.id (rows_of tables.now (model_of_id alteration.now.id))
        alteration.now.rows (index_at (model_of_id alteration.now.id) indexes.old)
        (index_at (model_of_id alteration.now.id) indexes.new) }
    ensures others { (m : ℕ) → (model_of_id alteration.now.id == m) ≡ false
        → index_at m indexes.new ≡ index_at m indexes.old }
{
    let rows = tables.rows(id_model(alteration.id));
    let _ = indexes.alter_one(alloc, rows, alteration);
}
