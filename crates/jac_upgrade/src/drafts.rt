//! Rows with the defaults of the fields that an application adds to their model.
ghost use Rattle.std.specs.Prelude.{◌≡◌, ◌<◌, length, map, IfOk, OnOk};
ghost use Rattle.jac_lang.specs.Mirror.{application_of};
ghost use Rattle.jac_upgrade.specs.Steps.{drafted_row};
ghost use Rattle.jac_upgrade.specs.Upgraded.{draft_of};

use crate::schema::field_count;
use jac_lang::{App, kind_of};
use jac_rows::Row;
use jac_value::{Cells, Memory, Value, default_of};
use std::alloc::Global;

/// The rows of a model of the old application, with the defaults of the fields that the new one
/// adds.
pub(crate) fn drafts(
    alloc: Global,
    old: &App,
    new: &App,
    model: u8,
    rows: &[Row],
) -> Result<Vec<Row>, Memory>
    requires old { model < length old.now.models }
    requires new { model < length new.now.models }
    ensures { IfOk result (λ v. v.items ≡ map (drafted_row (application_of old.now).models
        (application_of new.now).models model) rows.now) }
{
    let mut drafts = Vec::new(alloc);
    'rows: for row in rows {
        let draft = draft_row(alloc, old, new, model, row)?;
        drafts.push(draft)?;
    }
    Ok(drafts)
}

fn draft_row(alloc: Global, old: &App, new: &App, model: u8, row: &Row) -> Result<Row, Memory>
    requires old { model < length old.now.models }
    requires new { model < length new.now.models }
    ensures { IfOk result (λ r. r ≡ drafted_row (application_of old.now).models
        (application_of new.now).models model row.now) }
{
    let Row { id, guard, cells } = row.copy(alloc)?;
    let mut cells = cells.to_vec(alloc)?;
    add_defaults(alloc, old, new, model, &mut cells)?;
    Ok(Row {
        id,
        guard,
        cells: Cells::from_vec(cells),
    })
}

fn add_defaults(
    alloc: Global,
    old: &App,
    new: &App,
    model: u8,
    cells: &mut Vec<Value>,
) -> Result<(), Memory>
    requires old { model < length old.now.models }
    requires new { model < length new.now.models }
    ensures { OnOk result (cells.new.items ≡ draft_of (application_of old.now).models
        (application_of new.now).models model cells.old.items) }
{
    let first = field_count(old, model);
    let end = field_count(new, model);
    'fields: for field in first..end {
        let kind = kind_of(new, model, field);
        cells.push(default_of(alloc, &kind))?;
    }
    Ok(())
}
