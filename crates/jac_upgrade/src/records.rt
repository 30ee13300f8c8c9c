//! A record after an upgrade.
ghost use Rattle.std.specs.Prelude.{◌≡◌, ◌<◌, ◌≤◌, ℕ, Bool, true, length, All, IfOk, OnOk};
ghost use Rattle.jac_lang.specs.Mirror.{application_of};
ghost use Rattle.jac_rows.specs.declared.row.Row.{Row as Seen};
ghost use Rattle.jac_value.specs.Ids.{is_id_of};
ghost use Rattle.jac_write.specs.Writes.{cells_at};
ghost use Rattle.jac_upgrade.specs.Steps.{AltersFirst, AreMet, IsRenewed, upgraded_all};

use crate::drafts::drafts;
use crate::schema::group_count;
use jac_keep::Alteration;
use jac_lang::App;
use jac_rows::{Row, Rows};
use jac_value::{Id, Memory, is_id};
use jac_world::Steps;
use jac_write::regrouped;
use std::alloc::Global;
use std::sync::ledger::Ledger;

// The rows of a record after an upgrade, from all rows that it has.
fn alternatives<L: Ledger>(
    alloc: Global,
    old: &App,
    new: &App,
    model: u8,
    id: Id,
    rows: &[Row],
    splits: &mut Steps<L>,
) -> Result<Rows, Memory>
    requires old { model < length old.now.models }
    requires new { model < length new.now.models }
    requires id { is_id_of id model ≡ true }
    ensures own { IfOk result (λ v. All (λ (r : Seen). r.id ≡ id) v) }
    ensures shown { IfOk result (λ v. (w : ℕ → Bool) → length (cells_at w rows.now) ≤ 1
        → cells_at w v ≡ upgraded_all w (application_of old.now).models
        (application_of new.now).models model id (cells_at w rows.now)) }
{
    let drafts = drafts(alloc, old, new, model, rows)?;
    let drafts = drafts.as_slice();
    let first = group_count(old, model);
    let rows = regrouped(alloc, new, model, id, first, drafts, splits)?;
    Ok(rows)
}

// The alteration of a record, from all rows that it has.
fn altered<L: Ledger>(
    alloc: Global,
    old: &App,
    new: &App,
    model: u8,
    id: Id,
    rows: &[Row],
    splits: &mut Steps<L>,
) -> Result<Alteration, Memory>
    requires old { model < length old.now.models }
    requires new { model < length new.now.models }
    requires id { is_id_of id model ≡ true }
    ensures id { IfOk result (λ a. a.id ≡ id) }
    ensures renewed { IfOk result (λ a. IsRenewed (application_of old.now).models
        (application_of new.now).models model id rows.now a.rows) }
{
    let rows = alternatives(alloc, old, new, model, id, rows, splits)?;
    read_guards(rows.as_slice());
    Ok(Alteration { id, rows })
}

// Reading the pairs of each guard shows that it holds under some assignment.
fn read_guards(rows: &[Row])
    ensures { AreMet rows.now }
{
    'rows: for row in rows {
        let _ = row.guard.pairs();
    }
}

/// Adds the alteration of the record that has exactly these rows. Adds nothing if its id doesn't
/// belong to the model.
pub(crate) fn add_record<L: Ledger>(
    alloc: Global,
    old: &App,
    new: &App,
    model: u8,
    rows: &[Row],
    made: &mut Vec<Alteration>,
    splits: &mut Steps<L>,
) -> Result<(), Memory>
    requires old { model < length old.now.models }
    requires new { model < length new.now.models }
    ensures { OnOk result (AltersFirst (application_of old.now).models
        (application_of new.now).models model rows.now made.old.items made.new.items) }
{
    let Some(first) = rows.first() else {
        return Ok(());
    };
    let id = first.id;
    if !is_id(id.0, model) {
        return Ok(());
    }
    let alteration = altered(alloc, old, new, model, id, rows, splits)?;
    made.push(alteration)?;
    Ok(())
}
