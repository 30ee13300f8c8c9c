//! Alterations, without the rows of records that have no row with a value.
ghost use Rattle.std.specs.Prelude.{◌≡◌, ◌++◌, ◌∷◌, [], IfOk, OnOk};
ghost use Rattle.std.specs.List.{list_any};
ghost use Rattle.jac_keep.specs.Alterations.{AreApart};
ghost use Rattle.jac_keep.specs.MatchingRecords.{has_cell, masked_rows, masked_alterations};

use crate::scan::has_cell;
use crate::{Alteration, Alterations};
use jac_rows::{Row, Rows};
use jac_value::{Memory, Value};
use std::alloc::Global;

/// The alterations, each with its rows only if one of them has the value in the field.
pub(crate) fn masked(
    alloc: Global,
    changed: &Alterations,
    field: u8,
    value: &Value,
) -> Result<Alterations, Memory>
    ensures masked { IfOk result (λ m. m ≡ masked_alterations field value.now changed.now) }
    ensures apart { AreApart changed.now }
{
    let items = changed.as_slice();
    let masked = mask_each(alloc, items, field, value)?;
    Ok(Alterations::from_vec(masked))
}

fn mask_each(
    alloc: Global,
    changed: &[Alteration],
    field: u8,
    value: &Value,
) -> Result<Vec<Alteration>, Memory>
    ensures { IfOk result (λ v. v.items ≡ masked_alterations field value.now changed.now) }
{
    let mut out = Vec::new(alloc);
    'changed: for alteration in changed {
        add_masked(alloc, &mut out, alteration, field, value)?;
    }
    Ok(out)
}

fn add_masked(
    alloc: Global,
    out: &mut Vec<Alteration>,
    alteration: &Alteration,
    field: u8,
    value: &Value,
) -> Result<(), Memory>
    ensures { OnOk result (out.new.items ≡ out.old.items ++ masked_alterations field value.now
        (alteration.now ∷ [])) }
{
    let rows = masked_rows(alloc, &alteration.rows, field, value)?;
    out.push(Alteration {
        id: alteration.id,
        rows,
    })?;
    Ok(())
}

fn masked_rows(alloc: Global, rows: &Rows, field: u8, value: &Value) -> Result<Rows, Memory>
    ensures { IfOk result (λ r. r ≡ masked_rows field value.now rows.now) }
{
    if any_has(rows.as_slice(), field, value) {
        rows.copy(alloc)
    } else {
        Ok(Rows::empty(alloc))
    }
}

fn any_has(rows: &[Row], field: u8, value: &Value) -> bool
    ensures { result ≡ list_any (has_cell field value.now) rows.now }
{
    rows.iter().any(|row| has_cell(row, field, value))
}
