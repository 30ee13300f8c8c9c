//! Puts alterations in place among rows by rising id.
ghost use Rattle.std.specs.Prelude.{◌≡◌, ◌+◌, ◌≤◌, ◌++◌, ◌∷◌, [], vec_len, vec_capacity, IfOk, OnOk};
ghost use Rattle.jac_keep.specs.Records.{AreOrdered, are_in_order};
ghost use Rattle.jac_keep.specs.Alterations.{AreOwn, altered_rows, of_model, placed_each, brought};

use crate::Alteration;
use crate::exchange::place;
use crate::split::alter_any;
use jac_rows::Row;
use jac_value::{Id, Memory, id_model};
use std::alloc::Global;

/// The rows of a model after the alterations of its records.
pub fn alter_rows(
    alloc: Global,
    changed: &[Alteration],
    model: usize,
    rows: Vec<Row>,
) -> Result<Vec<Row>, Memory>
    requires { AreOwn changed.now }
    ensures { IfOk result (λ v. v.items ≡ altered_rows model changed.now rows.items) }
{
    if is_in_order(rows.as_slice()) {
        alter_ordered(alloc, changed, model, rows)
    } else {
        alter_any(alloc, changed, model, rows)
    }
}

/// Whether the ids don't fall.
pub fn is_in_order(rows: &[Row]) -> bool
    ensures { result ≡ are_in_order 0 rows.now }
{
    let mut last = Id(0);
    'rows: for row in rows {
        if row.id < last {
            return false;
        }
        last = row.id;
    }
    true
}

// The same, for rows with ids that don't fall.
fn alter_ordered(
    alloc: Global,
    changed: &[Alteration],
    model: usize,
    rows: Vec<Row>,
) -> Result<Vec<Row>, Memory>
    requires ordered { AreOrdered rows.items }
    requires own { AreOwn changed.now }
    ensures { IfOk result (λ v. v.items ≡ altered_rows model changed.now rows.items) }
{
    let mut rows = rows;
    let news = prepare(alloc, &mut rows, model, changed)?;
    Ok(place_each(rows, news))
}

/// Copies of the alterations of the model's records. It also makes room for their rows.
pub fn prepare(
    alloc: Global,
    rows: &mut Vec<Row>,
    model: usize,
    changed: &[Alteration],
) -> Result<Vec<Alteration>, Memory>
    ensures rows { rows.new.items ≡ rows.old.items }
    ensures news { IfOk result (λ v. v.items ≡ of_model model changed.now) }
    ensures room { IfOk result (λ v. vec_len rows.new + brought v.items ≤ vec_capacity rows.new) }
{
    let news = copies_of(alloc, model, changed)?;
    let count = count_brought(news.as_slice())?;
    rows.reserve(count)?;
    Ok(news)
}

// Copies of the alterations of the model's records.
fn copies_of(alloc: Global, model: usize, changed: &[Alteration]) -> Result<Vec<Alteration>, Memory>
    ensures { IfOk result (λ v. v.items ≡ of_model model changed.now) }
{
    let mut copies = Vec::new(alloc);
    'changed: for alteration in changed {
        add_if_of(alloc, &mut copies, model, alteration)?;
    }
    Ok(copies)
}

// Adds a copy of the alteration if its record is of the model.
fn add_if_of(
    alloc: Global,
    copies: &mut Vec<Alteration>,
    model: usize,
    alteration: &Alteration,
) -> Result<(), Memory>
    ensures { OnOk result (copies.new.items ≡ copies.old.items ++ of_model model
        (alteration.now ∷ [])) }
{
    if usize::from(id_model(alteration.id)) == model {
        let copy = alteration.copy(alloc)?;
        copies.push(copy)?;
    }
    Ok(())
}

// The number of rows that the alterations contain.
fn count_brought(news: &[Alteration]) -> Result<usize, Memory>
    ensures { IfOk result (λ n. n ≡ brought news.now) }
{
    let mut count: usize = 0;
    'news: for alteration in news {
        count = count
            .checked_add(alteration.rows.as_slice().len())
            .ok_or(Memory)?;
    }
    Ok(count)
}

/// The rows after the alterations. There must be room for the new rows.
pub fn place_each(rows: Vec<Row>, news: Vec<Alteration>) -> Vec<Row>
    requires ordered { AreOrdered rows.items }
    requires own { AreOwn news.items }
    requires room { vec_len rows + brought news.items ≤ vec_capacity rows }
    ensures { result.items ≡ placed_each news.items rows.items }
{
    let mut altered = rows;
    'news: for alteration in news {
        let Alteration { id, rows } = alteration;
        place(&mut altered, id, rows.into_vec());
    }
    altered
}
