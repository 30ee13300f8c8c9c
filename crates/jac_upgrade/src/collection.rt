//! The alterations of all records, model by model.
ghost use Rattle.std.specs.Prelude.{◌≡◌, ◌<◌, ◌≤◌, length, IfOk, IsErrOf, IsTrue, OnOk};
ghost use Rattle.std.specs.List.{AllByRecursion};
ghost use Rattle.jac_io.specs.Faults.{Rose};
ghost use Rattle.jac_keep.specs.KeeperSeen.{IsLeft};
ghost use Rattle.jac_keep.specs.declared.stop.Stop.TheVariants.{Keeper as KeeperStopped};
ghost use Rattle.jac_lang.specs.Mirror.{application_of};
ghost use Rattle.jac_rows.specs.Good.{IsSound};
ghost use Rattle.jac_rows.specs.Tables.{rows_of};
ghost use Rattle.jac_upgrade.specs.Steps.{AltersBelow, AltersRows, IsOwnAlteration, first_count, front_count};

use crate::records::add_record;
use crate::schema::model_count;
use jac_keep::{Alteration, Keeper, Stop};
use jac_lang::App;
use jac_rows::Row;
use jac_value::{Id, Memory};
use jac_world::Steps;
use std::alloc::Global;
use std::sync::ledger::Ledger;

// The number of rows at the front that belong to the first row's record.
fn first_count(rows: &[Row]) -> usize
    ensures count { result ≡ first_count rows.now }
    ensures within { result ≤ length rows.now }
{
    match rows.split_first() {
        Some((first, rest)) => front_count(rest, first.id) + 1,
        None => 0,
    }
}

// The number of rows at the front that belong to the record.
fn front_count(rows: &[Row], id: Id) -> usize
    ensures count { result ≡ front_count id rows.now }
    ensures within { result ≤ length rows.now }
{
    let mut count: usize = 0;
    let mut left = rows;
    'rows: while let Some((first, rest)) = left.split_first() {
        if first.id != id {
            return count;
        }
        count += 1;
        left = rest;
    }
    count
}

// Adds the alterations of the records of a model, from all its rows.
fn add_rows<L: Ledger>(
    alloc: Global,
    old: &App,
    new: &App,
    model: u8,
    rows: &[Row],
    made: &mut Vec<Alteration>,
    splits: &mut Steps<L>,
) -> Result<(), Memory>
    requires old { model < length old.now.models }
    requires new { model < length new.now.models }
    ensures { OnOk result (AltersRows (application_of old.now).models
        (application_of new.now).models model rows.now made.old.items made.new.items) }
{
    let mut left = rows;
    'records: while !left.is_empty() {
        let (own, rest) = left.split_at(first_count(left));
        add_record(alloc, old, new, model, own, made, splits)?;
        left = rest;
    }
    Ok(())
}

// Adds the alterations of the records of a model.
fn add_model<K: Keeper, L: Ledger>(
    alloc: Global,
    keeper: &mut K,
    old: &App,
    new: &App,
    model: u8,
    made: &mut Vec<Alteration>,
    splits: &mut Steps<L>,
) -> Result<(), Stop>
    requires attached { IsTrue (K.seen keeper.old).store.attached }
    requires old { model < length old.now.models }
    requires new { model < length new.now.models }
    requires own { AllByRecursion IsOwnAlteration made.old.items }
    ensures left { IsLeft (K.seen keeper.old) (K.seen keeper.new) }
    ensures rose { IsErrOf result KeeperStopped
        → Rose (K.seen keeper.old).faults (K.seen keeper.new).faults }
    ensures own { OnOk result (AllByRecursion IsOwnAlteration made.new.items) }
    ensures sound { IsTrue (K.seen keeper.new).tells
        → OnOk result (IsSound (K.seen keeper.old).state) }
    ensures added { IsTrue (K.seen keeper.new).tells
        → OnOk result (AltersRows (application_of old.now).models (application_of new.now).models
        model (rows_of (K.seen keeper.old).state.tables model) made.old.items made.new.items) }
{
    let rows = keeper.rows(alloc, model)?;
    add_rows(alloc, old, new, model, rows.as_slice(), made, splits)?;
    Ok(())
}

/// The alterations of all records of the models of the old application.
pub(crate) fn alterations<K: Keeper, L: Ledger>(
    alloc: Global,
    keeper: &mut K,
    old: &App,
    new: &App,
    splits: &mut Steps<L>,
) -> Result<Vec<Alteration>, Stop>
    requires attached { IsTrue (K.seen keeper.old).store.attached }
    requires extends { length old.now.models ≤ length new.now.models }
    ensures left { IsLeft (K.seen keeper.old) (K.seen keeper.new) }
    ensures rose { IsErrOf result KeeperStopped
        → Rose (K.seen keeper.old).faults (K.seen keeper.new).faults }
    ensures own { IfOk result (λ v. AllByRecursion IsOwnAlteration v.items) }
    ensures all { IsTrue (K.seen keeper.new).tells
        → IfOk result (λ v. AltersBelow (application_of old.now).models
        (application_of new.now).models (K.seen keeper.old).state (length old.now.models) v.items) }
{
    let mut made = Vec::new(alloc);
    'models: for model in 0..model_count(old) {
        add_model(alloc, keeper, old, new, model, &mut made, splits)?;
    }
    Ok(made)
}
