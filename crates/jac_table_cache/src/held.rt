//! The tables that are held, each at the place of its model, and their indexes.
ghost use Rattle.std.specs.Prelude.{◌≡◌, ◌<◌, ◌==◌, ◌&&◌, ℕ, true, false, List, [], Some, None, length, if◌then◌else◌, is_some, IfOk, IfSome, OnOk, OnErr};
ghost use Rattle.std.specs.Option.{option_copied, option_map};
ghost use Rattle.jac_rows.specs.declared.row.Row.{Row as Seen};
ghost use Rattle.jac_keep.specs.Alterations.{alters};
ghost use Rattle.jac_keep.specs.MatchingRecords.{holders};
ghost use Rattle.jac_keep.specs.Records.{AreOrdered, are_in_order};
ghost use Rattle.jac_table_cache.specs.Held.{held, rows_held, IsAfter, IsHolding, IsLater};

use crate::indexes::{alter_indexes, forget_dropped, table_of};
use jac_keep::{Alterations, TableIndexes, is_altered, is_in_order};
use jac_rows::Rows;
use jac_value::{Memory, Value};
use std::alloc::Global;
use std::marker::Model;

/// The rows of the models whose tables are held, and the indexes of the fields that were queried.
#[derive(Drop)]
pub struct HeldTables {
    tables: Vec<Option<Rows>>,
    indexes: TableIndexes,
}

impl Model for HeldTables {
    ghost use Rattle.std.specs.Prelude.{List, Option};
    ghost use Rattle.jac_rows.specs.declared.row.Row.{Row as Item};
    ghost use Rattle.jac_table_cache.specs.Held.{IsHolding};

    ghost Value = { List (Option (List Item)) };

    ghost view = { λ h. h.tables.items };

    ghost invariant = { λ h. IsHolding h.tables.items h.indexes };
}

impl HeldTables {
    pub fn none(alloc: Global) -> HeldTables
        ensures { result ≡ [] }
    {
        HeldTables {
            tables: Vec::new(alloc),
            indexes: TableIndexes::none(alloc),
        }
    }

    /// The rows of the model, if its table is held.
    pub fn find(&self, model: u8) -> Option<&Rows>
        ensures { option_copied result ≡ held model self.now }
    {
        table_of(self.tables.as_slice(), model)
    }

    /// Whether the model's table is held.
    pub fn holds(&self, model: u8) -> bool
        ensures { result ≡ is_some (held model self.now) }
    {
        self.find(model).is_some()
    }

    /// All alternatives of each record that has an alternative with the value at the field, if the
    /// model's table is held. The first query of a field makes its index.
    pub fn find_with(
        &mut self,
        alloc: Global,
        model: u8,
        field: u8,
        value: &Value,
    ) -> Result<Option<Rows>, Memory>
        ensures found { IfOk result (λ found.
            found ≡ option_map (holders field value.now) (held model self.old)) }
        ensures held { OnErr result ((rows : List Seen) × (held model self.old ≡ Some rows)) }
        ensures same { self.new ≡ self.old }
    {
        let tables = self.tables.as_slice();
        find_in(alloc, tables, &mut self.indexes, model, field, value)
    }

    /// Holds these rows as the model's table, if they are by rising id.
    pub fn hold(&mut self, model: u8, rows: Rows) -> Result<(), Memory>
        ensures put { OnOk result ((m : ℕ) → held m self.new
            ≡ (if model == m && are_in_order 0 rows then Some rows else held m self.old)) }
        ensures kept { OnErr result ((m : ℕ) → held m self.new ≡ held m self.old) }
    {
        if is_in_order(rows.as_slice()) {
            hold_in(&mut self.tables, &mut self.indexes, model, rows)
        } else {
            Ok(())
        }
    }

    /// Applies the alterations to the held tables and their indexes. An altered table is dropped if
    /// it was empty, or if memory runs out.
    pub fn alter(&mut self, alloc: Global, changed: &Alterations)
        ensures { (m : ℕ) → IsLater m changed.now (held m self.old) (held m self.new) }
    {
        alter_in(alloc, &mut self.tables, &mut self.indexes, changed);
    }

    pub fn forget_all(&mut self, alloc: Global)
        ensures { self.new ≡ [] }
    {
        self.tables.clear();
        self.indexes = TableIndexes::none(alloc);
    }
}

fn find_in(
    alloc: Global,
    tables: &[Option<Rows>],
    indexes: &mut TableIndexes,
    model: u8,
    field: u8,
    value: &Value,
) -> Result<Option<Rows>, Memory>
    requires { IsHolding tables.now indexes.old }
    ensures found { IfOk result (λ found.
        found ≡ option_map (holders field value.now) (held model tables.now)) }
    ensures held { OnErr result ((rows : List Seen) × (held model tables.now ≡ Some rows)) }
    ensures holding { IsHolding tables.now indexes.new }
{
    match table_of(tables, model) {
        Some(rows) => {
            let found = indexes.find(alloc, rows.as_slice(), model, field, value)?;
            Ok(Some(found))
        }
        None => Ok(None),
    }
}

fn hold_in(
    tables: &mut Vec<Option<Rows>>,
    indexes: &mut TableIndexes,
    model: u8,
    rows: Rows,
) -> Result<(), Memory>
    requires holding { IsHolding tables.old.items indexes.old }
    requires ordered { are_in_order 0 rows ≡ true }
    ensures put { OnOk result ((m : ℕ) → held m tables.new.items
        ≡ (if model == m then Some rows else held m tables.old.items)) }
    ensures kept { OnErr result ((m : ℕ) → held m tables.new.items ≡ held m tables.old.items) }
    ensures holding { IsHolding tables.new.items indexes.new }
{
    indexes.forget_one(model);
    put_in(tables, model, rows)
}

fn put_in(tables: &mut Vec<Option<Rows>>, model: u8, rows: Rows) -> Result<(), Memory>
    ensures put { OnOk result ((m : ℕ) → held m tables.new.items
        ≡ (if model == m then Some rows else held m tables.old.items)) }
    ensures kept { OnErr result ((m : ℕ) → held m tables.new.items ≡ held m tables.old.items) }
{
    make_room(tables, usize::from(model))?;
    put_at(tables, usize::from(model), Some(rows));
    Ok(())
}

fn alter_in(
    alloc: Global,
    tables: &mut Vec<Option<Rows>>,
    indexes: &mut TableIndexes,
    changed: &Alterations,
)
    requires { IsHolding tables.old.items indexes.old }
    ensures later { (m : ℕ) →
        IsLater m changed.now (held m tables.old.items) (held m tables.new.items) }
    ensures holding { IsHolding tables.new.items indexes.new }
{
    alter_indexes(alloc, tables.as_slice(), indexes, changed);
    alter_each(alloc, tables, changed);
    forget_dropped(tables.as_slice(), indexes, changed.as_slice());
}

// Alters each of the tables.
fn alter_each(alloc: Global, tables: &mut Vec<Option<Rows>>, changed: &Alterations)
    requires { (m : ℕ) → AreOrdered (rows_held m tables.old.items) }
    ensures later { (m : ℕ) →
        IsLater m changed.now (held m tables.old.items) (held m tables.new.items) }
    ensures ordered { (m : ℕ) → AreOrdered (rows_held m tables.new.items) }
    ensures same { (m : ℕ) → alters m changed.now ≡ false →
        held m tables.new.items ≡ held m tables.old.items }
{
    'tables: for at in 0..tables.len() {
        alter_at(alloc, tables, at, changed);
    }
}

// Alters the table at this place.
fn alter_at(alloc: Global, tables: &mut Vec<Option<Rows>>, at: usize, changed: &Alterations)
    requires { at < length tables.old.items }
    ensures later { (m : ℕ) → at ≡ m →
        IsLater m changed.now (held m tables.old.items) (held m tables.new.items) }
    ensures ordered { ((m : ℕ) → AreOrdered (rows_held m tables.old.items)) →
        (m : ℕ) → AreOrdered (rows_held m tables.new.items) }
    ensures others { (m : ℕ) → (at == m) ≡ false →
        held m tables.new.items ≡ held m tables.old.items }
    ensures same { (m : ℕ) → alters m changed.now ≡ false →
        held m tables.new.items ≡ held m tables.old.items }
    ensures count { length tables.new.items ≡ length tables.old.items }
{
    if is_altered(changed.as_slice(), at) {
        renew_at(alloc, tables, at, changed);
        return;
    }
}

// Alters the table at this place. At least one of its records is altered.
fn renew_at(alloc: Global, tables: &mut Vec<Option<Rows>>, at: usize, changed: &Alterations)
    requires within { at < length tables.old.items }
    requires hit { alters at changed.now ≡ true }
    ensures later { (m : ℕ) → at ≡ m →
        IsLater m changed.now (held m tables.old.items) (held m tables.new.items) }
    ensures ordered { ((m : ℕ) → AreOrdered (rows_held m tables.old.items)) →
        (m : ℕ) → AreOrdered (rows_held m tables.new.items) }
    ensures others { (m : ℕ) → (at == m) ≡ false →
        held m tables.new.items ≡ held m tables.old.items }
    ensures same { (m : ℕ) → alters m changed.now ≡ false →
        held m tables.new.items ≡ held m tables.old.items }
    ensures count { length tables.new.items ≡ length tables.old.items }
{
    let before = take_at(tables, at);
    let after = altered_table(alloc, before, at, changed);
    put_at(tables, at, after);
}

fn take_at(tables: &mut Vec<Option<Rows>>, at: usize) -> Option<Rows>
    requires { at < length tables.old.items }
    ensures taken { result ≡ held at tables.old.items }
    ensures left { (m : ℕ) → held m tables.new.items
        ≡ (if at == m then None else held m tables.old.items) }
    ensures count { length tables.new.items ≡ length tables.old.items }
{
    tables[at].take()
}

// The table after the alterations, unless it was empty or memory ran out.
fn altered_table(
    alloc: Global,
    table: Option<Rows>,
    model: usize,
    changed: &Alterations,
) -> Option<Rows>
    ensures altered { IfSome result (λ rows. IsAfter model changed.now table rows) }
    ensures ordered { IfSome result (λ rows. AreOrdered rows) }
{
    match table {
        Some(rows) => altered_rows(alloc, rows, model, changed),
        None => None,
    }
}

fn altered_rows(alloc: Global, rows: Rows, model: usize, changed: &Alterations) -> Option<Rows>
    ensures altered { IfSome result (λ after. IsAfter model changed.now (Some rows) after) }
    ensures ordered { IfSome result (λ after. AreOrdered after) }
{
    if rows.as_slice().is_empty() {
        return None;
    }
    match changed.alter(alloc, model, rows) {
        Ok(rows) => in_order(rows),
        Err(_) => None,
    }
}

// The rows, if they are by rising id.
fn in_order(rows: Rows) -> Option<Rows>
    ensures same { IfSome result (λ same. same ≡ rows) }
    ensures ordered { IfSome result (λ same. AreOrdered same) }
{
    if is_in_order(rows.as_slice()) {
        Some(rows)
    } else {
        None
    }
}

// Makes room for the table of a model. The added places hold no tables.
fn make_room(tables: &mut Vec<Option<Rows>>, at: usize) -> Result<(), Memory>
    ensures room { OnOk result (at < length tables.new.items) }
    ensures same { (m : ℕ) → held m tables.new.items ≡ held m tables.old.items }
{
    'places: while tables.len() <= at {
        tables.push(None)?;
    }
    Ok(())
}

fn put_at(tables: &mut Vec<Option<Rows>>, at: usize, table: Option<Rows>)
    requires { at < length tables.old.items }
    ensures count { length tables.new.items ≡ length tables.old.items }
    ensures put { (m : ℕ) → held m tables.new.items
        ≡ (if at == m then table else held m tables.old.items) }
{
    tables[at] = table;
}
