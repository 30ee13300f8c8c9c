//! The indexes of a table's fields. The place of an index is that of its field.
ghost use Rattle.std.specs.Prelude.{◌≡◌, ◌<◌, ◌==◌, ℕ, Some, None, false, length, if◌then◌else◌, IfOk, OnOk, OnErr};
ghost use Rattle.std.specs.Option.{option_copied};
ghost use Rattle.jac_keep.specs.Indexed.{field_index, IsFieldAfter};

use crate::by_field::altered_field;
use jac_index::ByValue;
use jac_rows::Row;
use jac_value::Memory;
use std::alloc::Global;

/// The index at the place, if there is one.
pub fn field_of(fields: &[Option<ByValue>], place: usize) -> Option<&ByValue>
    ensures { option_copied result ≡ field_index place fields.now }
{
    match fields.get(place) {
        Some(entry) => match entry {
            Some(values) => Some(values),
            None => None,
        },
        None => None,
    }
}

/// Puts an index at this place. If the list is too short, it is extended with fields that have
/// none.
pub fn put_in(
    fields: &mut Vec<Option<ByValue>>,
    place: usize,
    values: ByValue,
) -> Result<(), Memory>
    ensures put { OnOk result ((f : ℕ) → field_index f fields.new.items
        ≡ (if place == f then Some values else field_index f fields.old.items)) }
    ensures kept { OnErr result ((f : ℕ) → field_index f fields.new.items
        ≡ field_index f fields.old.items) }
{
    make_room(fields, place)?;
    put_at(fields, place, Some(values));
    Ok(())
}

fn make_room(fields: &mut Vec<Option<ByValue>>, place: usize) -> Result<(), Memory>
    ensures room { OnOk result (place < length fields.new.items) }
    ensures same { (f : ℕ) → field_index f fields.new.items ≡ field_index f fields.old.items }
{
    'places: while fields.len() <= place {
        fields.push(None)?;
    }
    Ok(())
}

fn put_at(fields: &mut Vec<Option<ByValue>>, place: usize, entry: Option<ByValue>)
    requires { place < length fields.old.items }
    ensures count { length fields.new.items ≡ length fields.old.items }
    ensures put { (f : ℕ) → field_index f fields.new.items
        ≡ (if place == f then entry else field_index f fields.old.items) }
{
    fields[place] = entry;
}

fn take_at(fields: &mut Vec<Option<ByValue>>, place: usize) -> Option<ByValue>
    requires { place < length fields.old.items }
    ensures taken { result ≡ field_index place fields.old.items }
    ensures left { (f : ℕ) → field_index f fields.new.items
        ≡ (if place == f then None else field_index f fields.old.items) }
    ensures count { length fields.new.items ≡ length fields.old.items }
{
    fields[place].take()
}

/// The indexes, each after the new rows replace the old ones.
pub fn alter_fields(
    alloc: Global,
    fields: Vec<Option<ByValue>>,
    old: &[Row],
    new: &[Row],
) -> Result<Vec<Option<ByValue>>, Memory>
    ensures { IfOk result (λ after. (f : ℕ) → IsFieldAfter f old.now new.now
        (field_index f fields.items) (field_index f after.items)) }
{
    let mut after = fields;
    'fields: for place in 0..after.len() {
        alter_at(alloc, &mut after, place, old, new)?;
    }
    Ok(after)
}

// Alters the index at this place, if there is one.
fn alter_at(
    alloc: Global,
    fields: &mut Vec<Option<ByValue>>,
    place: usize,
    old: &[Row],
    new: &[Row],
) -> Result<(), Memory>
    requires { place < length fields.old.items }
    ensures here { OnOk result (IsFieldAfter place old.now new.now
        (field_index place fields.old.items) (field_index place fields.new.items)) }
    ensures others { OnOk result ((f : ℕ) → (place == f) ≡ false →
        field_index f fields.new.items ≡ field_index f fields.old.items) }
    ensures count { OnOk result (length fields.new.items ≡ length fields.old.items) }
{
    let before = take_at(fields, place);
    let after = altered_field(alloc, before, place, old, new)?;
    put_at(fields, place, after);
    Ok(())
}
