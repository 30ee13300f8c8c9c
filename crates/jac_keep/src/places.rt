//! Finds a record's rows in its table by bisection.
ghost use Rattle.std.specs.Prelude.{◌≡◌, ◌+◌, ◌≤◌, true, false, IsTrue, nat_lt, nat_le, not, length, take, drop};
ghost use Rattle.std.specs.List.{AllWithin};
ghost use Rattle.std.specs.List.Sorted.{IsPartitionPoint};
ghost use Rattle.jac_rows.specs.declared.row.Row.{Row as Seen};
ghost use Rattle.jac_keep.specs.Records.{AreOrdered, with_id, alternatives, before, behind};

use jac_rows::Row;
use jac_value::Id;

/// The place of a record's rows, or the place where they are to be inserted: the number of rows
/// before them, and the number of the record's rows.
#[derive(Debug, Clone, Copy)]
pub struct Place {
    pub start: usize,
    pub count: usize,
}

/// The place of a record's rows.
pub fn place_in(rows: &[Row], id: Id) -> Place
    requires { AreOrdered rows.now }
    ensures within { result.start + result.count ≤ length rows.now }
    ensures before { take result.start rows.now ≡ before id rows.now }
    ensures own { take result.count (drop result.start rows.now) ≡ alternatives id rows.now }
    ensures behind { drop (result.start + result.count) rows.now ≡ behind id rows.now }
{
    let start = count_below(rows, id);
    let (_, from) = rows.split_at(start);
    let count = count_through(from, id);
    Place { start, count }
}

/// The number of rows with lesser ids.
pub fn count_below(rows: &[Row], id: Id) -> usize
    ensures within { result ≤ length rows.now }
    ensures low { AreOrdered rows.now → take result rows.now ≡ before id rows.now }
    ensures high { AreOrdered rows.now
        → drop result rows.now ≡ with_id (λ i. not (nat_lt i id)) rows.now }
{
    rows.partition_point(|row| row.id < id)
}

/// The number of rows with ids that aren't greater.
pub fn count_through(rows: &[Row], id: Id) -> usize
    ensures within { result ≤ length rows.now }
    ensures low { AreOrdered rows.now → take result rows.now ≡ with_id (λ i. nat_le i id) rows.now }
    ensures high { AreOrdered rows.now
        → drop result rows.now ≡ with_id (λ i. not (nat_le i id)) rows.now }
{
    rows.partition_point(|row| row.id <= id)
}

/// The record's rows. They are sought near this place first.
pub fn own_near(rows: &[Row], id: Id, near: Place) -> &[Row]
    ensures { AreOrdered rows.now → result.now ≡ alternatives id rows.now }
{
    let place = place_near(rows, id, near);
    let (_, from) = rows.split_at(place.start);
    let (own, _) = from.split_at(place.count);
    own
}

/// The place of a record's rows. `near` is tried first, then the place behind it.
pub fn place_near(rows: &[Row], id: Id, near: Place) -> Place
    ensures within { result.start + result.count ≤ length rows.now }
    ensures own { AreOrdered rows.now
        → take result.count (drop result.start rows.now) ≡ alternatives id rows.now }
{
    let start = start_near(rows, id, near);
    let (_, from) = rows.split_at(start);
    let count = end_near(from, id, near.count);
    Place { start, count }
}

// The number of rows with lesser ids.
fn start_near(rows: &[Row], id: Id, near: Place) -> usize
    ensures within { result ≤ length rows.now }
    ensures low { AreOrdered rows.now → take result rows.now ≡ before id rows.now }
    ensures high { AreOrdered rows.now
        → drop result rows.now ≡ with_id (λ i. not (nat_lt i id)) rows.now }
{
    if is_start(rows, id, near.start) {
        return near.start;
    }
    let behind = near.start.saturating_add(near.count);
    if is_start(rows, id, behind) {
        return behind;
    }
    count_below(rows, id)
}

// The number of rows with ids that aren't greater.
fn end_near(rows: &[Row], id: Id, near: usize) -> usize
    ensures within { result ≤ length rows.now }
    ensures low { AreOrdered rows.now → take result rows.now ≡ with_id (λ i. nat_le i id) rows.now }
{
    if is_end(rows, id, near) {
        return near;
    }
    count_through(rows, id)
}

// Whether the rows before the place are those with lesser ids.
fn is_start(rows: &[Row], id: Id, place: usize) -> bool
    ensures within { IsTrue result → place ≤ length rows.now }
    ensures point { IsTrue result → AreOrdered rows.now → IsPartitionPoint
        (λ (r : Seen). nat_lt r.id id ≡ true) (λ r. nat_lt r.id id ≡ false) rows.now place }
{
    if place > rows.len() {
        return false;
    }
    if !is_below(rows, id, place) {
        return false;
    }
    if place == rows.len() {
        return true;
    }
    rows[place].id >= id
}

// Whether there is no row before the place, or it has a lesser id.
fn is_below(rows: &[Row], id: Id, place: usize) -> bool
    requires { place ≤ length rows.now }
    ensures { IsTrue result → AreOrdered rows.now
        → AllWithin (λ (r : Seen). nat_lt r.id id ≡ true) rows.now 0 place }
{
    if place == 0 {
        return true;
    }
    rows[place - 1].id < id
}

// Whether the rows before the place are those with ids that aren't greater.
fn is_end(rows: &[Row], id: Id, place: usize) -> bool
    ensures within { IsTrue result → place ≤ length rows.now }
    ensures point { IsTrue result → AreOrdered rows.now → IsPartitionPoint
        (λ (r : Seen). nat_le r.id id ≡ true) (λ r. nat_le r.id id ≡ false) rows.now place }
{
    if place > rows.len() {
        return false;
    }
    if !is_through(rows, id, place) {
        return false;
    }
    if place == rows.len() {
        return true;
    }
    rows[place].id > id
}

// Whether there is no row before the place, or its id isn't greater.
fn is_through(rows: &[Row], id: Id, place: usize) -> bool
    requires { place ≤ length rows.now }
    ensures { IsTrue result → AreOrdered rows.now
        → AllWithin (λ (r : Seen). nat_le r.id id ≡ true) rows.now 0 place }
{
    if place == 0 {
        return true;
    }
    rows[place - 1].id <= id
}
