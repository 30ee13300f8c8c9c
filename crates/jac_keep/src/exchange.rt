//! Puts rows in place of others, in a list with room for them.
ghost use Rattle.std.specs.Prelude.{◌≡◌, ◌+◌, ◌<◌, ◌≤◌, ◌++◌, ◌∷◌, [], length, take, drop, vec_len, vec_capacity};
ghost use Rattle.jac_keep.specs.Records.{AreOrdered, placed_rows};

use crate::places::{Place, place_in};
use jac_rows::Row;
use jac_value::Id;

/// Puts these rows in place of the record's alternatives. It takes no memory.
pub fn place(rows: &mut Vec<Row>, id: Id, new: Vec<Row>)
    requires ordered { AreOrdered rows.old.items }
    requires room { vec_len rows.old + vec_len new ≤ vec_capacity rows.old }
    ensures placed { rows.new.items ≡ placed_rows id new.items rows.old.items }
    ensures grown { vec_len rows.new ≤ vec_len rows.old + vec_len new }
    ensures capacity { vec_capacity rows.new ≡ vec_capacity rows.old }
{
    let Place { start, count } = place_in(rows.as_slice(), id);
    exchange(rows, start, start + count, new);
}

// Puts these rows in place of those from `start` to `end`. Rows are overwritten as far as possible,
// so that the rows after them move only if the numbers differ.
fn exchange(rows: &mut Vec<Row>, start: usize, end: usize, new: Vec<Row>)
    requires order { start ≤ end }
    requires within { end ≤ vec_len rows.old }
    requires room { vec_len rows.old + vec_len new ≤ vec_capacity rows.old }
    ensures exchanged { rows.new.items ≡ take start rows.old.items ++ new.items ++ drop end
        rows.old.items }
    ensures grown { vec_len rows.new ≤ vec_len rows.old + vec_len new }
    ensures capacity { vec_capacity rows.new ≡ vec_capacity rows.old }
{
    let mut at = start;
    let mut end = end;
    'new: for row in new {
        end = put_row(rows, at, end, row);
        at += 1;
    }
    drop(rows.drain(at..end));
}

// Puts the row at `at`. It overwrites the row there if `at` is below `end`, and is inserted
// otherwise. The result is the place of the rows that were at `end`.
fn put_row(rows: &mut Vec<Row>, at: usize, end: usize, row: Row) -> usize
    requires order { at ≤ end }
    requires within { end ≤ vec_len rows.old }
    requires room { vec_len rows.old < vec_capacity rows.old }
    ensures front { take (at + 1) rows.new.items ≡ take at rows.old.items ++ row ∷ [] }
    ensures behind { drop result rows.new.items ≡ drop end rows.old.items }
    ensures order { at + 1 ≤ result }
    ensures within { result ≤ vec_len rows.new }
    ensures grown { vec_len rows.new ≤ vec_len rows.old + 1 }
    ensures capacity { vec_capacity rows.new ≡ vec_capacity rows.old }
{
    if at < end {
        rows[at] = row;
        return end;
    }
    match rows.insert(at, row) {
        Ok(()) => end + 1,
        Err(_) => unreachable!(),
    }
}
