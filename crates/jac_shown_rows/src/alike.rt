//! Alternatives of a record that differ only in the sign of one label and answer alike count as
//! one. That label isn't consulted for them.
ghost use Rattle.std.specs.Prelude.{◌≡◌, ◌≤◌, ℕ, Bool, true, [], ◌∷◌, ◌++◌, length, IfOk, IfSome};
ghost use Rattle.std.specs.List.{list_all};
ghost use Rattle.jac_rows.specs.declared.row.Row.{Row as GuardedRow};
ghost use Rattle.jac_row_merge.specs.Merged.{IsJoined};
ghost use Rattle.jac_shown_rows.specs.Alike.{asked_alternative, asked_at, asked_where, joined_guard};

use jac_row_merge::join_guards;
use jac_rows::Row;
use jac_value::{Memory, Value};
use jac_world::{Guard, Label};
use std::alloc::Global;

/// The alternatives at the front of some rows that count as one: they answer as the first of them
/// if the guard holds. If `guard` is none, it is the guard of the first row. `behind` are the rows
/// after them.
pub struct Joined<'r> {
    pub guard: Option<Guard>,
    pub behind: &'r [Row],
}

// Written out, so that a caller's proof doesn't branch if there is no guard to drop.
impl Drop for Joined<'_> {
    fn drop(self) {
        let Joined { guard, behind: _ } = self;
        match guard {
            Some(_) => {}
            None => {}
        }
    }
}

/// The joined guard, or the guard of the row if there is none.
pub fn guard_of<'g>(joined: &'g Option<Guard>, row: &'g Row) -> &'g Guard
    ensures { result.now ≡ joined_guard joined.now row.now }
{
    match joined {
        Some(guard) => guard,
        None => &row.guard,
    }
}

/// Joins as many alternatives, from the first on, as count as one: for a cell of this field, or for
/// whether the record exists. No label is dropped from a guard of `least` labels. Only guards with
/// equally many labels can be joined, so an attempt that falls short ends all that depend on it,
/// and nothing is inspected repeatedly.
#[cycle(join_alike)]
pub(crate) fn join_alike<'r>(
    alloc: Global,
    row: &Row,
    behind: &'r [Row],
    field: Option<u8>,
    least: usize,
) -> Result<Joined<'r>, Memory>
    ensures same { IfOk result (λ one. (w : ℕ → Bool) → asked_at w field (row.now ∷ behind.now)
        ≡ asked_where w (joined_guard one.guard row.now) field row.now
        ++ asked_at w field one.behind.now) }
    ensures no_more { IfOk result (λ one. length one.behind.now ≤ length behind.now) }
    ensures fewer { IfOk result (λ one. (p : (ℕ × Bool) → Bool) → list_all p row.now.guard ≡ true
        → list_all p (joined_guard one.guard row.now) ≡ true) }
    ensures left { IfOk result (λ one. (p : GuardedRow → Bool) → list_all p behind.now ≡ true
        → list_all p one.behind.now ≡ true) }
{
    let mut guard = None;
    let mut rest = behind;
    'alike: while let Some((next, more)) = rest.split_first() {
        let count = guard_of(&guard, row).pairs().len();
        if count <= least || !answer_alike(row, next, field) {
            return Ok(Joined {
                guard,
                behind: rest,
            });
        }
        let other = join_alike(alloc, next, more, field, count)?;
        match join_guards(alloc, guard_of(&guard, row), guard_of(&other.guard, next))? {
            Some(joined) => guard = Some(joined),
            None => {
                return Ok(Joined {
                    guard,
                    behind: rest,
                });
            }
        }
        rest = other.behind;
    }
    Ok(Joined {
        guard,
        behind: rest,
    })
}

/// The alternatives at the front that count as one, as `join_alike` joins them. Two that answer
/// alike and of which each assignment shows exactly one are joined without a copy of a guard. If
/// the first two don't answer alike, no guard is inspected.
pub fn join_first<'r>(
    alloc: Global,
    row: &Row,
    behind: &'r [Row],
    field: Option<u8>,
) -> Result<Joined<'r>, Memory>
    ensures same { IfOk result (λ one. (w : ℕ → Bool) → asked_at w field (row.now ∷ behind.now)
        ≡ asked_where w (joined_guard one.guard row.now) field row.now
        ++ asked_at w field one.behind.now) }
    ensures no_more { IfOk result (λ one. length one.behind.now ≤ length behind.now) }
    ensures fewer { IfOk result (λ one. (p : (ℕ × Bool) → Bool) → list_all p row.now.guard ≡ true
        → list_all p (joined_guard one.guard row.now) ≡ true) }
    ensures left { IfOk result (λ one. (p : GuardedRow → Bool) → list_all p behind.now ≡ true
        → list_all p one.behind.now ≡ true) }
{
    let Some((next, rest)) = behind.split_first() else {
        return Ok(Joined {
            guard: None,
            behind,
        });
    };
    if !answer_alike(row, next, field) {
        return Ok(Joined {
            guard: None,
            behind,
        });
    }
    if are_opposite(row.guard.pairs(), next.guard.pairs()) {
        return Ok(Joined {
            guard: Some(Guard::empty(alloc)),
            behind: rest,
        });
    }
    join_alike(alloc, row, behind, field, 0)
}

// Whether both guards name only one label, the same one, with different signs.
fn are_opposite(one: &[(Label, bool)], other: &[(Label, bool)]) -> bool
    ensures { result ≡ true → IsJoined one.now other.now [] }
{
    match (one, other) {
        ([pair], [turned]) => pair.0 == turned.0 && pair.1 != turned.1,
        _ => false,
    }
}

// Whether both are alternatives of one record, with the same cell at the field, if a field is
// given.
fn answer_alike(one: &Row, other: &Row, field: Option<u8>) -> bool
    ensures { result ≡ true → asked_alternative field one.now.id one.now.cells
        ≡ asked_alternative field other.now.id
        other.now.cells }
{
    one.id == other.id && have_same_cell(one, other, field)
}

fn have_same_cell(one: &Row, other: &Row, field: Option<u8>) -> bool
    ensures { result ≡ true → one.now.id ≡ other.now.id → asked_alternative field one.now.id
        one.now.cells
        ≡ asked_alternative field other.now.id other.now.cells }
{
    match field {
        Some(field) => {
            let place = usize::from(field);
            match (
                one.cells.as_slice().get(place),
                other.cells.as_slice().get(place),
            ) {
                (Some(cell), Some(other)) => is_same_cell(cell, other),
                (None, None) => true,
                _ => false,
            }
        }
        None => true,
    }
}

fn is_same_cell(one: &Value, other: &Value) -> bool
    ensures { result ≡ true → one.now ≡ other.now }
{
    one == other
}
