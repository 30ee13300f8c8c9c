ghost use Rattle.std.specs.Prelude.{◌≡◌, ◌++◌, map, IfOk, OnOk};
ghost use Rattle.jac_world.specs.World.{shown_by};
ghost use Rattle.jac_rows.specs.Project.{rows_at, project_at};

use crate::{PlainRow, PlainState, PlainTable, PlainTables, Row, State, Tables};
use jac_value::Memory;
use jac_world::Assignment;
use std::alloc::Global;

/// The projection of the state under the assignment: the rows whose guards hold, in their order,
/// and the number.
pub fn project(alloc: Global, state: &State, assignment: &Assignment) -> Result<PlainState, Memory>
    ensures { IfOk result (λ p. p ≡ project_at (shown_by assignment.now) state.now) }
{
    let tables = project_tables(alloc, &state.tables, assignment)?;
    Ok(PlainState {
        tables,
        number: state.number,
    })
}

fn project_tables(
    alloc: Global,
    tables: &Tables,
    assignment: &Assignment,
) -> Result<PlainTables, Memory>
    ensures { IfOk result (λ t. t ≡ map (rows_at (shown_by assignment.now)) tables.now) }
{
    let tables = tables.as_slice();
    let mut out = Vec::new(alloc);
    'tables: for table in tables {
        let plain = project_rows(alloc, table.as_slice(), assignment)?;
        out.push(plain)?;
    }
    Ok(PlainTables::from_vec(out))
}

fn project_rows(alloc: Global, rows: &[Row], assignment: &Assignment) -> Result<PlainTable, Memory>
    ensures { IfOk result (λ t. t ≡ rows_at (shown_by assignment.now) rows.now) }
{
    let mut out = Vec::new(alloc);
    'rows: for row in rows {
        if row.guard.holds(assignment) {
            let cells = row.cells.copy(alloc)?;
            out.push(PlainRow { id: row.id, cells })?;
        }
    }
    Ok(PlainTable::from_vec(out))
}
