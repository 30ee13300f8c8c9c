ghost use Rattle.std.specs.Prelude.{◌≡◌, IfOk};

use jac_value::{Cells, Id, List, Memory, TryClone};
use jac_world::Guard;
use std::alloc::Global;

/// One alternative of a record: the cells that it has if the guard holds.
#[derive(Debug, Drop)]
pub struct Row {
    pub id: Id,
    pub guard: Guard,
    pub cells: Cells,
}

impl Row {
    pub fn copy(&self, alloc: Global) -> Result<Row, Memory>
        ensures { IfOk result (λ r. r ≡ self.now) }
    {
        let guard = self.guard.copy(alloc)?;
        let cells = self.cells.copy(alloc)?;
        Ok(Row {
            id: self.id,
            guard,
            cells,
        })
    }
}

/// A list of rows.
pub type Rows = List<Row>;

impl TryClone for Row {
    fn try_clone(&self, alloc: Global) -> Result<Row, Memory> {
        let copy = self.copy(alloc)?;
        Ok(copy)
    }
}
