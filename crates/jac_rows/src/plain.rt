ghost use Rattle.std.specs.Prelude.{◌≡◌, [], IfOk};
ghost use Rattle.jac_rows.specs.Tables.{rows_of};

use jac_value::{Cells, Id, List, Memory, TryClone};
use std::alloc::Global;
use std::marker::Model;

/// A record in a projection, as one viewer sees it.
#[derive(Debug, Drop)]
pub struct PlainRow {
    pub id: Id,
    pub cells: Cells,
}

impl PlainRow {
    pub fn copy(&self, alloc: Global) -> Result<PlainRow, Memory>
        ensures { IfOk result (λ r. r ≡ self.now) }
    {
        let cells = self.cells.copy(alloc)?;
        Ok(PlainRow { id: self.id, cells })
    }
}

impl TryClone for PlainRow {
    fn try_clone(&self, alloc: Global) -> Result<PlainRow, Memory> {
        let copy = self.copy(alloc)?;
        Ok(copy)
    }
}

/// The records of a model in a projection, as one viewer sees them.
pub type PlainTable = List<PlainRow>;

/// One table for each model, in the order of the models. A model beyond them has no records.
#[derive(Debug, Drop)]
pub struct PlainTables {
    tables: Vec<PlainTable>,
}

impl Model for PlainTables {
    ghost use Rattle.std.specs.Prelude.{List};
    ghost use Rattle.jac_rows.specs.declared.plain.PlainRow.{PlainRow as Item};

    ghost Value = { List (List Item) };

    ghost view = { λ t. t.tables.items };
}

impl PlainTables {
    pub fn empty(alloc: Global) -> PlainTables
        ensures { result ≡ [] }
    {
        PlainTables {
            tables: Vec::new(alloc),
        }
    }

    pub fn from_vec(tables: Vec<PlainTable>) -> PlainTables
        ensures { result ≡ tables.items }
    {
        PlainTables { tables }
    }

    pub fn as_slice(&self) -> &[PlainTable]
        ensures { result.now ≡ self.now }
    {
        self.tables.as_slice()
    }

    pub fn into_vec(self) -> Vec<PlainTable>
        ensures { result.items ≡ self }
    {
        self.tables
    }

    /// The records of a model.
    pub fn rows(&self, model: u8) -> &[PlainRow]
        ensures { result.now ≡ rows_of self.now model }
    {
        match self.tables.as_slice().get(usize::from(model)) {
            Some(table) => table.as_slice(),
            None => &[],
        }
    }

    pub fn copy(&self, alloc: Global) -> Result<PlainTables, Memory>
        ensures { IfOk result (λ t. t ≡ self.now) }
    {
        let all = self.tables.as_slice();
        let mut tables = Vec::new(alloc);
        'tables: for table in all {
            let table = table.copy(alloc)?;
            tables.push(table)?;
        }
        Ok(PlainTables { tables })
    }
}

/// A projection: what one viewer sees of a state.
#[derive(Debug, Drop)]
pub struct PlainState {
    pub tables: PlainTables,
    pub number: u64,
}

impl PlainState {
    pub fn copy(&self, alloc: Global) -> Result<PlainState, Memory>
        ensures { IfOk result (λ s. s ≡ self.now) }
    {
        let tables = self.tables.copy(alloc)?;
        Ok(PlainState {
            tables,
            number: self.number,
        })
    }
}
