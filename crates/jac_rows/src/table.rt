ghost use Rattle.std.specs.Prelude.{◌≡◌, [], IfOk};
ghost use Rattle.jac_rows.specs.Apart.{IsTable};
ghost use Rattle.jac_rows.specs.Tables.{rows_of};
ghost use Rattle.jac_rows.specs.declared.row.Row.{Row as Item};

use crate::Row;
use jac_value::{Memory, try_clone_all};
use std::alloc::Global;
use std::marker::Model;

/// The rows of a model in rising order of their ids. The guards of two rows of one id never hold
/// together.
#[derive(Debug, Drop)]
pub struct Table {
    rows: Vec<Row>,
}

impl Model for Table {
    ghost use Rattle.std.specs.Prelude.{List};
    ghost use Rattle.jac_rows.specs.Apart.{IsTable};
    ghost use Rattle.jac_rows.specs.declared.row.Row.{Row as Item};

    ghost Value = { List Item };

    ghost view = { λ t. t.rows.items };

    ghost invariant = { λ t. IsTable (λ (r : Item). r.id) (λ r. r.guard) t.rows.items };
}

impl Table {
    pub fn empty(alloc: Global) -> Table
        ensures { result ≡ [] }
    {
        Table {
            rows: Vec::new(alloc),
        }
    }

    pub fn from_vec(rows: Vec<Row>) -> Table
        requires { IsTable (λ (r : Item). r.id) (λ r. r.guard) rows.items }
        ensures { result ≡ rows.items }
    {
        Table { rows }
    }

    pub fn as_slice(&self) -> &[Row]
        ensures rows { result.now ≡ self.now }
        ensures apart { IsTable (λ (r : Item). r.id) (λ r. r.guard) self.now }
    {
        self.rows.as_slice()
    }

    pub fn into_vec(self) -> Vec<Row>
        ensures rows { result.items ≡ self }
        ensures apart { IsTable (λ (r : Item). r.id) (λ r. r.guard) self }
    {
        self.rows
    }

    pub fn copy(&self, alloc: Global) -> Result<Table, Memory>
        ensures { IfOk result (λ t. t ≡ self.now) }
    {
        let rows = try_clone_all(alloc, self.rows.as_slice())?;
        Ok(Table { rows })
    }
}

/// One table for each model, in the order of the models. A model beyond them has no rows.
#[derive(Debug, Drop)]
pub struct Tables {
    tables: Vec<Table>,
}

impl Model for Tables {
    ghost use Rattle.std.specs.Prelude.{List};
    ghost use Rattle.jac_rows.specs.declared.row.Row.{Row as Item};

    ghost Value = { List (List Item) };

    ghost view = { λ t. t.tables.items };
}

impl Tables {
    pub fn empty(alloc: Global) -> Tables
        ensures { result ≡ [] }
    {
        Tables {
            tables: Vec::new(alloc),
        }
    }

    pub fn from_vec(tables: Vec<Table>) -> Tables
        ensures { result ≡ tables.items }
    {
        Tables { tables }
    }

    pub fn as_slice(&self) -> &[Table]
        ensures { result.now ≡ self.now }
    {
        self.tables.as_slice()
    }

    pub fn into_vec(self) -> Vec<Table>
        ensures { result.items ≡ self }
    {
        self.tables
    }

    /// The rows of a model.
    pub fn rows(&self, model: u8) -> &[Row]
        ensures { result.now ≡ rows_of self.now model }
    {
        match self.tables.as_slice().get(usize::from(model)) {
            Some(table) => table.as_slice(),
            None => &[],
        }
    }

    pub fn copy(&self, alloc: Global) -> Result<Tables, Memory>
        ensures { IfOk result (λ t. t ≡ self.now) }
    {
        let all = self.tables.as_slice();
        let mut tables = Vec::new(alloc);
        'tables: for table in all {
            let table = table.copy(alloc)?;
            tables.push(table)?;
        }
        Ok(Tables { tables })
    }
}
