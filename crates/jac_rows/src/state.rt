ghost use Rattle.std.specs.Prelude.{◌≡◌, IfOk};

use crate::Tables;
use jac_value::Memory;
use std::alloc::Global;

/// What is stored for all viewers: the tables, and the number of the next accepted request.
#[derive(Debug, Drop)]
pub struct State {
    pub tables: Tables,
    pub number: u64,
}

impl State {
    pub fn copy(&self, alloc: Global) -> Result<State, Memory>
        ensures { IfOk result (λ s. s ≡ self.now) }
    {
        let tables = self.tables.copy(alloc)?;
        Ok(State {
            tables,
            number: self.number,
        })
    }
}
