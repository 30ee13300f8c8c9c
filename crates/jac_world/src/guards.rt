use crate::Guard;
use jac_value::{List, Memory, TryClone};
use std::alloc::Global;

/// A list of guards.
pub type Guards = List<Guard>;

impl TryClone for Guard {
    fn try_clone(&self, alloc: Global) -> Result<Guard, Memory> {
        let copy = self.copy(alloc)?;
        Ok(copy)
    }
}
