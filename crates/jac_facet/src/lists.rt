use crate::{Facet, Leaf};
use jac_value::{List, Memory, TryClone};
use jac_world::Guard;
use std::alloc::Global;

/// A list of facets.
pub type Facets<T> = List<Facet<T>>;

/// Values with the guards under which a facet has them.
pub type Leaves<T> = List<(Guard, T)>;

impl<T: Leaf> TryClone for Facet<T> {
    fn try_clone(&self, alloc: Global) -> Result<Facet<T>, Memory> {
        let copy = self.copy(alloc)?;
        Ok(copy)
    }
}
