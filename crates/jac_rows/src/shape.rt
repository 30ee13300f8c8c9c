ghost use Rattle.std.specs.Prelude.{◌≡◌, IfOk};

use jac_value::{Kinds, List, Memory};
use std::alloc::Global;

/// The kinds of the fields of each model, in the order of the models.
pub type KindLists = List<Kinds>;

/// One truth value for each model, in the order of the models.
pub type Flags = List<bool>;

/// What a store knows of its models. Each list has one entry for each model.
#[derive(Debug, Drop)]
pub struct Shape {
    pub kinds: KindLists,
    /// Whether the model's records belong to records of another model.
    pub nested: Flags,
}

impl Shape {
    pub fn copy(&self, alloc: Global) -> Result<Shape, Memory>
        ensures { IfOk result (λ s. s ≡ self.now) }
    {
        let kinds = self.kinds.copy(alloc)?;
        let nested = self.nested.copy(alloc)?;
        Ok(Shape { kinds, nested })
    }
}
