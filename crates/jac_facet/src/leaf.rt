ghost use Rattle.std.specs.Prelude.{◌≡◌, true, IfOk};

use jac_value::{Memory, Value};
use std::alloc::Global;

/// A type of values at the leaves of a facet. Values that are equal by `==` must be one value to
/// contracts.
pub trait Leaf: Eq + Drop {
    fn copy(&self, alloc: Global) -> Result<Self, Memory>
        ensures { IfOk result (λ v. v ≡ self.now) };

    ghost same: { (x y : Self) → Self.eq x y ≡ true → x ≡ y };
}

impl Leaf for bool {
    ghost use Rattle.std.proofs.Common.{rules};

    ghost same = { Prim.search (rules) };

    fn copy(&self, _: Global) -> Result<bool, Memory> {
        Ok(*self)
    }
}

impl Leaf for Value {
    ghost use Rattle.jac_value.specs.SameValue.{same_value};

    ghost same = { same_value };

    fn copy(&self, alloc: Global) -> Result<Value, Memory> {
        let value = self.copy(alloc)?;
        Ok(value)
    }
}
