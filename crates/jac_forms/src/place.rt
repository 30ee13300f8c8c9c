ghost use Rattle.std.specs.Prelude.{◌≡◌, IfOk, IsTrue};
ghost use Rattle.jac_forms.specs.declared.fault.FormFault.TheVariants as faults;
ghost use Rattle.jac_forms.specs.Places.{child, path_of};
ghost use Rattle.jac_forms.specs.Refusal.{refuses};

use crate::{FormFault, Path, Want, What};
use jac_value::Memory;
use std::alloc::Global;

/// The position of a tree: its parent and its child number. Its path is built only for a fault.
#[derive(Clone, Copy)]
pub enum Place<'p> {
    Top,
    Child(&'p Place<'p>, u32),
}

impl Place<'_> {
    pub fn child(&self, number: u32) -> Place<'_>
        ensures { path_of result ≡ child (path_of self.now) number }
    {
        Place::Child(self, number)
    }

    fn path(&self, alloc: Global) -> Result<Path, Memory>
        ensures { IfOk result (λ path. path ≡ path_of self.now) }
    {
        let mut numbers = Vec::new(alloc);
        let mut left = self;
        'up: while let Place::Child(up, number) = left {
            numbers.push(*number)?;
            left = up;
        }
        numbers.reverse();
        Ok(Path::from_vec(numbers))
    }

    pub fn form(&self, alloc: Global, want: Want) -> FormFault
        ensures { IsTrue (refuses result) → result ≡ faults.Form (path_of self.now) want }
    {
        match self.path(alloc) {
            Ok(path) => FormFault::Form { path, want },
            Err(_) => FormFault::Memory,
        }
    }

    pub fn too_many(&self, alloc: Global, what: What, have: u64) -> FormFault
        ensures { IsTrue (refuses result) → result ≡ faults.TooMany (path_of self.now) what have }
    {
        match self.path(alloc) {
            Ok(path) => FormFault::TooMany { path, what, have },
            Err(_) => FormFault::Memory,
        }
    }
}
