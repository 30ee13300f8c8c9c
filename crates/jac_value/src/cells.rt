ghost use Rattle.std.specs.Prelude.{◌≡◌, [], IfOk};

use crate::list::try_clone_all;
use crate::{Memory, Value};
use std::alloc::Global;
use std::marker::Model;
use std::rc::Rc;

/// The values of a record, one for each field of its model. Copies share them.
#[derive(Debug, Drop)]
pub struct Cells {
    values: CellList,
}

// The values that one list owns, or those that copies of a list share.
#[derive(Debug)]
enum CellList {
    Own(Vec<Value>),
    Shared(Rc<Vec<Value>>),
}

// A drop is one step, whichever variant is dropped.
impl Drop for CellList {
    fn drop(self) {
        match self {
            CellList::Own(_) => {}
            CellList::Shared(_) => {}
        }
    }
}

impl Model for Cells {
    ghost use Rattle.std.specs.Prelude.{List};
    ghost use Rattle.jac_value.specs.declared.value.Value.{Value as Cell};
    ghost use Rattle.jac_value.specs.CellLists.{listed_cells};

    ghost Value = { List Cell };

    ghost view = { λ c. listed_cells c.values };
}

impl Cells {
    pub fn empty(alloc: Global) -> Cells
        ensures { result ≡ [] }
    {
        Cells::from_vec(Vec::new(alloc))
    }

    pub fn from_vec(cells: Vec<Value>) -> Cells
        ensures { result ≡ cells.items }
    {
        Cells {
            values: CellList::Own(cells),
        }
    }

    pub fn as_slice(&self) -> &[Value]
        ensures { result.now ≡ self.now }
    {
        match &self.values {
            CellList::Own(values) => values.as_slice(),
            CellList::Shared(values) => values.as_ref().as_slice(),
        }
    }

    /// A list of copies of the values.
    pub fn to_vec(&self, alloc: Global) -> Result<Vec<Value>, Memory>
        ensures { IfOk result (λ v. v.items ≡ self.now) }
    {
        try_clone_all(alloc, self.as_slice())
    }

    /// The same values. If these cells are a copy themselves, no value is copied.
    pub fn copy(&self, alloc: Global) -> Result<Cells, Memory>
        ensures { IfOk result (λ c. c ≡ self.now) }
    {
        let values = self.shared(alloc)?;
        Ok(Cells {
            values: CellList::Shared(values),
        })
    }

    fn shared(&self, alloc: Global) -> Result<Rc<Vec<Value>>, Memory>
        ensures { IfOk result (λ rc. rc.value.items ≡ self.now) }
    {
        match &self.values {
            CellList::Own(values) => {
                let values = try_clone_all(alloc, values.as_slice())?;
                Ok(Rc::new(alloc, values)?)
            }
            CellList::Shared(values) => Ok(values.clone()?),
        }
    }
}
