ghost use Rattle.std.specs.Prelude.{◌≡◌, [], IfOk};
ghost use Rattle.jac_io.specs.Calls.{is_listed};

use jac_value::Memory;
use std::alloc::Global;
use std::marker::Model;

/// The numbers of the calls that fail. The first call has the number 1.
#[derive(Debug, Drop)]
pub struct Calls {
    numbers: Vec<u64>,
}

impl Model for Calls {
    ghost use Rattle.std.specs.Prelude.{List, ℕ};

    ghost Value = { List ℕ };

    ghost view = { λ c. c.numbers.items };
}

impl Calls {
    pub fn empty(alloc: Global) -> Calls
        ensures { result ≡ [] }
    {
        Calls {
            numbers: Vec::new(alloc),
        }
    }

    pub fn from_vec(numbers: Vec<u64>) -> Calls
        ensures { result ≡ numbers.items }
    {
        Calls { numbers }
    }

    pub fn into_vec(self) -> Vec<u64>
        ensures { result.items ≡ self }
    {
        self.numbers
    }

    pub fn as_slice(&self) -> &[u64]
        ensures { result.now ≡ self.now }
    {
        self.numbers.as_slice()
    }

    pub fn copy(&self, alloc: Global) -> Result<Calls, Memory>
        ensures { IfOk result (λ c. c ≡ self.now) }
    {
        let numbers = Vec::from_slice(alloc, self.numbers.as_slice())?;
        Ok(Calls { numbers })
    }

    /// Whether the call of this number fails.
    pub fn lists(&self, number: u64) -> bool
        ensures { result ≡ is_listed number self.now }
    {
        let numbers = self.numbers.as_slice();
        'calls: for call in numbers {
            if *call == number {
                return true;
            }
        }
        false
    }
}
