ghost use Rattle.std.specs.Prelude.{◌≡◌, [], IfOk};

use crate::Memory;
use std::alloc::Global;
use std::marker::Model;

/// A type with values that can be copied, unless the copy runs out of memory.
pub trait TryClone: Drop {
    fn try_clone(&self, alloc: Global) -> Result<Self, Memory>
        ensures { IfOk result (λ v. v ≡ self.now) };
}

/// Items in their order. To contracts, a list is the sequence of its items' values.
#[derive(Debug, Drop)]
pub struct List<T> {
    items: Vec<T>,
}

impl<T> Model for List<T> {
    ghost use Rattle.std.specs.Prelude.{List as Items};
    ghost use Rattle.std.specs.Coded.{coded_list};

    ghost Value = { Items T };

    ghost coded = { coded_list T.code };

    ghost view = { λ l. l.items.items };
}

impl<T: Drop> List<T> {
    pub fn empty(alloc: Global) -> List<T>
        ensures { result ≡ [] }
    {
        List {
            items: Vec::new(alloc),
        }
    }

    pub fn from_vec(items: Vec<T>) -> List<T>
        ensures { result ≡ items.items }
    {
        List { items }
    }

    pub fn as_slice(&self) -> &[T]
        ensures { result.now ≡ self.now }
    {
        self.items.as_slice()
    }

    pub fn into_vec(self) -> Vec<T>
        ensures { result.items ≡ self }
    {
        self.items
    }
}

impl<T: TryClone> List<T> {
    /// A list of copies of the items.
    pub fn from_slice(alloc: Global, items: &[T]) -> Result<List<T>, Memory>
        ensures { IfOk result (λ l. l ≡ items.now) }
    {
        let items = try_clone_all(alloc, items)?;
        Ok(List { items })
    }

    pub fn copy(&self, alloc: Global) -> Result<List<T>, Memory>
        ensures { IfOk result (λ l. l ≡ self.now) }
    {
        List::from_slice(alloc, self.items.as_slice())
    }
}

impl<T: TryClone> TryClone for List<T> {
    fn try_clone(&self, alloc: Global) -> Result<List<T>, Memory> {
        let list = self.copy(alloc)?;
        Ok(list)
    }
}

/// Copies of the items.
pub fn try_clone_all<T: TryClone>(alloc: Global, items: &[T]) -> Result<Vec<T>, Memory>
    ensures { IfOk result (λ v. v.items ≡ items.now) }
{
    let mut copied = Vec::with_capacity(alloc, items.len())?;
    'items: for item in items {
        let item = item.try_clone(alloc)?;
        copied.push(item)?;
    }
    Ok(copied)
}

impl TryClone for bool {
    fn try_clone(&self, _: Global) -> Result<bool, Memory> {
        Ok(*self)
    }
}
