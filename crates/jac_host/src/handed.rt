//! The values that were handed back, for contracts alone.
ghost use Rattle.std.specs.Prelude.{◌≡◌, List, [], ◌∷◌, ◌++◌};
ghost use Rattle.std.specs.Borrow.{ftrue};

use std::marker::{Model, PhantomData};

/// The values so far, in order. It is ghost data and takes no bytes.
#[derive(Drop)]
pub struct Handed<T> {
    of: PhantomData<T>,
    pub ghost items: { List T },
}

impl<T> Model for Handed<T> {
    ghost also_owns = { λ _. ftrue };
}

impl<T> Handed<T> {
    pub fn new() -> Handed<T>
        ensures { result.items ≡ [] }
    {
        Handed { of: PhantomData }
    }

    /// With one more value.
    pub fn and(&self, item: &T) -> Handed<T>
        ensures { result.items ≡ self.now.items ++ item.now ∷ [] }
    {
        Handed { of: PhantomData }
    }
}
