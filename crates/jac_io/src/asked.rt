//! The names of the files that were asked for. Only contracts use them.
ghost use Rattle.std.specs.Prelude.{◌≡◌, ℕ, List, [], ◌∷◌, ◌++◌};
ghost use Rattle.std.specs.Borrow.{ftrue};

use jac_value::Txt;
use std::marker::Model;

/// The names so far, in order. They exist only in contracts, so that they take no memory.
#[derive(Debug, Drop)]
pub struct Asked {
    pub ghost names: { List (List ℕ) },
}

impl Model for Asked {
    ghost also_owns = { λ _. ftrue };
}

impl Asked {
    pub fn new() -> Asked
        ensures { result.names ≡ [] }
    {
        Asked {}
    }

    /// The names with one more at the end.
    pub fn with(&self, name: &Txt) -> Asked
        ensures { result.names ≡ self.now.names ++ name.now ∷ [] }
    {
        Asked {}
    }
}
