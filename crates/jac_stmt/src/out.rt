ghost use Rattle.std.specs.Prelude.{◌≡◌, [], ◌∷◌, ◌++◌, OnOk, OnErr};

use jac_plain::Piece;
use jac_value::Memory;
use jac_world::Guard;
use std::alloc::Global;
use std::marker::Model;

/// The pieces of a page, each with the guard under which it is on the page.
#[derive(Drop)]
pub struct Out {
    items: Vec<(Guard, Piece)>,
}

impl Model for Out {
    ghost use Rattle.std.specs.Prelude.{List, ℕ, Bool};
    ghost use Rattle.jac_plain.specs.declared.page.Piece.{Piece as Plain};

    ghost Value = { List (List (ℕ × Bool) × Plain) };

    ghost view = { λ o. o.items.items };
}

impl Out {
    pub fn empty(alloc: Global) -> Out
        ensures { result ≡ [] }
    {
        Out {
            items: Vec::new(alloc),
        }
    }

    pub fn from_vec(items: Vec<(Guard, Piece)>) -> Out
        ensures { result ≡ items.items }
    {
        Out { items }
    }

    pub fn as_slice(&self) -> &[(Guard, Piece)]
        ensures { result.now ≡ self.now }
    {
        self.items.as_slice()
    }

    pub fn into_vec(self) -> Vec<(Guard, Piece)>
        ensures { result.items ≡ self }
    {
        self.items
    }

    /// Adds the piece after all others.
    pub(crate) fn push(&mut self, guard: Guard, piece: Piece) -> Result<(), Memory>
        ensures ok { OnOk result (self.new ≡ self.old ++ (guard, piece) ∷ []) }
        ensures err { OnErr result (self.new ≡ self.old) }
    {
        self.items.push((guard, piece))?;
        Ok(())
    }
}
