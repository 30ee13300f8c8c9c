ghost use Rattle.std.specs.Prelude.{◌≡◌};
ghost use Rattle.jac_lang.specs.Mirror.{assigned_of};
ghost use Rattle.jac_lang.specs.Turned.{turned_round};

use crate::Expr;
use jac_value::Txt;
use std::mem;

/// A field and an expression: the public value of a guarded field, or the value that a `set` gives
/// the field.
#[derive(Drop)]
pub struct Public {
    pub field: Txt,
    pub value: Expr,
}

/// Fields with their expressions, in the order of the text.
pub enum Publics {
    End,
    More(Public, Box<Publics>),
}

impl Drop for Publics {
    fn drop(mut self) {
        'fields: loop {
            match self {
                Publics::End => return,
                Publics::More(first, rest) => {
                    drop(first);
                    self = Box::into_inner(rest);
                }
            }
        }
    }
}

impl Publics {
    /// These fields in reverse order, and then the others. It takes no memory.
    pub fn before(self, others: Publics) -> Publics
        ensures { assigned_of result ≡ turned_round (assigned_of self) (assigned_of others) }
    {
        let mut out = others;
        let mut left = self;
        'turn: loop {
            let next = match &mut left {
                Publics::End => return out,
                Publics::More(_, rest) => mem::replace(&mut **rest, out),
            };
            out = left;
            left = next;
        }
    }
}
