ghost use Rattle.std.specs.Prelude.{◌≡◌};
ghost use Rattle.jac_lang.specs.Mirror.{binders_of};
ghost use Rattle.jac_lang.specs.Turned.{turned_round};

use jac_value::Txt;
use std::mem;

/// A name for each record of a model in turn.
#[derive(Drop)]
pub struct Binder {
    pub name: Txt,
    pub model: Txt,
}

/// The binders of a query, the outermost first.

pub enum Binders {
    End,
    More(Binder, Box<Binders>),
}

/// The order of a query's results: by the ids of their records, or by a field of a binder, rising
/// or falling. `Up` and `Down` have the binder and then the field.
#[derive(Drop)]
pub enum Order {
    Key,
    Up(Txt, Txt),
    Down(Txt, Txt),
}

impl Drop for Binders {
    fn drop(mut self) {
        'binders: loop {
            match self {
                Binders::End => return,
                Binders::More(first, rest) => {
                    drop(first);
                    self = Box::into_inner(rest);
                }
            }
        }
    }
}

impl Binders {
    /// These binders in reverse order, and then the others. It takes no memory.
    pub fn before(self, others: Binders) -> Binders
        ensures { binders_of result ≡ turned_round (binders_of self) (binders_of others) }
    {
        let mut out = others;
        let mut left = self;
        'turn: loop {
            let next = match &mut left {
                Binders::End => return out,
                Binders::More(_, rest) => mem::replace(&mut **rest, out),
            };
            out = left;
            left = next;
        }
    }
}
