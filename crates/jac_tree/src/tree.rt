ghost use Rattle.std.specs.Prelude.{◌≡◌};
ghost use Rattle.jac_tree.specs.Mirror.{plain_all};
ghost use Rattle.jac_tree.specs.Plain.{onto};

use jac_value::Txt;
use std::mem;

/// The tree that a text spells.
#[cycle(tree)]
#[derive(Drop)]
pub enum Tree {
    /// A word of ASCII letters, digits, `_` and `-`.
    Atom(Txt),
    /// A quoted text, without its quotes and escapes.
    Text(Txt),
    List(Trees),
}

/// The trees of a list, in order. Walk them by a loop over references.
#[cycle(tree)]
pub enum Trees {
    End,
    More(Box<Tree>, Box<Trees>),
}

impl Drop for Trees {
    #[cycle(tree)]
    fn drop(mut self) {
        loop {
            match self {
                Trees::End => return,
                Trees::More(first, rest) => {
                    drop(first);
                    self = Box::into_inner(rest);
                }
            }
        }
    }
}

impl Trees {
    /// These trees in reverse order, and then those of `over`. It takes no memory.
    pub fn before(self, over: Trees) -> Trees
        ensures { plain_all result ≡ onto (plain_all self) (plain_all over) }
    {
        let mut out = over;
        let mut left = self;
        'turn: loop {
            let next = match &mut left {
                Trees::End => return out,
                Trees::More(_, rest) => mem::replace(&mut **rest, out),
            };
            out = left;
            left = next;
        }
    }
}
