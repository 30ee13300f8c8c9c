ghost use Rattle.std.specs.Prelude.{◌≡◌};
ghost use Rattle.jac_lang.specs.Mirror.{statements_of};
ghost use Rattle.jac_lang.specs.Turned.{body_onto};

use crate::{Expr, Publics, Query};
use jac_value::Txt;
use std::mem;

/// A statement. `Put` appends a text to the page as it is, and `Esc` escapes it for HTML. The site
/// of a `Create` is its place among the `Create`s of its view. A `Template` isn't expanded yet. A
/// `Block` is the expansion of one.
#[cycle(stmt)]
#[derive(Drop)]
pub enum Stmt {
    Put(Expr),
    Esc(Expr),
    Let(Txt, Expr, Stmts),
    Assign(Txt, Expr),
    If(Expr, Stmts, Stmts),
    For(Query, Stmts),
    Create {
        name: Txt,
        model: Txt,
        site: u8,
        cells: Publics,
        body: Stmts,
    },
    Update(Txt, Expr, Publics),
    Delete(Txt, Expr),
    Missing,
    Redirect(Expr),
    Template(Txt),
    Block(Stmts),
}

/// Statements, in the order in which they run.
#[cycle(stmt)]
pub enum Stmts {
    End,
    More(Box<Stmt>, Box<Stmts>),
}

impl Drop for Stmts {
    #[cycle(stmt)]
    fn drop(mut self) {
        'body: loop {
            match self {
                Stmts::End => return,
                Stmts::More(first, rest) => {
                    drop(first);
                    self = Box::into_inner(rest);
                }
            }
        }
    }
}

impl Stmts {
    /// These statements in reverse order, and then the others. It takes no memory.
    pub fn before(self, others: Stmts) -> Stmts
        ensures { statements_of result ≡ body_onto (statements_of self) (statements_of others) }
    {
        let mut out = others;
        let mut left = self;
        'turn: loop {
            let next = match &mut left {
                Stmts::End => return out,
                Stmts::More(_, rest) => mem::replace(&mut **rest, out),
            };
            out = left;
            left = next;
        }
    }
}
