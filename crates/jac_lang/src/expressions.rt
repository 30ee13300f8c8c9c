ghost use Rattle.std.specs.Prelude.{◌≡◌};
ghost use Rattle.jac_lang.specs.Mirror.{expressions_of};
ghost use Rattle.jac_lang.specs.Turned.{turned_onto};

use crate::{Binders, Order};
use jac_value::Txt;
use std::mem;

/// Operations on two values. Sums, differences and products saturate at the ends of i64.
#[derive(Clone, Copy, PartialEq, Eq)]
pub enum Op {
    Add,
    Sub,
    Mul,
    Eq,
    Lt,
    And,
    Or,
}

/// An expression. `Get` has the model and then the field. `Sum` adds the values of the expression
/// over the results of the query. `AnyOf` is true if the query has a result.
#[cycle(expr)]
#[derive(Drop)]
pub enum Expr {
    Int(i64),
    Text(Txt),
    Bool(bool),
    NoneOf(Txt),
    Name(Txt),
    This,
    Viewer,
    Get(Txt, Txt, Box<Expr>),
    Live(Box<Expr>),
    Two(Op, Box<Expr>, Box<Expr>),
    Not(Box<Expr>),
    Cat(Exprs),
    Str(Box<Expr>),
    Pick(Box<Expr>, Box<Expr>, Box<Expr>),
    Count(Box<Query>),
    Sum(Box<Query>, Box<Expr>),
    AnyOf(Box<Query>),
    First(Box<Query>),
}

/// The parts of a `Cat`, in order.
#[cycle(expr)]
pub enum Exprs {
    End,
    More(Box<Expr>, Box<Exprs>),
}

/// A query. Its results are the tuples of records for which the condition is true, in the given
/// order.
#[cycle(expr)]
#[derive(Drop)]
pub struct Query {
    pub binders: Binders,
    pub cond: Expr,
    pub order: Order,
}

impl Drop for Exprs {
    #[cycle(expr)]
    fn drop(mut self) {
        'parts: loop {
            match self {
                Exprs::End => return,
                Exprs::More(first, rest) => {
                    drop(first);
                    self = Box::into_inner(rest);
                }
            }
        }
    }
}

impl Exprs {
    /// These parts in reverse order, and then the others. It takes no memory.
    pub fn before(self, others: Exprs) -> Exprs
        ensures { expressions_of result ≡ turned_onto (expressions_of self)
            (expressions_of others) }
    {
        let mut out = others;
        let mut left = self;
        'turn: loop {
            let next = match &mut left {
                Exprs::End => return out,
                Exprs::More(_, rest) => mem::replace(&mut **rest, out),
            };
            out = left;
            left = next;
        }
    }
}
