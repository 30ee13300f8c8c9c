ghost use Rattle.std.specs.Prelude.{◌≡◌, ◌<◌, IfOk, IfSome, MatchOption};
ghost use Rattle.jac_lang.specs.declared.statements.Stmt.{size-Stmt};
ghost use Rattle.jac_lang.specs.declared.statements.Stmts.{size-Stmts};
ghost use Rattle.jac_lang.specs.Mirror.{statement_of, statements_of};
ghost use Rattle.jac_lang.specs.Syntax.{Statements};

use jac_lang::{Stmt, Stmts};
use jac_value::Memory;
use std::alloc::Global;
use std::mem;

/// The first of some statements, and the others.
#[derive(Drop)]
pub struct Parted {
    pub first: Stmt,
    pub rest: Stmts,
}

/// The statement, and then the others.
pub fn before_others(alloc: Global, first: Stmt, others: Stmts) -> Result<Stmts, Memory>
    ensures { IfOk result (λ ss. statements_of ss ≡ Statements.more (statement_of first)
        (statements_of others)) }
{
    let first = Box::new(alloc, first)?;
    let others = Box::new(alloc, others)?;
    Ok(Stmts::More(first, others))
}

/// The first statement and the others, if there are any. It takes no memory.
pub fn part(stmts: Stmts) -> Option<Parted>
    ensures cases { MatchOption result (statements_of stmts ≡ Statements.none)
        (λ p. statements_of stmts ≡ Statements.more (statement_of p.first) (statements_of p.rest)) }
    ensures smaller { IfSome result (λ p. (size-Stmt p.first < size-Stmts stmts)
        × (size-Stmts p.rest < size-Stmts stmts)) }
{
    let mut stmts = stmts;
    match &mut stmts {
        Stmts::End => None,
        Stmts::More(first, rest) => Some(Parted {
            first: mem::replace(&mut **first, Stmt::Missing),
            rest: mem::replace(&mut **rest, Stmts::End),
        }),
    }
}
