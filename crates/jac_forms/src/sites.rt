ghost use Rattle.std.specs.Prelude.{◌≡◌, ◌+◌, IfOk};
ghost use Rattle.jac_lang.specs.Mirror.{statement_of, statements_of};
ghost use Rattle.jac_forms.specs.Statements.{creates, creates_in};

use crate::names::next_count;
use jac_lang::{Stmt, Stmts};
use jac_value::Memory;

/// The number of `create` statements, for the message of a fault.
#[cycle(sites)]
pub fn count_sites(body: &Stmts) -> Result<u64, Memory>
    ensures { IfOk result (λ number. number ≡ creates (statements_of body.now)) }
{
    let mut number: u64 = 0;
    let mut left = body;
    'statements: while let Stmts::More(first, rest) = left {
        let more = sites_of(first)?;
        number = sum_of(number, more)?;
        left = rest;
    }
    Ok(number)
}

#[cycle(sites)]
fn sites_of(statement: &Stmt) -> Result<u64, Memory>
    ensures { IfOk result (λ number. number ≡ creates_in (statement_of statement.now)) }
{
    match statement {
        Stmt::Create { body, .. } => {
            let inside = count_sites(body)?;
            let number = next_count(inside)?;
            Ok(number)
        }
        Stmt::If(_, then, other) => {
            let first = count_sites(then)?;
            let second = count_sites(other)?;
            let number = sum_of(first, second)?;
            Ok(number)
        }
        Stmt::Let(_, _, body) => {
            let number = count_sites(body)?;
            Ok(number)
        }
        Stmt::For(_, body) => {
            let number = count_sites(body)?;
            Ok(number)
        }
        Stmt::Block(body) => {
            let number = count_sites(body)?;
            Ok(number)
        }
        _ => Ok(0),
    }
}

// The sum. If it doesn't fit into 64 bits, the result is `Memory`. This never happens in practice.
fn sum_of(first: u64, second: u64) -> Result<u64, Memory>
    ensures { IfOk result (λ number. number ≡ first + second) }
{
    match first.checked_add(second) {
        Some(number) => Ok(number),
        None => Err(Memory),
    }
}
