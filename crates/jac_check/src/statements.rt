//! The first fault of a statement. `statement_fault` only distinguishes the forms. The forms
//! without statements inside have functions of their own, outside of the recursion.
ghost use Rattle.std.specs.Prelude.{◌≡◌, true, false};
ghost use Rattle.jac_value.specs.declared.value.Kind.{Kind};
ghost use Rattle.jac_lang.specs.Mirror.{assigned_of, binders_of, expression_of, question_of, statement_of, statements_of};
ghost use Rattle.jac_check.specs.Scope.{meaning_of, reference_to, scope_at, bind, loop_within};
ghost use Rattle.jac_check.specs.Verdict.{of_kind, fault_in, ◌before◌};
ghost use Rattle.jac_check.specs.Expressions.{kind_or};
ghost use Rattle.jac_check.specs.Statements.{verdict_at, write_fault, loop_reason, loop_fault, assigned_fault, create_fault, update_fault, delete_fault, query_fault, statement_fault, body_fault};
ghost use Rattle.jac_check.specs.Mirror.{fault_of, reason_of, verdict_of, scope_of, standing_of};

use crate::cause::Cause;
use crate::cells::{cells_inside, cells_kinds, cells_names};
use crate::expressions::{judge, judge_within};
use crate::forms::asked_fault;
use crate::kinds::want;
use crate::lookups::{known_model, reference_to};
use crate::loops::{Around, behind_for, may_create};
use crate::names::{Names, look_up};
use crate::queries::Seen;
use crate::scope::Scope;
use jac_lang::{App, Binders, Expr, Publics, Query, Stmt, Stmts, is_nested};
use jac_value::{Kind, Txt};

// The context of a statement.
#[derive(Clone, Copy)]
pub(crate) struct Standing<'s> {
    pub app: &'s App,
    pub names: &'s Names<'s>,
    pub is_get: bool,
    pub around: Around,
}

#[cycle(statements)]
fn statement_fault<'a>(statement: &'a Stmt, at: &Standing<'_>) -> Result<(), Cause<'a>>
    ensures { fault_of result ≡ statement_fault (standing_of at.now) (statement_of statement.now) }
{
    match statement {
        Stmt::Put(e) => expression_fault(e, at),
        Stmt::Esc(e) => expression_fault(e, at),
        Stmt::Let(name, e, body) => let_fault(name, e, body, at),
        Stmt::Assign(name, e) => assign_fault(name, e, at),
        Stmt::If(c, then, other) => if_fault(c, then, other, at),
        Stmt::For(query, body) => for_fault(query, body, at),
        Stmt::Create {
            name,
            model,
            site: _,
            cells,
            body,
        } => create_and_body_fault(name, model, cells, body, at),
        Stmt::Update(model, e, cells) => update_fault(model, e, cells, at),
        Stmt::Delete(model, e) => delete_fault(model, e, at),
        Stmt::Missing => Ok(()),
        Stmt::Redirect(e) => kind_fault(Kind::Text, e, at),
        Stmt::Template(_) => Err(Cause::NotHere("template")),
        Stmt::Block(body) => body_fault(body, at),
    }
}

/// The first fault of statements, one after another.
#[cycle(statements)]
pub(crate) fn body_fault<'a>(body: &'a Stmts, at: &Standing<'_>) -> Result<(), Cause<'a>>
    ensures { fault_of result ≡ body_fault (standing_of at.now) (statements_of body.now) }
{
    let mut left = body;
    'statements: while let Stmts::More(first, rest) = left {
        match statement_fault(first, at) {
            Ok(()) => left = rest,
            Err(cause) => return Err(cause),
        }
    }
    Ok(())
}

#[cycle(statements)]
fn let_fault<'a>(
    name: &Txt,
    e: &'a Expr,
    body: &'a Stmts,
    at: &Standing<'_>,
) -> Result<(), Cause<'a>>
    ensures { let v = verdict_at (standing_of at.now) (expression_of e.now)
        in fault_of result ≡ (fault_in v before body_fault (bind (standing_of at.now) name.now
        (kind_or Kind.Int v) true) (statements_of body.now)) }
{
    match judge_at(e, at) {
        Ok(kind) => bound_fault(name, kind, true, body, at),
        Err(cause) => Err(cause),
    }
}

#[cycle(statements)]
fn if_fault<'a>(
    c: &'a Expr,
    then: &'a Stmts,
    other: &'a Stmts,
    at: &Standing<'_>,
) -> Result<(), Cause<'a>>
    ensures { let s = standing_of at.now
        in fault_of result ≡ (of_kind Kind.Bool (verdict_at s (expression_of c.now)) before
        body_fault s (statements_of then.now) before body_fault s (statements_of other.now)) }
{
    kind_fault(Kind::Bool, c, at)?;
    body_fault(then, at)?;
    body_fault(other, at)
}

#[cycle(statements)]
fn for_fault<'a>(query: &'a Query, body: &'a Stmts, at: &Standing<'_>) -> Result<(), Cause<'a>>
    ensures { let s = standing_of at.now in fault_of result ≡ (query_fault s (question_of query.now)
        before body_fault (loop_within (question_of query.now).binders s)
        (statements_of body.now)) }
{
    query_fault(query, at)?;
    let names = Names::Binders {
        binders: &query.binders,
        outer: at.names,
    };
    let inner = Standing {
        app: at.app,
        names: &names,
        is_get: at.is_get,
        around: behind_for(at.app, &query.binders, at.around),
    };
    body_fault(body, &inner)
}

#[cycle(statements)]
fn create_and_body_fault<'a>(
    name: &Txt,
    model: &'a Txt,
    cells: &'a Publics,
    body: &'a Stmts,
    at: &Standing<'_>,
) -> Result<(), Cause<'a>>
    ensures { let s = standing_of at.now
        in fault_of result ≡ (create_fault s model.now (assigned_of cells.now) before body_fault
        (bind s name.now (reference_to s.models model.now) false) (statements_of body.now)) }
{
    create_fault(model, cells, at)?;
    bound_fault(name, reference_to(at.app, model), false, body, at)
}

// The first fault of the statements in which a name is bound.
#[cycle(statements)]
fn bound_fault<'a>(
    name: &Txt,
    kind: Kind,
    by_let: bool,
    body: &'a Stmts,
    at: &Standing<'_>,
) -> Result<(), Cause<'a>>
    ensures { fault_of result ≡ body_fault (bind (standing_of at.now) name.now kind by_let)
        (statements_of body.now) }
{
    let names = Names::Bound {
        name,
        kind,
        by_let,
        outer: at.names,
    };
    let inner = Standing {
        app: at.app,
        names: &names,
        is_get: at.is_get,
        around: at.around,
    };
    body_fault(body, &inner)
}

fn scope_at<'s>(at: &Standing<'s>) -> Scope<'s>
    ensures { scope_of result ≡ scope_at (standing_of at.now) }
{
    Scope {
        app: at.app,
        this: None,
        names: at.names,
        is_public: false,
    }
}

fn judge_at<'a>(e: &'a Expr, at: &Standing<'_>) -> Result<Kind, Cause<'a>>
    ensures { verdict_of result ≡ verdict_at (standing_of at.now) (expression_of e.now) }
{
    judge(e, &scope_at(at))
}

fn expression_fault<'a>(e: &'a Expr, at: &Standing<'_>) -> Result<(), Cause<'a>>
    ensures { fault_of result ≡ fault_in (verdict_at (standing_of at.now) (expression_of e.now)) }
{
    let _kind = judge_at(e, at)?;
    Ok(())
}

// Tests that the expression is well and has this kind.
fn kind_fault<'a>(kind: Kind, e: &'a Expr, at: &Standing<'_>) -> Result<(), Cause<'a>>
    ensures { fault_of result ≡ of_kind kind (verdict_at (standing_of at.now)
        (expression_of e.now)) }
{
    let have = judge_at(e, at)?;
    want(kind, have)
}

fn assign_fault<'a>(name: &Txt, e: &'a Expr, at: &Standing<'_>) -> Result<(), Cause<'a>>
    ensures { let s = standing_of at.now in fault_of result ≡ assigned_fault
        (meaning_of s.names name.now) (verdict_at s (expression_of e.now)) }
{
    match look_up(at.app, at.names, name) {
        Some(meaning) => {
            if meaning.by_let {
                kind_fault(meaning.kind, e, at)
            } else {
                Err(Cause::NotHere("assign"))
            }
        }
        None => Err(Cause::NotHere("assign")),
    }
}

fn query_fault<'a>(query: &'a Query, at: &Standing<'_>) -> Result<(), Cause<'a>>
    ensures { fault_of result ≡ query_fault (standing_of at.now) (question_of query.now) }
{
    let scope = scope_at(at);
    let cond = judge_within(&query.cond, &scope, &query.binders);
    asked_fault(&scope, "for", query, cond)
}

fn write_fault<'a>(at: &Standing<'_>) -> Result<(), Cause<'a>>
    ensures { fault_of result ≡ write_fault (standing_of at.now) }
{
    if at.is_get {
        Err(Cause::WriteInGet)
    } else {
        Ok(())
    }
}

fn loop_fault<'a>(model: &'a Txt, at: &Standing<'_>) -> Result<(), Cause<'a>>
    ensures { fault_of result ≡ loop_fault (standing_of at.now) model.now }
{
    let nested = is_nested(at.app, model);
    if may_create(nested, at.around) {
        Ok(())
    } else {
        Err(loop_cause(nested, model))
    }
}

fn loop_cause<'a>(nested: bool, model: &'a Txt) -> Cause<'a>
    ensures { reason_of result ≡ loop_reason nested model.now }
{
    if nested {
        Cause::LoopWanted(model.as_str())
    } else {
        Cause::CreateInLoop
    }
}

fn create_fault<'a>(model: &'a Txt, cells: &'a Publics, at: &Standing<'_>) -> Result<(), Cause<'a>>
    ensures { fault_of result ≡ create_fault (standing_of at.now) model.now
        (assigned_of cells.now) }
{
    write_fault(at)?;
    known_model(at.app, model)?;
    cells_names(at.app, model, &Seen::Nothing, cells)?;
    loop_fault(model, at)?;
    let scope = scope_at(at);
    cells_inside(cells, &scope)?;
    cells_kinds(model, cells, &scope)
}

fn update_fault<'a>(
    model: &'a Txt,
    target: &'a Expr,
    cells: &'a Publics,
    at: &Standing<'_>,
) -> Result<(), Cause<'a>>
    ensures { let s = standing_of at.now in fault_of result ≡ update_fault s model.now
        (verdict_at s (expression_of target.now)) (assigned_of cells.now) }
{
    write_fault(at)?;
    known_model(at.app, model)?;
    cells_names(at.app, model, &Seen::Nothing, cells)?;
    let have = judge_at(target, at)?;
    let scope = scope_at(at);
    cells_inside(cells, &scope)?;
    want(reference_to(at.app, model), have)?;
    cells_kinds(model, cells, &scope)
}

fn delete_fault<'a>(model: &'a Txt, target: &'a Expr, at: &Standing<'_>) -> Result<(), Cause<'a>>
    ensures { let s = standing_of at.now in fault_of result ≡ delete_fault s model.now
        (verdict_at s (expression_of target.now)) }
{
    write_fault(at)?;
    known_model(at.app, model)?;
    kind_fault(reference_to(at.app, model), target, at)
}
