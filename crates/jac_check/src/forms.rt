//! The verdict on a form, by the verdicts on its operands.
ghost use Rattle.std.specs.Prelude.{◌≡◌, IfOk};
ghost use Rattle.jac_lang.specs.Mirror.{application_of};
ghost use Rattle.jac_lang.specs.Mirror.{binders_of, question_of};
ghost use Rattle.jac_check.specs.Scope.{first_kind};
ghost use Rattle.jac_check.specs.Verdict.{Verdict, verdict_by};
ghost use Rattle.jac_check.specs.NameFaults.{name_verdict, this_kind, viewer_verdict};
ghost use Rattle.jac_check.specs.Expressions.{both_are, two_verdict, none_verdict, get_verdict, live_verdict, not_verdict, str_verdict, pick_verdict, asked_inside, asked_fault, sum_verdict};
ghost use Rattle.jac_check.specs.Mirror.{fault_of, verdict_of, scope_of};

use crate::cause::Cause;
use crate::kinds::{want, want_ordered, want_reference};
use crate::lookups::{count, kind_by_place, known_model, known_place, reference_to};
use crate::names::look_up;
use crate::queries::{in_public, order_fault, query_names};
use crate::scope::Scope;
use jac_lang::{Binders, Op, Query};
use jac_value::{Kind, Txt};

pub(crate) fn none_verdict<'a>(scope: &Scope<'_>, model: &'a Txt) -> Result<Kind, Cause<'a>>
    ensures { verdict_of result ≡ none_verdict (scope_of scope.now) model.now }
{
    known_model(scope.app, model)?;
    Ok(reference_to(scope.app, model))
}

pub(crate) fn name_verdict<'a>(scope: &Scope<'_>, name: &'a Txt) -> Result<Kind, Cause<'a>>
    ensures { verdict_of result ≡ name_verdict (scope_of scope.now) name.now }
{
    if scope.is_public {
        return Err(Cause::NotHere(name.as_str()));
    }
    match look_up(scope.app, scope.names, name) {
        Some(meaning) => Ok(meaning.kind),
        None => Err(Cause::UnknownName(name.as_str())),
    }
}

pub(crate) fn this_verdict<'a>(scope: &Scope<'_>) -> Result<Kind, Cause<'a>>
    ensures { verdict_of result ≡ this_kind (scope_of scope.now).this }
{
    match scope.this {
        Some(kind) => Ok(kind),
        None => Err(Cause::NotHere("this")),
    }
}

pub(crate) fn viewer_verdict<'a>(scope: &Scope<'_>) -> Result<Kind, Cause<'a>>
    ensures { verdict_of result ≡ viewer_verdict (scope_of scope.now) }
{
    if scope.is_public {
        return Err(Cause::ViewerInPublic);
    }
    match &scope.app.viewer {
        Some(model) => Ok(reference_to(scope.app, model)),
        None => Err(Cause::UnknownName("viewer")),
    }
}

pub(crate) fn get_verdict<'a>(
    scope: &Scope<'_>,
    model: &'a Txt,
    field: &'a Txt,
    of_this: bool,
    reference: Result<Kind, Cause<'a>>,
) -> Result<Kind, Cause<'a>>
    ensures { verdict_of result ≡ get_verdict (scope_of scope.now) model.now field.now of_this
        (verdict_of reference.entry) }
{
    if scope.is_public && !of_this {
        return Err(Cause::NotHere("get"));
    }
    known_place(scope.app, model, field)?;
    let reference = reference?;
    want(reference_to(scope.app, model), reference)?;
    Ok(kind_by_place(scope.app, model, field))
}

pub(crate) fn live_verdict<'a>(
    scope: &Scope<'_>,
    reference: Result<Kind, Cause<'a>>,
) -> Result<Kind, Cause<'a>>
    ensures { verdict_of result ≡ live_verdict (scope_of scope.now) (verdict_of reference.entry) }
{
    in_public(scope, "live")?;
    let reference = reference?;
    want_reference(reference)?;
    Ok(Kind::Bool)
}

pub(crate) fn two_verdict<'a>(
    op: Op,
    a: Result<Kind, Cause<'a>>,
    b: Result<Kind, Cause<'a>>,
) -> Result<Kind, Cause<'a>>
    ensures { verdict_of result ≡ two_verdict op (verdict_of a.entry) (verdict_of b.entry) }
{
    let a = a?;
    let b = b?;
    match op {
        Op::Add | Op::Sub | Op::Mul => both_are(Kind::Int, a, b),
        Op::Eq => {
            want(a, b)?;
            Ok(Kind::Bool)
        }
        Op::Lt => {
            want_ordered(a)?;
            want(a, b)?;
            Ok(Kind::Bool)
        }
        Op::And | Op::Or => both_are(Kind::Bool, a, b),
    }
}

fn both_are<'a>(kind: Kind, a: Kind, b: Kind) -> Result<Kind, Cause<'a>>
    ensures { verdict_of result ≡ both_are kind kind (Verdict.kind a) (Verdict.kind b) }
{
    want(kind, a)?;
    want(kind, b)?;
    Ok(kind)
}

pub(crate) fn not_verdict<'a>(e: Result<Kind, Cause<'a>>) -> Result<Kind, Cause<'a>>
    ensures { verdict_of result ≡ not_verdict (verdict_of e.entry) }
{
    let e = e?;
    want(Kind::Bool, e)?;
    Ok(Kind::Bool)
}

pub(crate) fn str_verdict<'a>(e: Result<Kind, Cause<'a>>) -> Result<Kind, Cause<'a>>
    ensures { verdict_of result ≡ str_verdict (verdict_of e.entry) }
{
    let _kind = e?;
    Ok(Kind::Text)
}

pub(crate) fn pick_verdict<'a>(
    c: Result<Kind, Cause<'a>>,
    a: Result<Kind, Cause<'a>>,
    b: Result<Kind, Cause<'a>>,
) -> Result<Kind, Cause<'a>>
    ensures { verdict_of result ≡ pick_verdict (verdict_of c.entry) (verdict_of a.entry)
        (verdict_of b.entry) }
{
    let c = c?;
    let a = a?;
    let b = b?;
    want(Kind::Bool, c)?;
    want(a, b)?;
    Ok(a)
}

// The first fault inside a query, by the verdict on its condition.
fn asked_inside<'a>(
    scope: &Scope<'_>,
    word: &'a str,
    query: &'a Query,
    cond: Result<Kind, Cause<'a>>,
) -> Result<Kind, Cause<'a>>
    ensures fault { let q = question_of query.now in fault_of result ≡ asked_inside
        (scope_of scope.now) word.now q.binders q.order (verdict_of cond.entry) }
    ensures kind { IfOk result (λ k. verdict_of cond.entry ≡ Verdict.kind k) }
{
    query_names(scope, word, &query.binders)?;
    let cond = cond?;
    order_fault(scope.app, &query.binders, &query.order)?;
    Ok(cond)
}

pub(crate) fn asked_fault<'a>(
    scope: &Scope<'_>,
    word: &'a str,
    query: &'a Query,
    cond: Result<Kind, Cause<'a>>,
) -> Result<(), Cause<'a>>
    ensures { let q = question_of query.now in fault_of result ≡ asked_fault (scope_of scope.now)
        word.now q.binders q.order (verdict_of cond.entry) }
{
    let cond = asked_inside(scope, word, query, cond)?;
    want(Kind::Bool, cond)
}

pub(crate) fn asked_verdict<'a>(
    scope: &Scope<'_>,
    word: &'a str,
    query: &'a Query,
    cond: Result<Kind, Cause<'a>>,
    kind: Kind,
) -> Result<Kind, Cause<'a>>
    ensures { let q = question_of query.now in verdict_of result
        ≡ verdict_by (asked_fault (scope_of scope.now) word.now q.binders q.order
        (verdict_of cond.entry)) kind }
{
    asked_fault(scope, word, query, cond)?;
    Ok(kind)
}

pub(crate) fn sum_verdict<'a>(
    scope: &Scope<'_>,
    query: &'a Query,
    cond: Result<Kind, Cause<'a>>,
    each: Result<Kind, Cause<'a>>,
) -> Result<Kind, Cause<'a>>
    ensures { let q = question_of query.now in verdict_of result ≡ sum_verdict (scope_of scope.now)
        q.binders q.order (verdict_of cond.entry) (verdict_of each.entry) }
{
    let cond = asked_inside(scope, "sum", query, cond)?;
    let each = each?;
    want(Kind::Bool, cond)?;
    want(Kind::Int, each)?;
    Ok(Kind::Int)
}

pub(crate) fn first_kind(scope: &Scope<'_>, binders: &Binders) -> Kind
    ensures { result ≡ first_kind (scope_of scope.now) (binders_of binders.now) }
{
    match binders {
        Binders::End => Kind::Ref(count(scope.app)),
        Binders::More(first, _) => reference_to(scope.app, &first.model),
    }
}
