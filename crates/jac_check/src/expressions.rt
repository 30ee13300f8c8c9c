//! The kind of an expression. `judge` only distinguishes the forms. The verdicts on operands are
//! combined in `forms`.
ghost use Rattle.std.specs.Prelude.{◌≡◌, None, codes};
ghost use Rattle.jac_lang.specs.Mirror.{expression_of, expressions_of, binders_of};
ghost use Rattle.jac_value.specs.declared.value.Kind.{Kind};
ghost use Rattle.jac_check.specs.Scope.{within};
ghost use Rattle.jac_check.specs.Verdict.{verdict_by, ◌before◌};
ghost use Rattle.jac_check.specs.Expressions.{verdict, parts_inside, parts_kinds};
ghost use Rattle.jac_check.specs.Mirror.{scope_of, verdict_of, fault_of};
ghost use Rattle.jac_lang.specs.Syntax.{is_this};

use crate::cause::Cause;
use crate::forms::{
    asked_verdict, first_kind, get_verdict, live_verdict, name_verdict, none_verdict, not_verdict,
    pick_verdict, str_verdict, sum_verdict, this_verdict, two_verdict, viewer_verdict,
};
use crate::kinds::want;
use crate::names::Names;
use crate::scope::Scope;
use jac_lang::{Binders, Expr, Exprs};
use jac_value::Kind;

#[cycle(judge)]
pub(crate) fn judge<'a>(e: &'a Expr, scope: &Scope<'_>) -> Result<Kind, Cause<'a>>
    ensures { verdict_of result ≡ verdict (scope_of scope.now) (expression_of e.now) }
{
    match e {
        Expr::Int(_) => Ok(Kind::Int),
        Expr::Text(_) => Ok(Kind::Text),
        Expr::Bool(_) => Ok(Kind::Bool),
        Expr::NoneOf(model) => none_verdict(scope, model),
        Expr::Name(name) => name_verdict(scope, name),
        Expr::This => this_verdict(scope),
        Expr::Viewer => viewer_verdict(scope),
        Expr::Get(model, field, e) => {
            get_verdict(scope, model, field, is_this(e), judge(e, scope))
        }
        Expr::Live(e) => live_verdict(scope, judge(e, scope)),
        Expr::Two(op, a, b) => two_verdict(*op, judge(a, scope), judge(b, scope)),
        Expr::Not(e) => not_verdict(judge(e, scope)),
        Expr::Cat(parts) => judge_cat(parts, scope),
        Expr::Str(e) => str_verdict(judge(e, scope)),
        Expr::Pick(c, a, b) => pick_verdict(judge(c, scope), judge(a, scope), judge(b, scope)),
        Expr::Count(q) => {
            let cond = judge_within(&q.cond, scope, &q.binders);
            asked_verdict(scope, "count", q, cond, Kind::Int)
        }
        Expr::Sum(q, e) => {
            let cond = judge_within(&q.cond, scope, &q.binders);
            let each = judge_within(e, scope, &q.binders);
            sum_verdict(scope, q, cond, each)
        }
        Expr::AnyOf(q) => {
            let cond = judge_within(&q.cond, scope, &q.binders);
            asked_verdict(scope, "some", q, cond, Kind::Bool)
        }
        Expr::First(q) => {
            let cond = judge_within(&q.cond, scope, &q.binders);
            asked_verdict(scope, "first", q, cond, first_kind(scope, &q.binders))
        }
    }
}

// An expression inside of a query.
#[cycle(judge)]
pub(crate) fn judge_within<'a>(
    e: &'a Expr,
    scope: &Scope<'_>,
    binders: &Binders,
) -> Result<Kind, Cause<'a>>
    ensures { verdict_of result ≡ verdict (within (binders_of binders.now) (scope_of scope.now))
        (expression_of e.now) }
{
    let names = Names::Binders {
        binders,
        outer: scope.names,
    };
    let inner = Scope {
        app: scope.app,
        this: scope.this,
        names: &names,
        is_public: scope.is_public,
    };
    judge(e, &inner)
}

// The verdict on a `cat`. A fault inside one of its parts comes before a wrong kind of a part.
#[cycle(judge)]
fn judge_cat<'a>(parts: &'a Exprs, scope: &Scope<'_>) -> Result<Kind, Cause<'a>>
    ensures { let es = expressions_of parts.now in verdict_of result
        ≡ verdict_by (parts_inside (scope_of scope.now) es before parts_kinds
        (scope_of scope.now) es)
        Kind.Text }
{
    let mut texts = Ok(());
    let mut left = parts;
    'parts: while let Exprs::More(first, rest) = left {
        match judge(first, scope) {
            Ok(kind) => texts = earlier(texts, want(Kind::Text, kind)),
            Err(cause) => return Err(cause),
        }
        left = rest;
    }
    match texts {
        Ok(()) => Ok(Kind::Text),
        Err(cause) => Err(cause),
    }
}

fn earlier<'a>(first: Result<(), Cause<'a>>, second: Result<(), Cause<'a>>) -> Result<(), Cause<'a>>
    ensures { fault_of result ≡ (fault_of first.entry before fault_of second.entry) }
{
    match first {
        Ok(()) => second,
        Err(cause) => Err(cause),
    }
}

fn is_this(e: &Expr) -> bool
    ensures { result ≡ is_this (expression_of e.now) }
{
    matches!(e, Expr::This)
}
