//! What the value of an expression depends on, read from its text.
ghost use Rattle.std.specs.Prelude.{◌≡◌, ◌++◌, OnOk};
ghost use Rattle.std.specs.Option.{option_to_list};
ghost use Rattle.jac_lang.specs.Mirror.{application_of, binders_of, expression_of, expressions_of};
ghost use Rattle.jac_policy_deps.specs.Dependencies.{binder_dependencies, live_dependency, named_referent, one_dependency, read_dependency, dependencies, dependencies_each};

use crate::Dependency;
use crate::finder::binder_dependency;
use crate::names::named_referent;
use jac_lang::{App, Binders, Expr, Exprs, Query, model_of};
use jac_value::{Memory, Txt};

// Adds the dependencies of the expression's value.
#[cycle(dependencies)]
pub(crate) fn add_dependencies(app: &App, e: &Expr, out: &mut Vec<Dependency>) -> Result<(), Memory>
    ensures { OnOk result (out.new.items
        ≡ out.old.items ++ dependencies (application_of app.now).models (expression_of e.now)) }
{
    match e {
        Expr::Int(_)
        | Expr::Text(_)
        | Expr::Bool(_)
        | Expr::NoneOf(_)
        | Expr::Name(_)
        | Expr::This
        | Expr::Viewer => Ok(()),
        Expr::Get(model, _, base) => {
            push_some(out, read_dependency(app, model, base))?;
            add_dependencies(app, base, out)
        }
        Expr::Live(base) => {
            push_some(out, live_dependency(app, base))?;
            add_dependencies(app, base, out)
        }
        Expr::Two(_, a, b) => {
            add_dependencies(app, a, out)?;
            add_dependencies(app, b, out)
        }
        Expr::Not(e) => add_dependencies(app, e, out),
        Expr::Cat(parts) => add_parts(app, parts, out),
        Expr::Str(e) => add_dependencies(app, e, out),
        Expr::Pick(c, a, b) => {
            add_dependencies(app, c, out)?;
            add_dependencies(app, a, out)?;
            add_dependencies(app, b, out)
        }
        Expr::Count(q) => add_query(app, q, out),
        Expr::Sum(q, e) => {
            add_query(app, q, out)?;
            add_dependencies(app, e, out)
        }
        Expr::AnyOf(q) => add_query(app, q, out),
        Expr::First(q) => add_query(app, q, out),
    }
}

#[cycle(dependencies)]
fn add_parts(app: &App, parts: &Exprs, out: &mut Vec<Dependency>) -> Result<(), Memory>
    ensures { OnOk result (out.new.items
        ≡ out.old.items ++ dependencies_each (application_of app.now).models
        (expressions_of parts.now)) }
{
    match parts {
        Exprs::End => Ok(()),
        Exprs::More(first, later) => {
            add_dependencies(app, first, out)?;
            add_parts(app, later, out)
        }
    }
}

#[cycle(dependencies)]
fn add_query(app: &App, q: &Query, out: &mut Vec<Dependency>) -> Result<(), Memory>
    ensures { OnOk result (out.new.items ≡ out.old.items ++ (binder_dependencies
        (application_of app.now).models (binders_of q.now.binders) (expression_of q.now.cond)
        ++ dependencies (application_of app.now).models (expression_of q.now.cond))) }
{
    add_binders(app, &q.binders, &q.cond, out)?;
    add_dependencies(app, &q.cond, out)
}

// Adds the records that each binder goes through.
fn add_binders(
    app: &App,
    binders: &Binders,
    cond: &Expr,
    out: &mut Vec<Dependency>,
) -> Result<(), Memory>
    ensures { OnOk result (out.new.items ≡ out.old.items ++ binder_dependencies
        (application_of app.now).models (binders_of binders.now) (expression_of cond.now)) }
{
    match binders {
        Binders::End => Ok(()),
        Binders::More(binder, later) => {
            push_some(out, binder_dependency(app, binder, later, cond))?;
            add_binders(app, later, cond, out)
        }
    }
}

fn push_some(out: &mut Vec<Dependency>, rest: Option<Dependency>) -> Result<(), Memory>
    ensures { OnOk result (out.new.items ≡ out.old.items ++ option_to_list rest) }
{
    match rest {
        Some(rest) => {
            out.push(rest)?;
            Ok(())
        }
        None => Ok(()),
    }
}

fn read_dependency(app: &App, model: &Txt, base: &Expr) -> Option<Dependency>
    ensures { result
        ≡ read_dependency (application_of app.now).models model.now (expression_of base.now) }
{
    match base {
        Expr::This
        | Expr::Name(_)
        | Expr::Int(_)
        | Expr::Text(_)
        | Expr::Bool(_)
        | Expr::NoneOf(_) => None,
        _ => match one_dependency(app, base) {
            Some(rest) => Some(rest),
            None => match model_of(app, model) {
                Some(model) => Some(Dependency::Table(model)),
                None => None,
            },
        },
    }
}

fn one_dependency(app: &App, base: &Expr) -> Option<Dependency>
    ensures { result
        ≡ one_dependency (named_referent (application_of app.now).models (expression_of base.now)) }
{
    match named_referent(app, base) {
        Some(referent) => Some(Dependency::One(referent)),
        None => None,
    }
}

fn live_dependency(app: &App, base: &Expr) -> Option<Dependency>
    ensures { result ≡ live_dependency (application_of app.now).models (expression_of base.now) }
{
    match base {
        Expr::This
        | Expr::Name(_)
        | Expr::Int(_)
        | Expr::Text(_)
        | Expr::Bool(_)
        | Expr::NoneOf(_) => None,
        _ => match one_dependency(app, base) {
            Some(rest) => Some(rest),
            None => Some(Dependency::Any),
        },
    }
}
