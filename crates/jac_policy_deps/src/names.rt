//! Which record an expression names.
ghost use Rattle.std.specs.Prelude.{◌≡◌, ◌<◌, length};
ghost use Rattle.jac_lang.specs.Lookup.{fields_at, field_place, model_place};
ghost use Rattle.jac_lang.specs.Mirror.{application_of, expression_of};
ghost use Rattle.jac_policy_deps.specs.Dependencies.{field_if, field_referent, is_same_referent, is_referent, is_referent_in, linked_referent, may_refer, model_referent, named_referent, own_referent};

use crate::Referent;
use jac_lang::{App, Expr, field_of, kind_of, model_of};
use jac_value::{Kind, Txt};

pub(crate) fn is_referent(app: &App, referent: Referent, e: &Expr) -> bool
    ensures { result ≡ is_referent (application_of app.now).models referent (expression_of e.now) }
{
    is_referent_in(referent, named_referent(app, e))
}

fn is_referent_in(referent: Referent, named: Option<Referent>) -> bool
    ensures { result ≡ is_referent_in referent named }
{
    match named {
        None => false,
        Some(other) => is_same_referent(referent, other),
    }
}

pub(crate) fn is_same_referent(one: Referent, other: Referent) -> bool
    ensures { result ≡ is_same_referent one other }
{
    match one {
        Referent::This => matches!(other, Referent::This),
        Referent::Field(m, f) => match other {
            Referent::Field(n, g) => m == n && f == g,
            _ => false,
        },
        Referent::Viewer => matches!(other, Referent::Viewer),
    }
}

// The policy's own record, the viewer's record, or the record that a field of the own record refers
// to.
pub(crate) fn named_referent(app: &App, e: &Expr) -> Option<Referent>
    ensures { result ≡ named_referent (application_of app.now).models (expression_of e.now) }
{
    match e {
        Expr::This => Some(Referent::This),
        Expr::Viewer => Some(Referent::Viewer),
        Expr::Get(model, field, base) => own_referent(app, model, field, base),
        _ => None,
    }
}

pub(crate) fn linked_referent(app: &App, e: &Expr) -> Option<Referent>
    ensures { result ≡ linked_referent (application_of app.now).models (expression_of e.now) }
{
    match e {
        Expr::Get(model, field, base) => own_referent(app, model, field, base),
        _ => None,
    }
}

fn own_referent(app: &App, model: &Txt, field: &Txt, base: &Expr) -> Option<Referent>
    ensures { result ≡ own_referent (application_of app.now).models model.now field.now
        (expression_of base.now) }
{
    match base {
        Expr::This => model_referent(app, model, field),
        _ => None,
    }
}

fn model_referent(app: &App, model: &Txt, field: &Txt) -> Option<Referent>
    ensures { result ≡ model_referent (application_of app.now).models
        (model_place (application_of app.now).models model.now) field.now }
{
    match model_of(app, model) {
        None => None,
        Some(model) => field_referent(app, model, field),
    }
}

fn field_referent(app: &App, model: u8, field: &Txt) -> Option<Referent>
    requires { model < length app.now.models }
    ensures { result ≡ field_referent (application_of app.now).models model
        (field_place (fields_at (application_of app.now).models model) field.now) }
{
    match field_of(app, model, field) {
        None => None,
        Some(field) => field_if(may_refer(kind_of(app, model, field)), model, field),
    }
}

fn may_refer(kind: Kind) -> bool
    ensures { result ≡ may_refer kind }
{
    match kind {
        Kind::Ref(_) => true,
        Kind::Int | Kind::Text | Kind::Bool => false,
    }
}

fn field_if(is_one: bool, model: u8, field: u8) -> Option<Referent>
    ensures { result ≡ field_if is_one model field }
{
    if is_one {
        Some(Referent::Field(model, field))
    } else {
        None
    }
}
