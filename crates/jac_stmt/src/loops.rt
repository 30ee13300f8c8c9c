//! Loops, and the ids of the records that are made in them.
ghost use Rattle.std.specs.Prelude.{◌≡◌, ◌+◌, ◌<◌, ◌^◌, length, true};
ghost use Rattle.jac_lang.specs.Lookup.{is_nested_at};
ghost use Rattle.jac_lang.specs.Mirror.{application_of};
ghost use Rattle.jac_plain.specs.Statements.{around_id, loop_of};
ghost use Rattle.jac_rows.specs.Good.{IsMade};
ghost use Rattle.jac_value.specs.Ids.{is_id_of, is_narrow, model_of_id, record_id};

use crate::drafts::model_at;
use jac_expr::Ctx;
use jac_lang::App;
use jac_value::{Id, Ids, id_of, is_narrow_id, loop_id_of};

/// The context of a loop's body, for the records of a tuple.
pub(crate) fn looped(ctx: &Ctx, ids: &Ids) -> Ctx
    ensures { result ≡ record ctx.now { around = loop_of ids.now } }
{
    Ctx {
        around: loop_of(ids),
        ..*ctx
    }
}

// The record of a loop's tuple, if the loop has only one binder.
fn loop_of(ids: &Ids) -> Option<Id>
    ensures { result ≡ loop_of ids.now }
{
    match ids.as_slice() {
        [id] => Some(*id),
        _ => None,
    }
}

/// The id of the record that the `create` at this site makes.
pub(crate) fn new_id(app: &App, ctx: &Ctx, model: u8, site: u8) -> Id
    requires numbered { 0 < ctx.now.number }
    requires in_range { ctx.now.number < 2 ^ 40 }
    requires site { site < 64 }
    requires model { model < length app.now.models }
    requires few { model < 64 }
    ensures id { result ≡ around_id (is_nested_at (application_of app.now).models model)
        ctx.now.around (record_id ctx.now.number site model) }
    ensures made { IsMade model (ctx.now.number + 1) result }
    ensures one { is_id_of result (model_of_id result) ≡ true }
{
    let base = id_of(ctx.number, site, model);
    let nested = is_nested(app, model);
    around(nested, ctx.around, base)
}

// The id around the loop's record, if the model is nested and that record was made outside of
// loops. Otherwise the id itself.
fn around(nested: bool, outer: Option<Id>, base: Id) -> Id
    requires { is_narrow base ≡ true }
    ensures { result ≡ around_id nested outer base }
{
    if !nested {
        return base;
    }
    match outer {
        Some(outer) => if is_narrow_id(outer) {
            loop_id_of(outer, base)
        } else {
            base
        },
        None => base,
    }
}

fn is_nested(app: &App, model: u8) -> bool
    requires { model < length app.now.models }
    ensures { result ≡ is_nested_at (application_of app.now).models model }
{
    let models = app.models.as_slice();
    let model = model_at(models, model);
    model.nested
}
