//! Sorts tuples by a field.
ghost use Rattle.std.specs.Prelude.{◌≡◌, ℕ, Bool, true, [], length, IfOk, IsTrue};
ghost use Rattle.jac_facet.specs.Shape.{at};
ghost use Rattle.jac_lang.specs.Mirror.{binders_of};
ghost use Rattle.jac_keep.specs.WorkState.{state_of, IsTold, ReadsWork};
ghost use Rattle.jac_world.specs.World.{holds};
ghost use Rattle.jac_plain.specs.Expressions.{bound, look, key_of, ordered_tuples, sorted_tuples};
ghost use Rattle.jac_plain.specs.World.{got};
ghost use Rattle.jac_plain.specs.declared.context.Ctx.{Ctx as Context};
ghost use Rattle.jac_query.specs.Live.{live};
ghost use Rattle.jac_query.specs.Marked.{marked_tuples};
ghost use Rattle.jac_query.specs.Sorted.{value_less};
ghost use Rattle.jac_expr.specs.Tupled.{each_with, KeepsIds};
ghost use Rattle.jac_plain.specs.Shown.{world_at};

use crate::Env;
use crate::binding::{bind_tuple, binder_model};
use crate::env::look_up;
use crate::reading::get;
use jac_facet::{Facet, Facets};
use jac_keep::{Keeper, Stop, Work};
use jac_lang::{App, Binders, Order};
use jac_query::{Tuple, Tuples, order};
use jac_value::{Txt, Value};
use jac_world::Steps;
use std::sync::ledger::Ledger;

/// The key by which tuples are sorted: a field of this binder's records.
#[derive(Clone, Copy)]
struct Key<'k> {
    binders: &'k Binders,
    name: &'k Txt,
    field: &'k Txt,
}

/// The tuples in the order that the query asks for.
pub(crate) fn sort<K: Keeper, L: Ledger>(
    work: &mut Work<'_, K>,
    app: &App,
    binders: &Binders,
    by: &Order,
    tuples: Tuples,
    splits: &mut Steps<L>,
) -> Result<Tuples, Stop>
    requires { IsTrue (K.seen work.old.keeper.now).store.attached }
    ensures sorted { IsTold K.seen work.new → IfOk result (λ ts. (ctx : Context) (w : ℕ → Bool)
        → live w ts ≡ ordered_tuples (world_at app.now ctx (state_of K.seen work.old) w)
        (binders_of binders.now) by.now (live w tuples)) }
    ensures ids { IfOk result (KeepsIds tuples) }
    ensures reads { ReadsWork K.seen work.old work.new result }
{
    match by {
        Order::Key => Ok(tuples),
        Order::Up(name, field) => {
            let key = Key {
                binders,
                name,
                field,
            };
            sort_by(work, app, &key, false, &tuples, splits)
        }
        Order::Down(name, field) => {
            let key = Key {
                binders,
                name,
                field,
            };
            sort_by(work, app, &key, true, &tuples, splits)
        }
    }
}

// The tuples in the order of the field of this binder's records.
fn sort_by<K: Keeper, L: Ledger>(
    work: &mut Work<'_, K>,
    app: &App,
    key: &Key<'_>,
    down: bool,
    tuples: &Tuples,
    splits: &mut Steps<L>,
) -> Result<Tuples, Stop>
    requires { IsTrue (K.seen work.old.keeper.now).store.attached }
    ensures sorted { IsTold K.seen work.new → IfOk result (λ ts. (ctx : Context) (w : ℕ → Bool)
        → live w ts ≡ sorted_tuples (value_less down)
        (key_of (world_at app.now ctx (state_of K.seen work.old) w) (binders_of key.now.binders.now)
        key.now.name.now key.now.field.now) (live w tuples.now)) }
    ensures ids { IfOk result (KeepsIds tuples.now) }
    ensures reads { ReadsWork K.seen work.old work.new result }
{
    let all = tuples.as_slice();
    let keys = keys_of(work, app, key, all, splits)?;
    Ok(order(work.alloc, tuples, &keys, down, splits)?)
}

// For each tuple, the field of this binder's record.
fn keys_of<K: Keeper, L: Ledger>(
    work: &mut Work<'_, K>,
    app: &App,
    key: &Key<'_>,
    tuples: &[Tuple],
    splits: &mut Steps<L>,
) -> Result<Facets<Value>, Stop>
    requires { IsTrue (K.seen work.old.keeper.now).store.attached }
    ensures keys { IsTold K.seen work.new → IfOk result (λ ks. (ctx : Context) (w : ℕ → Bool)
        → marked_tuples w tuples.now ks ≡ each_with
        (key_of (world_at app.now ctx (state_of K.seen work.old) w) (binders_of key.now.binders.now)
        key.now.name.now key.now.field.now) (live w tuples.now)) }
    ensures length { IfOk result (λ ks. length tuples.now ≡ length ks) }
    ensures reads { ReadsWork K.seen work.old work.new result }
{
    let model = binder_model(work.alloc, key.binders, key.name)?;
    let mut keys = Vec::new(work.alloc);
    'tuples: for tuple in tuples {
        let value = key_at(work, app, key, &model, tuple, splits)?;
        keys.push(value)?;
    }
    Ok(Facets::from_vec(keys))
}

// The field of this binder's record, wherever the tuple's guard holds.
fn key_at<K: Keeper, L: Ledger>(
    work: &mut Work<'_, K>,
    app: &App,
    key: &Key<'_>,
    model: &Txt,
    tuple: &Tuple,
    splits: &mut Steps<L>,
) -> Result<Facet<Value>, Stop>
    requires { IsTrue (K.seen work.old.keeper.now).store.attached }
    ensures key { IsTold K.seen work.new → IfOk result (λ f. (ctx : Context) (w : ℕ → Bool)
        → holds w tuple.now.guard ≡ true
        → at w f ≡ got (world_at app.now ctx (state_of K.seen work.old) w) model.now
        key.now.field.now (look (bound (binders_of key.now.binders.now) tuple.now.ids [])
        key.now.name.now)) }
    ensures reads { ReadsWork K.seen work.old work.new result }
{
    let mut env = Env::empty(work.alloc);
    bind_tuple(work.alloc, &mut env, key.binders, &tuple.ids)?;
    let record = look_up(work.alloc, &env, key.name)?;
    Ok(get(work, app, &tuple.guard, model, key.field, &record, splits)?)
}
