//! The cells that a create or an update sets.
ghost use Rattle.std.specs.Prelude.{◌≡◌, ◌<◌, ◌≤◌, [], ◌∷◌, ◌++◌, ℕ, Bool, true, length, slice_get, slice_set, Some, All, IfOk, OnOk, IsTrue};
ghost use Rattle.jac_expr.specs.Seen.{env_at, world_here};
ghost use Rattle.jac_expr.specs.Tupled.{all_at};
ghost use Rattle.jac_facet.specs.Shape.{Shape, at};
ghost use Rattle.jac_keep.specs.WorkState.{state_of, IsTold, ReadsWork};
ghost use Rattle.jac_lang.specs.Lookup.{fields_at};
ghost use Rattle.jac_lang.specs.Mirror.{application_of, assigned_of, one_assigned_of};
ghost use Rattle.jac_plain.specs.Expressions.{mean};
ghost use Rattle.jac_plain.specs.Records.{default_cells, drafted_cells};
ghost use Rattle.jac_value.specs.declared.value.Value.{Value as Plain};
ghost use Rattle.jac_world.specs.World.{holds};
ghost use Rattle.jac_write.specs.Writes.{fitted_from, sets_at};
ghost use Rattle.jac_stmt.specs.Drafts.{placed_sets, put_raw};

use jac_expr::{Env, FacetedContext, eval};
use jac_facet::{Facet, Facets};
use jac_keep::{Keeper, Stop, Work};
use jac_lang::{App, ModelDef, Public, Publics, field_of, kind_of};
use jac_value::{Memory, Value, default_of};
use jac_world::Steps;
use jac_write::Sets;
use std::alloc::Global;
use std::sync::ledger::Ledger;

/// The values that are set, each with its field's number. A field that the model doesn't have is
/// left out.
pub(crate) fn read_sets<K: Keeper, L: Ledger>(
    work: &mut Work<'_, K>,
    here: &FacetedContext<'_>,
    env: &Env,
    model: u8,
    cells: &Publics,
    splits: &mut Steps<L>,
) -> Result<Sets, Stop>
    requires attached { IsTrue (K.seen work.old.keeper.now).store.attached }
    requires model { model < length here.now.app.now.models }
    ensures sets { IsTold K.seen work.new → IfOk result (λ s. (w : ℕ → Bool)
        → holds w here.now.pc.now ≡ true
        → sets_at w s ≡ placed_sets (fields_at (application_of here.now.app.now).models model)
        (λ e. mean (world_here here.now (state_of K.seen work.old) w) e (env_at w env.now))
        (assigned_of cells.now)) }
    ensures fields { IfOk result
        (λ s. All (λ (x : ℕ × Shape Plain). x.0 < length (fields_at
        (application_of here.now.app.now).models model)) s) }
    ensures reads { ReadsWork K.seen work.old work.new result }
{
    let mut sets = Vec::new(work.alloc);
    let mut left = cells;
    'cells: while let Publics::More(first, rest) = left {
        read_set(work, here, env, model, first, &mut sets, splits)?;
        left = rest;
    }
    Ok(Sets::from_vec(sets))
}

// Adds the value that is set, if the model has the field.
fn read_set<K: Keeper, L: Ledger>(
    work: &mut Work<'_, K>,
    here: &FacetedContext<'_>,
    env: &Env,
    model: u8,
    set: &Public,
    sets: &mut Vec<(u8, Facet<Value>)>,
    splits: &mut Steps<L>,
) -> Result<(), Stop>
    requires attached { IsTrue (K.seen work.old.keeper.now).store.attached }
    requires model { model < length here.now.app.now.models }
    requires fields { All (λ (x : ℕ × Shape Plain). x.0
        < length (fields_at (application_of here.now.app.now).models model)) sets.old.items }
    ensures sets { IsTold K.seen work.new → OnOk result ((w : ℕ → Bool) → holds w here.now.pc.now
        ≡ true
        → sets_at w sets.new.items ≡ sets_at w sets.old.items ++ placed_sets
        (fields_at (application_of here.now.app.now).models model)
        (λ e. mean (world_here here.now (state_of K.seen work.old) w) e (env_at w env.now))
        (one_assigned_of set.now ∷ [])) }
    ensures fields { OnOk result
        (All (λ (x : ℕ × Shape Plain). x.0 < length (fields_at
        (application_of here.now.app.now).models model)) sets.new.items) }
    ensures reads { ReadsWork K.seen work.old work.new result }
{
    let Some(field) = field_of(here.app, model, &set.field) else {
        return Ok(());
    };
    let value = eval(work, here, env, &set.value, splits)?;
    sets.push((field, value))?;
    Ok(())
}

/// The cells of a new record: the values that are set, and defaults for the other fields.
pub(crate) fn new_cells<K: Keeper, L: Ledger>(
    work: &mut Work<'_, K>,
    here: &FacetedContext<'_>,
    env: &Env,
    model: u8,
    cells: &Publics,
    splits: &mut Steps<L>,
) -> Result<Facets<Value>, Stop>
    requires attached { IsTrue (K.seen work.old.keeper.now).store.attached }
    requires model { model < length here.now.app.now.models }
    ensures cells { let models = (application_of here.now.app.now).models in IsTold K.seen work.new
        → IfOk result (λ cs. (w : ℕ → Bool) → holds w here.now.pc.now ≡ true
        → fitted_from models (fields_at models model) 0 (all_at w cs) ≡ drafted_cells models
        (fields_at models model) (λ e. mean (world_here here.now (state_of K.seen work.old) w)
        e (env_at w env.now)) (assigned_of cells.now)
        (default_cells models (fields_at models model))) }
    ensures each_field { IfOk result (λ cs. length cs
        ≡ length (fields_at (application_of here.now.app.now).models model)) }
    ensures reads { ReadsWork K.seen work.old work.new result }
{
    let sets = read_sets(work, here, env, model, cells, splits)?;
    let mut made = defaults(work.alloc, here.app, model)?;
    put_sets(&mut made, sets.into_vec());
    Ok(Facets::from_vec(made))
}

// A default for each field.
fn defaults(alloc: Global, app: &App, model: u8) -> Result<Vec<Facet<Value>>, Memory>
    requires { model < length app.now.models }
    ensures cells { let models = (application_of app.now).models in IfOk result (λ v. (w : ℕ → Bool)
        → all_at w v.items ≡ default_cells models (fields_at models model)) }
    ensures each_field { IfOk result (λ v. length v.items
        ≡ length (fields_at (application_of app.now).models model)) }
{
    let count = field_count(app, model);
    let mut made = Vec::new(alloc);
    'fields: for field in 0..count {
        let value = default_of(alloc, &kind_of(app, model, field));
        made.push(Facet::leaf(value))?;
    }
    Ok(made)
}

fn field_count(app: &App, model: u8) -> u8
    requires { model < length app.now.models }
    ensures { result ≡ length (fields_at (application_of app.now).models model) }
{
    let models = app.models.as_slice();
    let model = model_at(models, model);
    model.fields.as_slice().len() as u8
}

pub(crate) fn model_at(models: &[ModelDef], place: u8) -> &ModelDef
    requires { place < length models.now }
    ensures model { slice_get models.now place ≡ Some result.now }
    ensures few { length result.now.fields ≤ 32 }
{
    &models[usize::from(place)]
}

// Puts each value in its place.
fn put_sets(cells: &mut Vec<Facet<Value>>, sets: Vec<(u8, Facet<Value>)>)
    requires { All (λ (x : ℕ × Shape Plain). x.0 < length cells.old.items) sets.items }
    ensures put { (w : ℕ → Bool) → all_at w cells.new.items ≡ put_raw (sets_at w sets.items)
        (all_at w cells.old.items) }
    ensures same_length { length cells.new.items ≡ length cells.old.items }
{
    'sets: for (field, value) in sets {
        put_set(cells, field, value);
    }
}

#[tactic(auto, using(crate::proofs::DraftLaws::all_at_set))]
fn put_set(cells: &mut Vec<Facet<Value>>, field: u8, value: Facet<Value>)
    requires { field < length cells.old.items }
    ensures put { (w : ℕ → Bool) → all_at w cells.new.items ≡ slice_set (all_at w cells.old.items)
        field (at w value) }
    ensures same_length { length cells.new.items ≡ length cells.old.items }
{
    cells[usize::from(field)] = value;
}
