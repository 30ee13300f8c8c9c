//! Whether a label may be shown under an assignment.
ghost use Rattle.std.specs.Prelude.{◌≡◌, ◌≤◌, ◌+◌, ◌&&◌, [], ℕ, Bool, true, Some, if◌then◌else◌, slice_get, option_map, IfOk, OnOk, IsTrue};
ghost use Rattle.jac_value.specs.Ids.{record_of_label};
ghost use Rattle.jac_world.specs.World.{shown_by};
ghost use Rattle.jac_lang.specs.Mirror.{application_of, entity_of, entities_of, field_group_of, groups_of, expression_of};
ghost use Rattle.jac_keep.specs.WorkState.{state_of, IsTold, ReadsWork};
ghost use Rattle.jac_plain.specs.Expressions.{mean, is_true};
ghost use Rattle.jac_shown_rows.specs.Local.{is_free_viewer, is_local, IsLocalCase};
ghost use Rattle.jac_plain.specs.Policies.{labelled_group, has_group, has_record, policy_world, is_allowed};
ghost use Rattle.jac_shown_rows.specs.Consulted.{Agrees, Grows};
ghost use Rattle.jac_shown_rows.specs.Own.{IsOwn};
ghost use Rattle.jac_plain.specs.Shown.{worlds_of};

use jac_keep::{Keeper, Stop, Work};
use jac_lang::{App, Expr, Group, ModelDef, Models, PlainEnv};
use jac_plain::{Ctx, is_true};
use jac_pruned::eval_at;
use jac_shown_rows::{Support, WorldContext, record_stands};
use jac_value::{Id, id_model};
use jac_world::{Assignment, Label, Steps};
use std::sync::ledger::Ledger;

/// Whether the record of the label exists under the assignment and the policy of its group is true
/// there. Also the labels that were consulted: the result is the same under each assignment that
/// agrees with this one about them.
pub fn allowed<K: Keeper, M: Ledger>(
    work: &mut Work<'_, K>,
    app: &App,
    viewer: Option<Id>,
    a: &Assignment,
    label: Label,
    evaluations: &mut Steps<M>,
) -> Result<(bool, Support), Stop>
    requires attached { IsTrue (K.seen work.old.keeper.now).store.attached }
    ensures value { IsTold K.seen work.new
        → IfOk result (λ r. (w : ℕ → Bool) → Agrees r.1 (shown_by a.now) w → r.0 ≡ is_allowed
        (application_of app.now) (worlds_of (state_of K.seen work.old) w) viewer label) }
    ensures ticks { IsTold K.seen work.new → OnOk result (evaluations.new
        ≡ evaluations.old + (if has_group (application_of app.now) label
        && has_record (worlds_of (state_of K.seen work.old) (shown_by a.now)) label then 1
        else 0)) }
    ensures later { evaluations.old ≤ evaluations.new }
    ensures once { evaluations.new ≤ evaluations.old + 1 }
    ensures own { IsTold K.seen work.new
        → IsLocalCase (application_of app.now) (state_of K.seen work.old) viewer → IfOk result (λ r.
        (k : ℕ) → shown_by r.1 k ≡ true → record_of_label k ≡ record_of_label label) }
    ensures reads { ReadsWork K.seen work.old work.new result }
{
    let mut support = Support::empty(work.alloc);
    match group_of_label(app, label) {
        Some(group) => {
            let id = record_of(label);
            let stands = record_stands(work, a, id, &mut support)?;
            if !stands {
                return Ok((false, support));
            }
            evaluations.tick();
            let policy = &group.policy;
            let holds = policy_holds(work, app, viewer, a, id, policy, &mut support)?;
            Ok((holds, support))
        }
        None => Ok((false, support)),
    }
}

// Whether the policy is true for the record under the assignment.
fn policy_holds<K: Keeper>(
    work: &mut Work<'_, K>,
    app: &App,
    viewer: Option<Id>,
    a: &Assignment,
    id: Id,
    policy: &Expr,
    support: &mut Support,
) -> Result<bool, Stop>
    requires attached { IsTrue (K.seen work.old.keeper.now).store.attached }
    ensures value { IsTold K.seen work.new → IfOk result (λ b. (w : ℕ → Bool) → Agrees support.new
        (shown_by a.now) w → b ≡ is_true (mean (policy_world (application_of app.now)
        (worlds_of (state_of K.seen work.old) w) viewer id) (expression_of policy.now) [])) }
    ensures own { IsTold K.seen work.new → IsLocalCase (application_of app.now)
        (state_of K.seen work.old) viewer → is_local (application_of app.now).models
        (is_free_viewer (application_of app.now)) (expression_of policy.now) ≡ true
        → IsOwn (Some id) support.old → OnOk result (IsOwn (Some id) support.new) }
    ensures grows { Grows support.old support.new }
    ensures reads { ReadsWork K.seen work.old work.new result }
{
    let ctx = Ctx {
        viewer,
        this: Some(id),
        number: 0,
        around: None,
    };
    let env = PlainEnv::empty(work.alloc);
    let at = WorldContext {
        app,
        ctx: &ctx,
        assignment: a,
    };
    let value = eval_at(work, &at, &env, policy, support)?;
    Ok(is_true(&value))
}

/// The record of the label.
pub(crate) fn record_of(label: Label) -> Id
    ensures { result ≡ record_of_label label }
{
    Id(label.0 / 8)
}

/// Whether the label's model has its group.
pub(crate) fn has_group(app: &App, label: Label) -> bool
    ensures { result ≡ has_group (application_of app.now) label }
{
    match group_of_label(app, label) {
        Some(_) => true,
        None => false,
    }
}

// The group of the label, if its model has it.
fn group_of_label(app: &App, label: Label) -> Option<&Group>
    ensures { option_map (λ g. field_group_of g.now) result
        ≡ labelled_group (application_of app.now) label }
{
    match model_at(&app.models, id_model(record_of(label))) {
        Some(model) => group_at(model.groups.as_slice(), (label.0 % 8) as u8),
        None => None,
    }
}

fn model_at(models: &Models, place: u8) -> Option<&ModelDef>
    ensures { option_map (λ m. entity_of m.now) result ≡ slice_get (entities_of models.now) place }
{
    models.as_slice().get(usize::from(place))
}

fn group_at(groups: &[Group], place: u8) -> Option<&Group>
    ensures { option_map (λ g. field_group_of g.now) result
        ≡ slice_get (groups_of groups.now) place }
{
    groups.get(usize::from(place))
}
