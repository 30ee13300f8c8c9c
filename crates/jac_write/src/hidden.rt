//! Where a new record is kept: if a group hides its records, only where the label of this group is
//! shown.
ghost use Rattle.std.specs.Prelude.{◌≡◌, ◌<◌, ℕ, Bool, true, not, length, IfOk};
ghost use Rattle.jac_value.specs.Ids.{is_id_of, model_of_id};
ghost use Rattle.jac_lang.specs.Mirror.{application_of};
ghost use Rattle.jac_plain.specs.Statements.{is_kept};
ghost use Rattle.jac_write.specs.Drafts.{IsKeptUnder, hides};

use crate::schema::group_that_hides;
use jac_lang::App;
use jac_value::{Id, Memory, id_model, label_number};
use jac_world::{Guard, Label};
use std::alloc::Global;

/// The guard of a new record. If a group hides its records, the path condition together with the
/// label, or `None` if they contradict each other. Otherwise the path condition.
pub(crate) fn kept_under(
    alloc: Global,
    app: &App,
    pc: &Guard,
    id: Id,
) -> Result<Option<Guard>, Memory>
    requires model { model_of_id id < length app.now.models }
    requires id { is_id_of id (model_of_id id) ≡ true }
    ensures { IfOk result (IsKeptUnder (λ w. is_kept (application_of app.now).models w
        (model_of_id id) id) pc.now) }
{
    match hiding_label(app, id) {
        Some(label) => {
            let guard = shown_under(alloc, pc, label)?;
            Ok(guard)
        }
        None => {
            let guard = pc.copy(alloc)?;
            Ok(Some(guard))
        }
    }
}

// The label that hides the record, if a group hides the records of its model.
fn hiding_label(app: &App, id: Id) -> Option<Label>
    requires model { model_of_id id < length app.now.models }
    requires id { is_id_of id (model_of_id id) ≡ true }
    ensures { (w : ℕ → Bool) → not (hides w result) ≡ is_kept (application_of app.now).models w
        (model_of_id id) id }
{
    match group_that_hides(app, id_model(id)) {
        Some(group) => Some(Label(label_number(id, group))),
        None => None,
    }
}

// The path condition, where the label is shown.
#[tactic(auto, using(crate::proofs::HidingLaws::met_shown))]
fn shown_under(alloc: Global, pc: &Guard, label: Label) -> Result<Option<Guard>, Memory>
    ensures { IfOk result (IsKeptUnder (λ w. w label) pc.now) }
{
    let shown = Guard::one(alloc, label, true)?;
    let guard = pc.meet(alloc, &shown)?;
    Ok(guard)
}
