//! The change that upgrades a state to another application.
ghost use Rattle.std.specs.Prelude.{◌≡◌, ◌≤◌, ℕ, Bool, None, length, IfOk, IsErrOf, IsTrue};
ghost use Rattle.jac_check.specs.Well.{is_well};
ghost use Rattle.jac_io.specs.Faults.{Rose};
ghost use Rattle.jac_keep.specs.Alterations.{AreApart};
ghost use Rattle.jac_keep.specs.ChangedState.{changed_state};
ghost use Rattle.jac_keep.specs.KeeperSeen.{IsLeft};
ghost use Rattle.jac_keep.specs.Reshaping.{widened_state};
ghost use Rattle.jac_keep.specs.Schema.{IsFit};
ghost use Rattle.jac_keep.specs.declared.stop.Stop.TheVariants.{Keeper as KeeperStopped};
ghost use Rattle.jac_lang.specs.Mirror.{application_of};
ghost use Rattle.jac_plain.specs.Models.{shapes_of};
ghost use Rattle.jac_rows.specs.Project.{project_at};
ghost use Rattle.jac_upgrade.specs.Changed.{AreIdsOf, changed_ids};
ghost use Rattle.jac_upgrade.specs.Extends.{models_lack};
ghost use Rattle.jac_upgrade.specs.Steps.{AltersBelow};
ghost use Rattle.jac_upgrade.specs.Upgraded.{upgraded_state};

use crate::collection::alterations;
use crate::order::in_order;
use jac_keep::{Alterations, Change, Keeper, Stop};
use jac_lang::App;
use jac_world::Steps;
use std::alloc::Global;
use std::sync::ledger::Ledger;

// The alterations of all records of the models of the old application, by rising id.
fn all_changed<K: Keeper, L: Ledger>(
    alloc: Global,
    keeper: &mut K,
    old: &App,
    new: &App,
    splits: &mut Steps<L>,
) -> Result<Alterations, Stop>
    requires attached { IsTrue (K.seen keeper.old).store.attached }
    requires extends { length old.now.models ≤ length new.now.models }
    ensures left { IsLeft (K.seen keeper.old) (K.seen keeper.new) }
    ensures rose { IsErrOf result KeeperStopped
        → Rose (K.seen keeper.old).faults (K.seen keeper.new).faults }
    ensures apart { IfOk result AreApart }
    ensures all { IsTrue (K.seen keeper.new).tells
        → IfOk result (λ changed. AltersBelow (application_of old.now).models
        (application_of new.now).models (K.seen keeper.old).state (length old.now.models) changed) }
{
    let made = alterations(alloc, keeper, old, new, splits)?;
    let changed = in_order(alloc, made)?;
    Ok(changed)
}

/// The change after which the state is that of the new application. It names each record that has a
/// row, and keeps the number. It is made from the contents of the keeper, which don't change.
pub fn upgrade<K: Keeper, L: Ledger>(
    alloc: Global,
    keeper: &mut K,
    old: &App,
    new: &App,
    splits: &mut Steps<L>,
) -> Result<Change, Stop>
    requires attached { IsTrue (K.seen keeper.old).store.attached }
    requires well { IsTrue (is_well (application_of old.now)) }
    requires extends { models_lack 0 (application_of old.now).models (application_of new.now).models
        ≡ None }
    requires fit { IsTrue (K.seen keeper.old).tells → IsFit (shapes_of (application_of old.now))
        (K.seen keeper.old).state }
    ensures left { IsLeft (K.seen keeper.old) (K.seen keeper.new) }
    ensures rose { IsErrOf result KeeperStopped
        → Rose (K.seen keeper.old).faults (K.seen keeper.new).faults }
    ensures names { IsTrue (K.seen keeper.new).tells
        → IfOk result (λ change. AreIdsOf (K.seen keeper.old).state (changed_ids change.changed)) }
    ensures shows { IsTrue (K.seen keeper.new).tells → IfOk result (λ change. (w : ℕ → Bool)
        → project_at w (widened_state (length (application_of new.now).models)
        (changed_state change (K.seen keeper.old).state)) ≡ upgraded_state w
        (application_of old.now).models
        (application_of new.now).models (project_at w (K.seen keeper.old).state)) }
    ensures fit { IsTrue (K.seen keeper.new).tells
        → IfOk result (λ change. IsFit (shapes_of (application_of new.now))
        (widened_state (length (application_of new.now).models)
        (changed_state change (K.seen keeper.old).state))) }
{
    let number = keeper.number()?;
    let changed = all_changed(alloc, keeper, old, new, splits)?;
    Ok(Change { changed, number })
}
