//! Results of policies, cached with the labels that were consulted for them.
ghost use Rattle.std.specs.Prelude.{◌≡◌, ◌||◌, ℕ, Bool, true, List, Option, is_some, OnOk};
ghost use Rattle.std.specs.Ordering.{nat_cmp};
ghost use Rattle.std.specs.BTreeMap.{get};
ghost use Rattle.jac_value.specs.Ids.{record_of_label};
ghost use Rattle.jac_world.specs.World.{shown_by, holds, names};
ghost use Rattle.jac_lang.specs.Syntax.{Application};
ghost use Rattle.jac_plain.specs.Requests.{Worlds};
ghost use Rattle.jac_shown_rows.specs.Consulted.{Grows};
ghost use Rattle.jac_policy_cache.specs.Memo.{recall, watched_in, watches};
ghost use Rattle.jac_resolve.specs.Room.{AreLocalAnswers};
ghost use Rattle.jac_resolve.specs.RightMemo.{AreRight, Grown, IsRight};

use jac_policy_cache::{Labels, MemoEntry, PolicyMemo};
use jac_shown_rows::Support;
use jac_value::Memory;
use jac_world::Label;
use std::alloc::Global;
use std::collections::BTreeMap;

// Caches a result of the label. The label then watches all labels that were consulted.
pub(crate) fn remember(
    answers: &mut PolicyMemo,
    alloc: Global,
    label: Label,
    known: MemoEntry,
) -> Result<(), Memory>
    ensures right { (app : Application) (worlds : Worlds) (viewer : Option ℕ)
        → AreRight app worlds viewer answers.old → IsRight app worlds viewer label known
        → OnOk result (AreRight app worlds viewer answers.new) }
    ensures fits { (w : ℕ → Bool) → holds w known.when ≡ true
        → OnOk result (is_some (recall answers.new label w) ≡ true) }
    ensures grown { OnOk result (Grown answers.old answers.new) }
    ensures own { (labels : List ℕ) → AreLocalAnswers labels answers.old → shown_by labels label
        ≡ true
        → ((k : ℕ) → names known.when k ≡ true → record_of_label k ≡ record_of_label label)
        → OnOk result (AreLocalAnswers labels answers.new) }
{
    answers.put(alloc, label, known)?;
    Ok(())
}

/// Adds all labels that were consulted for the cached results.
pub fn add_consulted(answers: &PolicyMemo, consulted: &mut Support) -> Result<(), Memory>
    ensures added { OnOk result ((k j : ℕ) → watches answers.now k j ≡ true →
        shown_by consulted.new k ≡ true) }
    ensures grows { Grows consulted.old consulted.new }
{
    add_watched(&answers.watchers, consulted)
}

// Adds each label that is watched.
fn add_watched(watchers: &BTreeMap<Label, Labels>, consulted: &mut Support) -> Result<(), Memory>
    ensures added { OnOk result ((k j : ℕ) → watched_in (get nat_cmp watchers.now k) j ≡ true →
        shown_by consulted.new k ≡ true) }
    ensures grows { Grows consulted.old consulted.new }
{
    'watched: for label in watchers.keys() {
        consulted.add(*label)?;
    }
    Ok(())
}
