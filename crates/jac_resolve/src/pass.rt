//! The greedy pass that settles which labels a viewer is shown.
ghost use Rattle.std.specs.Prelude.{◌≡◌, ◌==◌, ◌≤◌, ◌+◌, ◌*◌, ℕ, Bool, true, List, [], length, is_some, IfOk, OnOk, IsTrue};
ghost use Rattle.jac_world.specs.World.{shown_by, holds, names};
ghost use Rattle.jac_value.specs.Ids.{record_of_label};
ghost use Rattle.jac_lang.specs.Mirror.{application_of};
ghost use Rattle.jac_keep.specs.WorkState.{state_of, IsTold, ReadsWork};
ghost use Rattle.jac_shown_rows.specs.Local.{IsLocalCase};
ghost use Rattle.jac_plain.specs.Policies.{IsSettled, is_allowed};
ghost use Rattle.jac_policy_cache.specs.Memo.{recall};
ghost use Rattle.jac_resolve.specs.RightMemo.{AreRight, Fills, Fitting, Grown, IsPassed, IsRight, IsUnderway, Retains, Stays, Tries, is_affected};
ghost use Rattle.jac_resolve.specs.Room.{AreLocalAnswers, Spends, room};
ghost use Rattle.jac_resolve.specs.Rounds.{AreFewEvaluations, HasSoundTables, AreLive, MayAdd, Advances, Within};
ghost use Rattle.jac_plain.specs.Shown.{worlds_of};

use crate::live::live_labels;
use crate::permission::allowed;
use crate::recall::remember;
use jac_keep::{Keeper, Stop, Work};
use jac_lang::App;
use jac_policy_cache::{MemoEntry, PolicyMemo, signs};
use jac_value::Id;
use jac_world::{Assignment, Label, Steps};
use std::sync::ledger::Ledger;

/// The labels that the viewer is shown. Each is allowed, and no single live label can be added. The
/// live labels are tried in rising order, in rounds, until a round adds none.
pub fn resolve<K: Keeper, M: Ledger>(
    work: &mut Work<'_, K>,
    app: &App,
    viewer: Option<Id>,
    evaluations: &mut Steps<M>,
) -> Result<Assignment, Stop>
    requires attached { IsTrue (K.seen work.old.keeper.now).store.attached }
    requires sound { IsTold K.seen work.old → HasSoundTables (state_of K.seen work.old) }
    ensures settled { IsTold K.seen work.new → IfOk result
        (IsSettled (application_of app.now) (worlds_of (state_of K.seen work.old)) viewer) }
    ensures bounded { IsTold K.seen work.new
        → AreFewEvaluations (application_of app.now) (state_of K.seen work.old) viewer
        evaluations.old evaluations.new }
    ensures later { evaluations.old ≤ evaluations.new }
    ensures reads { ReadsWork K.seen work.old work.new result }
{
    let labels = live_labels(work, app)?;
    let assignment = settle(work, app, &viewer, labels.as_slice(), evaluations)?;
    Ok(assignment)
}

// The same for these live labels, without cached results at the beginning.
fn settle<K: Keeper, M: Ledger>(
    work: &mut Work<'_, K>,
    app: &App,
    viewer: &Option<Id>,
    labels: &[Label],
    evaluations: &mut Steps<M>,
) -> Result<Assignment, Stop>
    requires attached { IsTrue (K.seen work.old.keeper.now).store.attached }
    requires live { IsTold K.seen work.old
        → AreLive (application_of app.now) (worlds_of (state_of K.seen work.old)) labels.now }
    ensures settled { IsTold K.seen work.new → IfOk result
        (IsSettled (application_of app.now) (worlds_of (state_of K.seen work.old)) viewer.now) }
    ensures bounded { IsTold K.seen work.new
        → IsLocalCase (application_of app.now) (state_of K.seen work.old) viewer.now
        → evaluations.new ≤ evaluations.old + 256 * length labels.now }
    ensures later { evaluations.old ≤ evaluations.new }
    ensures reads { ReadsWork K.seen work.old work.new result }
{
    let mut answers = PolicyMemo::empty(work.alloc);
    let assignment = settle_among(work, app, viewer, labels, &mut answers, evaluations)?;
    Ok(assignment)
}

/// The labels among these that the viewer is shown if no others are shown. Each is allowed, and
/// none of the others among these can be added. They are tried in their order, in rounds, until a
/// round adds none. The results of policies are cached, and a cached result isn't computed again.
pub fn settle_among<K: Keeper, M: Ledger>(
    work: &mut Work<'_, K>,
    app: &App,
    viewer: &Option<Id>,
    tried: &[Label],
    answers: &mut PolicyMemo,
    evaluations: &mut Steps<M>,
) -> Result<Assignment, Stop>
    requires attached { IsTrue (K.seen work.old.keeper.now).store.attached }
    requires underway { IsTold K.seen work.old →
        IsUnderway (application_of app.now) (worlds_of (state_of K.seen work.old)) viewer.now []
        answers.old }
    ensures passed { IsTold K.seen work.new →
        IfOk result (IsPassed (application_of app.now) (worlds_of (state_of K.seen work.old))
        viewer.now answers.new tried.now) }
    ensures most { IsTold K.seen work.new →
        IsLocalCase (application_of app.now) (state_of K.seen work.old) viewer.now →
        AreLocalAnswers tried.now answers.old →
        evaluations.new ≤ evaluations.old + room tried.now answers.old }
    ensures later { evaluations.old ≤ evaluations.new }
    ensures reads { ReadsWork K.seen work.old work.new result }
{
    let mut assignment = Assignment::empty(work.alloc);
    'rounds: loop {
        let added = try_labels(
            work,
            app,
            viewer,
            tried,
            &mut assignment,
            answers,
            evaluations,
        )?;
        if !added {
            return Ok(assignment);
        }
    }
}

// Tries each label once. Returns whether one was added.
pub(crate) fn try_labels<K: Keeper, M: Ledger>(
    work: &mut Work<'_, K>,
    app: &App,
    viewer: &Option<Id>,
    labels: &[Label],
    a: &mut Assignment,
    answers: &mut PolicyMemo,
    evaluations: &mut Steps<M>,
) -> Result<bool, Stop>
    requires attached { IsTrue (K.seen work.old.keeper.now).store.attached }
    ensures advances { IfOk result (Advances labels.now a.old a.new) }
    ensures within { IfOk result (λ b. Within labels.now a.old a.new) }
    ensures retains { OnOk result (Retains a.old a.new answers.old answers.new) }
    ensures underway { IsTold K.seen work.new → IsUnderway
        (application_of app.now) (worlds_of (state_of K.seen work.old)) viewer.now a.old answers.old
        → OnOk result (IsUnderway (application_of app.now)
        (worlds_of (state_of K.seen work.old)) viewer.now a.new answers.new) }
    ensures fills { IsTold K.seen work.new → IsUnderway
        (application_of app.now) (worlds_of (state_of K.seen work.old)) viewer.now a.old answers.old
        → IfOk result (Fills (application_of app.now)
        (worlds_of (state_of K.seen work.old)) viewer.now answers.new labels.now a.new) }
    ensures spends { IsTold K.seen work.new → IsLocalCase (application_of app.now)
        (state_of K.seen work.old) viewer.now → AreLocalAnswers labels.now answers.old
        → OnOk result (Spends labels.now evaluations.old evaluations.new answers.old answers.new) }
    ensures most { IsTold K.seen work.new → IsLocalCase (application_of app.now)
        (state_of K.seen work.old) viewer.now → AreLocalAnswers labels.now answers.old
        → evaluations.new ≤ evaluations.old + room labels.now answers.old }
    ensures later { evaluations.old ≤ evaluations.new }
    ensures reads { ReadsWork K.seen work.old work.new result }
{
    let mut added = false;
    'labels: for label in labels {
        let one = try_label(work, app, viewer, *label, a, answers, evaluations)?;
        added = added | one;
    }
    Ok(added)
}

// Adds the label if it isn't shown and if all shown labels are allowed once it is. Returns whether
// it was added.
fn try_label<K: Keeper, M: Ledger>(
    work: &mut Work<'_, K>,
    app: &App,
    viewer: &Option<Id>,
    label: Label,
    a: &mut Assignment,
    answers: &mut PolicyMemo,
    evaluations: &mut Steps<M>,
) -> Result<bool, Stop>
    requires attached { IsTrue (K.seen work.old.keeper.now).store.attached }
    ensures grows { IfOk result (MayAdd label a.old a.new) }
    ensures grown { OnOk result (Grown answers.old answers.new) }
    ensures tries { IsTold K.seen work.new → IsUnderway
        (application_of app.now) (worlds_of (state_of K.seen work.old)) viewer.now a.old answers.old
        → IfOk result (Tries (application_of app.now)
        (worlds_of (state_of K.seen work.old)) viewer.now answers.new label a.old a.new) }
    ensures underway { IsTold K.seen work.new → IsUnderway
        (application_of app.now) (worlds_of (state_of K.seen work.old)) viewer.now a.old answers.old
        → OnOk result (IsUnderway (application_of app.now)
        (worlds_of (state_of K.seen work.old)) viewer.now a.new answers.new) }
    ensures spends { IsTold K.seen work.new
        → IsLocalCase (application_of app.now) (state_of K.seen work.old) viewer.now
        → (labels : List ℕ) → shown_by labels label ≡ true → AreLocalAnswers labels answers.old
        → OnOk result (Spends labels evaluations.old evaluations.new answers.old answers.new) }
    ensures most { IsTold K.seen work.new → IsLocalCase (application_of app.now)
        (state_of K.seen work.old) viewer.now → (labels : List ℕ) → shown_by labels label ≡ true
        → AreLocalAnswers labels answers.old → evaluations.new
        ≤ evaluations.old + room labels answers.old }
    ensures later { evaluations.old ≤ evaluations.new }
    ensures reads { ReadsWork K.seen work.old work.new result }
{
    if a.shows(label) {
        return Ok(false);
    }
    if answers.refuses(a, label) {
        return Ok(false);
    }
    a.add(label)?;
    let stay = may_stay(work, app, viewer, a, label, answers, evaluations)?;
    if !stay {
        a.remove(label);
        return Ok(false);
    }
    Ok(true)
}

// Whether the added label and the labels that watch it are allowed under the assignment. No result
// of another label depends on the added one.
fn may_stay<K: Keeper, M: Ledger>(
    work: &mut Work<'_, K>,
    app: &App,
    viewer: &Option<Id>,
    a: &Assignment,
    label: Label,
    answers: &mut PolicyMemo,
    evaluations: &mut Steps<M>,
) -> Result<bool, Stop>
    requires attached { IsTrue (K.seen work.old.keeper.now).store.attached }
    requires own { shown_by a.now label ≡ true }
    ensures value { IsTold K.seen work.new → AreRight (application_of app.now)
        (worlds_of (state_of K.seen work.old)) viewer.now answers.old → IfOk result (Stays
        (application_of app.now) (worlds_of (state_of K.seen work.old)) viewer.now answers.new
        (shown_by a.now) (is_affected answers.old label)) }
    ensures fits { IfOk result (Fitting answers.new (shown_by a.now)
        (is_affected answers.old label)) }
    ensures right { IsTold K.seen work.new → AreRight (application_of app.now)
        (worlds_of (state_of K.seen work.old)) viewer.now answers.old → OnOk result (AreRight
        (application_of app.now) (worlds_of (state_of K.seen work.old)) viewer.now answers.new) }
    ensures grown { OnOk result (Grown answers.old answers.new) }
    ensures spends { IsTold K.seen work.new
        → IsLocalCase (application_of app.now) (state_of K.seen work.old) viewer.now
        → (labels : List ℕ) → shown_by labels label ≡ true → AreLocalAnswers labels answers.old
        → OnOk result (Spends labels evaluations.old evaluations.new answers.old answers.new) }
    ensures most { IsTold K.seen work.new → IsLocalCase (application_of app.now)
        (state_of K.seen work.old) viewer.now → (labels : List ℕ) → shown_by labels label ≡ true
        → AreLocalAnswers labels answers.old → evaluations.new
        ≤ evaluations.old + room labels answers.old }
    ensures later { evaluations.old ≤ evaluations.new }
    ensures reads { ReadsWork K.seen work.old work.new result }
{
    // Most labels fail by their own policy, so it is evaluated first.
    let own = asked_stays(work, app, viewer, a, label, answers, evaluations)?;
    if !own {
        return Ok(false);
    }
    let watchers = answers.watchers(work.alloc, label)?;
    let stay = watchers_stay(
        work,
        app,
        viewer,
        a,
        watchers.as_slice(),
        answers,
        evaluations,
    )?;
    Ok(stay)
}

// Whether all of these labels that the assignment shows are allowed under it.
fn watchers_stay<K: Keeper, M: Ledger>(
    work: &mut Work<'_, K>,
    app: &App,
    viewer: &Option<Id>,
    a: &Assignment,
    watchers: &[Label],
    answers: &mut PolicyMemo,
    evaluations: &mut Steps<M>,
) -> Result<bool, Stop>
    requires attached { IsTrue (K.seen work.old.keeper.now).store.attached }
    ensures value { IsTold K.seen work.new → AreRight
        (application_of app.now) (worlds_of (state_of K.seen work.old)) viewer.now answers.old
        → IfOk result (Stays (application_of app.now) (worlds_of
        (state_of K.seen work.old)) viewer.now answers.new (shown_by a.now)
        (shown_by watchers.now)) }
    ensures fits { IfOk result (Fitting answers.new (shown_by a.now) (shown_by watchers.now)) }
    ensures right { IsTold K.seen work.new → AreRight (application_of app.now)
        (worlds_of (state_of K.seen work.old)) viewer.now answers.old → OnOk result (AreRight
        (application_of app.now) (worlds_of (state_of K.seen work.old)) viewer.now answers.new) }
    ensures grown { OnOk result (Grown answers.old answers.new) }
    ensures spends { IsTold K.seen work.new
        → IsLocalCase (application_of app.now) (state_of K.seen work.old) viewer.now
        → (labels : List ℕ) → ((j : ℕ) → shown_by watchers.now j ≡ true → shown_by labels j ≡ true)
        → AreLocalAnswers labels answers.old
        → OnOk result (Spends labels evaluations.old evaluations.new answers.old answers.new) }
    ensures most { IsTold K.seen work.new
        → IsLocalCase (application_of app.now) (state_of K.seen work.old) viewer.now
        → (labels : List ℕ) → ((j : ℕ) → shown_by watchers.now j ≡ true → shown_by labels j ≡ true)
        → AreLocalAnswers labels answers.old → evaluations.new
        ≤ evaluations.old + room labels answers.old }
    ensures later { evaluations.old ≤ evaluations.new }
    ensures reads { ReadsWork K.seen work.old work.new result }
{
    'watchers: for watcher in watchers {
        let stays = watcher_stays(work, app, viewer, a, *watcher, answers, evaluations)?;
        if !stays {
            return Ok(false);
        }
    }
    Ok(true)
}

// The same for one label.
fn watcher_stays<K: Keeper, M: Ledger>(
    work: &mut Work<'_, K>,
    app: &App,
    viewer: &Option<Id>,
    a: &Assignment,
    label: Label,
    answers: &mut PolicyMemo,
    evaluations: &mut Steps<M>,
) -> Result<bool, Stop>
    requires attached { IsTrue (K.seen work.old.keeper.now).store.attached }
    ensures value { IsTold K.seen work.new → AreRight
        (application_of app.now) (worlds_of (state_of K.seen work.old)) viewer.now answers.old
        → IfOk result (Stays (application_of app.now) (worlds_of
        (state_of K.seen work.old)) viewer.now answers.new (shown_by a.now) (λ j. label == j)) }
    ensures fits { IfOk result (Fitting answers.new (shown_by a.now) (λ j. label == j)) }
    ensures right { IsTold K.seen work.new → AreRight (application_of app.now)
        (worlds_of (state_of K.seen work.old)) viewer.now answers.old → OnOk result (AreRight
        (application_of app.now) (worlds_of (state_of K.seen work.old)) viewer.now answers.new) }
    ensures grown { OnOk result (Grown answers.old answers.new) }
    ensures spends { IsTold K.seen work.new
        → IsLocalCase (application_of app.now) (state_of K.seen work.old) viewer.now
        → (labels : List ℕ) → shown_by labels label ≡ true → AreLocalAnswers labels answers.old
        → OnOk result (Spends labels evaluations.old evaluations.new answers.old answers.new) }
    ensures most { IsTold K.seen work.new → IsLocalCase (application_of app.now)
        (state_of K.seen work.old) viewer.now → (labels : List ℕ) → shown_by labels label ≡ true
        → AreLocalAnswers labels answers.old → evaluations.new
        ≤ evaluations.old + room labels answers.old }
    ensures later { evaluations.old ≤ evaluations.new }
    ensures reads { ReadsWork K.seen work.old work.new result }
{
    if !a.shows(label) {
        return Ok(true);
    }
    let stays = asked_stays(work, app, viewer, a, label, answers, evaluations)?;
    Ok(stays)
}

// The same for one label that the assignment shows.
fn asked_stays<K: Keeper, M: Ledger>(
    work: &mut Work<'_, K>,
    app: &App,
    viewer: &Option<Id>,
    a: &Assignment,
    label: Label,
    answers: &mut PolicyMemo,
    evaluations: &mut Steps<M>,
) -> Result<bool, Stop>
    requires attached { IsTrue (K.seen work.old.keeper.now).store.attached }
    requires own { shown_by a.now label ≡ true }
    ensures value { IsTold K.seen work.new → AreRight
        (application_of app.now) (worlds_of (state_of K.seen work.old)) viewer.now answers.old
        → IfOk result (Stays (application_of app.now) (worlds_of
        (state_of K.seen work.old)) viewer.now answers.new (shown_by a.now) (λ j. label == j)) }
    ensures fits { IfOk result (Fitting answers.new (shown_by a.now) (λ j. label == j)) }
    ensures right { IsTold K.seen work.new → AreRight (application_of app.now)
        (worlds_of (state_of K.seen work.old)) viewer.now answers.old → OnOk result (AreRight
        (application_of app.now) (worlds_of (state_of K.seen work.old)) viewer.now answers.new) }
    ensures grown { OnOk result (Grown answers.old answers.new) }
    ensures spends { IsTold K.seen work.new
        → IsLocalCase (application_of app.now) (state_of K.seen work.old) viewer.now
        → (labels : List ℕ) → shown_by labels label ≡ true → AreLocalAnswers labels answers.old
        → OnOk result (Spends labels evaluations.old evaluations.new answers.old answers.new) }
    ensures most { IsTold K.seen work.new → IsLocalCase (application_of app.now)
        (state_of K.seen work.old) viewer.now → (labels : List ℕ) → shown_by labels label ≡ true
        → AreLocalAnswers labels answers.old → evaluations.new
        ≤ evaluations.old + room labels answers.old }
    ensures later { evaluations.old ≤ evaluations.new }
    ensures reads { ReadsWork K.seen work.old work.new result }
{
    let holds = ask(work, app, viewer, a, label, answers, evaluations)?;
    Ok(holds)
}

// Whether the label is allowed under the assignment, which shows it. If there is no cached result,
// the policy is evaluated and its result cached.
fn ask<K: Keeper, M: Ledger>(
    work: &mut Work<'_, K>,
    app: &App,
    viewer: &Option<Id>,
    a: &Assignment,
    label: Label,
    answers: &mut PolicyMemo,
    evaluations: &mut Steps<M>,
) -> Result<bool, Stop>
    requires attached { IsTrue (K.seen work.old.keeper.now).store.attached }
    requires own { shown_by a.now label ≡ true }
    ensures answer { IsTold K.seen work.new → AreRight
        (application_of app.now) (worlds_of (state_of K.seen work.old)) viewer.now answers.old
        → IfOk result (λ b. b ≡ is_allowed (application_of app.now)
        (worlds_of (state_of K.seen work.old) (shown_by a.now)) viewer.now label) }
    ensures fits { OnOk result (is_some (recall answers.new label (shown_by a.now)) ≡ true) }
    ensures right { IsTold K.seen work.new → AreRight (application_of app.now)
        (worlds_of (state_of K.seen work.old)) viewer.now answers.old → OnOk result (AreRight
        (application_of app.now) (worlds_of (state_of K.seen work.old)) viewer.now answers.new) }
    ensures grown { OnOk result (Grown answers.old answers.new) }
    ensures spends { IsTold K.seen work.new
        → IsLocalCase (application_of app.now) (state_of K.seen work.old) viewer.now
        → (labels : List ℕ) → shown_by labels label ≡ true → AreLocalAnswers labels answers.old
        → OnOk result (Spends labels evaluations.old evaluations.new answers.old answers.new) }
    ensures most { IsTold K.seen work.new → IsLocalCase (application_of app.now)
        (state_of K.seen work.old) viewer.now → (labels : List ℕ) → shown_by labels label ≡ true
        → AreLocalAnswers labels answers.old → evaluations.new
        ≤ evaluations.old + room labels answers.old }
    ensures later { evaluations.old ≤ evaluations.new }
    ensures reads { ReadsWork K.seen work.old work.new result }
{
    match answers.recalled(a, label) {
        Some(holds) => Ok(holds),
        None => {
            let known = evaluate(work, app, viewer, a, label, evaluations)?;
            let holds = known.holds;
            remember(answers, work.alloc, label, known)?;
            Ok(holds)
        }
    }
}

// The result of the label's policy under the assignment, with a guard of the labels that were
// consulted.
fn evaluate<K: Keeper, M: Ledger>(
    work: &mut Work<'_, K>,
    app: &App,
    viewer: &Option<Id>,
    a: &Assignment,
    label: Label,
    evaluations: &mut Steps<M>,
) -> Result<MemoEntry, Stop>
    requires attached { IsTrue (K.seen work.old.keeper.now).store.attached }
    ensures right { IsTold K.seen work.new → IfOk result
        (IsRight (application_of app.now) (worlds_of (state_of K.seen work.old)) viewer.now label) }
    ensures fits { IfOk result (λ known. holds (shown_by a.now) known.when ≡ true) }
    ensures own { IsTold K.seen work.new
        → IsLocalCase (application_of app.now) (state_of K.seen work.old) viewer.now → IfOk result
        (λ known. (k : ℕ) → names known.when k ≡ true → record_of_label k ≡ record_of_label label) }
    ensures once { evaluations.new ≤ evaluations.old + 1 }
    ensures later { evaluations.old ≤ evaluations.new }
    ensures reads { ReadsWork K.seen work.old work.new result }
{
    let (holds, consulted) = allowed(work, app, *viewer, a, label, evaluations)?;
    let when = signs(work.alloc, consulted.as_slice(), a)?;
    Ok(MemoEntry { when, holds })
}
