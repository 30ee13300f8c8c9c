//! Settling a viewer's cache again after a change.
ghost use Rattle.std.specs.Prelude.{◌≡◌, ◌≤◌, ◌&&◌, ℕ, true, not, is_some, None, Some, IfOk, OnOk, IsTrue};
ghost use Rattle.std.specs.List.{list_all};
ghost use Rattle.jac_world.specs.World.{shown_by};
ghost use Rattle.jac_lang.specs.Mirror.{application_of};
ghost use Rattle.jac_keep.specs.WorkState.{state_of, IsTold, ReadsWork};
ghost use Rattle.jac_plain.specs.Policies.{IsSettled};
ghost use Rattle.jac_resolve.specs.RightMemo.{AreRefused, IsUnderway, Retains};
ghost use Rattle.jac_resolve.specs.Room.{IsEmptyMemo};
ghost use Rattle.jac_resolve.specs.Rounds.{AreFewEvaluations, HasSoundTables, Within};
ghost use Rattle.jac_resolve.specs.ValidCache.{AreNear, AreNearIf, IsAtRest, IsValidCache, IsSettledApart, TriesApart, Widens, cache_labels};
ghost use Rattle.jac_plain.specs.Shown.{worlds_of};

use crate::live::{live_labels, live_of};
use crate::pass::{settle_among, try_labels};
use jac_keep::{Keeper, Stop, Work};
use jac_lang::App;
use jac_policy_cache::{Labels, PolicyMemo, ViewerCache};
use jac_value::{Id, Memory};
use jac_world::{Assignment, Label, Steps};
use std::alloc::Global;
use std::sync::ledger::Ledger;

/// The labels that the viewer is shown, as `resolve` would settle them. If the cache has no labels,
/// all live labels are tried, without cached results at the beginning. If it has labels and none is
/// stale, the result is these labels, and no policy is evaluated. Otherwise the labels that are
/// linked to the stale ones are tried, or all live labels if those are many. A cached result isn't
/// computed again.
pub fn settle_cache<K: Keeper, M: Ledger>(
    work: &mut Work<'_, K>,
    app: &App,
    viewer: &Option<Id>,
    cache: &mut ViewerCache,
    evaluations: &mut Steps<M>,
) -> Result<Assignment, Stop>
    requires attached { IsTrue (K.seen work.old.keeper.now).store.attached }
    requires sound { IsTold K.seen work.old → HasSoundTables (state_of K.seen work.old) }
    requires valid { IsTold K.seen work.old →
        IsValidCache (application_of app.now)
        (worlds_of (state_of K.seen work.old)) viewer.now cache.old }
    ensures settled { IsTold K.seen work.new →
        IfOk result (IsSettled (application_of app.now) (worlds_of (state_of K.seen work.old))
        viewer.now) }
    ensures valid { IsTold K.seen work.new →
        OnOk result (IsValidCache (application_of app.now) (worlds_of (state_of K.seen work.old))
        viewer.now cache.new) }
    ensures bounded { IsTold K.seen work.new → cache.old.labels ≡ None →
        AreFewEvaluations (application_of app.now) (state_of K.seen work.old) viewer.now
        evaluations.old evaluations.new }
    ensures later { evaluations.old ≤ evaluations.new }
    ensures reads { ReadsWork K.seen work.old work.new result }
{
    settle_anew(work, app, viewer, cache, evaluations)?;
    let labels = copy_labels(work.alloc, cache)?;
    Ok(labels)
}

// The labels of the cache.
fn copy_labels(alloc: Global, cache: &ViewerCache) -> Result<Assignment, Memory>
    requires { is_some cache.now.labels ≡ true }
    ensures { IfOk result (λ a. cache.now.labels ≡ Some a) }
{
    match &cache.labels {
        Some(labels) => labels.copy(alloc),
        None => unreachable!(),
    }
}

// Settles the cache.
fn settle_anew<K: Keeper, M: Ledger>(
    work: &mut Work<'_, K>,
    app: &App,
    viewer: &Option<Id>,
    cache: &mut ViewerCache,
    evaluations: &mut Steps<M>,
) -> Result<(), Stop>
    requires attached { IsTrue (K.seen work.old.keeper.now).store.attached }
    requires sound { IsTold K.seen work.old → HasSoundTables (state_of K.seen work.old) }
    requires valid { IsTold K.seen work.old →
        IsValidCache (application_of app.now)
        (worlds_of (state_of K.seen work.old)) viewer.now cache.old }
    ensures valid { IsTold K.seen work.new →
        OnOk result (IsValidCache (application_of app.now) (worlds_of (state_of K.seen work.old))
        viewer.now cache.new) }
    ensures rests { OnOk result (IsAtRest cache.new) }
    ensures bounded { IsTold K.seen work.new → cache.old.labels ≡ None →
        AreFewEvaluations (application_of app.now) (state_of K.seen work.old) viewer.now
        evaluations.old evaluations.new }
    ensures later { evaluations.old ≤ evaluations.new }
    ensures reads { ReadsWork K.seen work.old work.new result }
{
    match cache.labels {
        None => settle_first(work, app, viewer, cache, evaluations),
        Some(_) => settle_again(work, app, viewer, cache, evaluations),
    }
}

// Settles the cache for the first time. All live labels are tried, without cached results at the
// beginning.
fn settle_first<K: Keeper, M: Ledger>(
    work: &mut Work<'_, K>,
    app: &App,
    viewer: &Option<Id>,
    cache: &mut ViewerCache,
    evaluations: &mut Steps<M>,
) -> Result<(), Stop>
    requires attached { IsTrue (K.seen work.old.keeper.now).store.attached }
    requires sound { IsTold K.seen work.old → HasSoundTables (state_of K.seen work.old) }
    requires unsettled { cache.old.labels ≡ None }
    ensures valid { IsTold K.seen work.new →
        OnOk result (IsValidCache (application_of app.now) (worlds_of (state_of K.seen work.old))
        viewer.now cache.new) }
    ensures rests { OnOk result (IsAtRest cache.new) }
    ensures bounded { IsTold K.seen work.new →
        AreFewEvaluations (application_of app.now) (state_of K.seen work.old) viewer.now
        evaluations.old evaluations.new }
    ensures later { evaluations.old ≤ evaluations.new }
    ensures reads { ReadsWork K.seen work.old work.new result }
{
    forget_answers(work.alloc, cache);
    settle_all(work, app, viewer, cache, evaluations)
}

// Forgets all results.
fn forget_answers(alloc: Global, cache: &mut ViewerCache)
    ensures empty { IsEmptyMemo cache.new.answers }
    ensures labels { cache.new.labels ≡ cache.old.labels }
{
    cache.answers = PolicyMemo::empty(alloc);
}

// Settles a cache again, unless it is at rest.
fn settle_again<K: Keeper, M: Ledger>(
    work: &mut Work<'_, K>,
    app: &App,
    viewer: &Option<Id>,
    cache: &mut ViewerCache,
    evaluations: &mut Steps<M>,
) -> Result<(), Stop>
    requires attached { IsTrue (K.seen work.old.keeper.now).store.attached }
    requires sound { IsTold K.seen work.old → HasSoundTables (state_of K.seen work.old) }
    requires valid { IsTold K.seen work.old →
        IsValidCache (application_of app.now)
        (worlds_of (state_of K.seen work.old)) viewer.now cache.old }
    ensures valid { IsTold K.seen work.new →
        OnOk result (IsValidCache (application_of app.now) (worlds_of (state_of K.seen work.old))
        viewer.now cache.new) }
    ensures rests { OnOk result (IsAtRest cache.new) }
    ensures later { evaluations.old ≤ evaluations.new }
    ensures reads { ReadsWork K.seen work.old work.new result }
{
    if is_at_rest(cache) {
        return Ok(());
    }
    let settled = settle_few(work, app, viewer, cache, evaluations)?;
    if settled {
        return Ok(());
    }
    settle_all(work, app, viewer, cache, evaluations)?;
    Ok(())
}

fn is_at_rest(cache: &ViewerCache) -> bool
    ensures { result ≡ true → IsAtRest cache.now }
{
    cache.labels.is_some() && cache.stale.as_slice().is_empty()
}

// How many times the labels to try may turn out to be linked to others.
const WIDENINGS: u8 = 8;

// Tries only the labels that are linked to stale ones. If new results link them to other labels,
// tries again with these too, as if they were stale. Returns whether the cache was settled. It
// wasn't if there are too many such labels.
fn settle_few<K: Keeper, M: Ledger>(
    work: &mut Work<'_, K>,
    app: &App,
    viewer: &Option<Id>,
    cache: &mut ViewerCache,
    evaluations: &mut Steps<M>,
) -> Result<bool, Stop>
    requires attached { IsTrue (K.seen work.old.keeper.now).store.attached }
    requires valid { IsTold K.seen work.old →
        IsValidCache (application_of app.now)
        (worlds_of (state_of K.seen work.old)) viewer.now cache.old }
    ensures valid { IsTold K.seen work.new →
        OnOk result (IsValidCache (application_of app.now) (worlds_of (state_of K.seen work.old))
        viewer.now cache.new) }
    ensures rests { IfOk result (λ b. b ≡ true → IsAtRest cache.new) }
    ensures apart { IsTold K.seen work.new →
        IfOk result (λ b. b ≡ true → IsSettledApart cache.old cache.new) }
    ensures later { evaluations.old ≤ evaluations.new }
    ensures reads { ReadsWork K.seen work.old work.new result }
{
    'widenings: for _ in 0..WIDENINGS {
        let Some(near) = near_stale(work.alloc, cache)? else {
            return Ok(false);
        };
        let settled = settle_near(work, app, viewer, &near, cache, evaluations)?;
        if settled {
            return Ok(true);
        }
    }
    Ok(false)
}

// The stale labels with all that they are linked to. `None` if these are too many, or if the cache
// has no labels.
fn near_stale(alloc: Global, cache: &ViewerCache) -> Result<Option<Labels>, Memory>
    ensures { IfOk result (AreNearIf cache.now) }
{
    if cache.labels.is_none() {
        return Ok(None);
    }
    cache
        .answers
        .linked(alloc, &cache.stale, few(&cache.answers))
}

// A quarter of the labels with cached results. Trying more labels costs as much as trying all.
fn few(answers: &PolicyMemo) -> usize {
    answers.len() / 4
}

// Tries only these labels. Returns whether no result links them to others. If one does, the others
// become stale together with these.
fn settle_near<K: Keeper, M: Ledger>(
    work: &mut Work<'_, K>,
    app: &App,
    viewer: &Option<Id>,
    near: &Labels,
    cache: &mut ViewerCache,
    evaluations: &mut Steps<M>,
) -> Result<bool, Stop>
    requires attached { IsTrue (K.seen work.old.keeper.now).store.attached }
    requires valid { IsTold K.seen work.old →
        IsValidCache (application_of app.now)
        (worlds_of (state_of K.seen work.old)) viewer.now cache.old }
    requires near { AreNear cache.old near.now }
    ensures valid { IsTold K.seen work.new →
        OnOk result (IsValidCache (application_of app.now) (worlds_of (state_of K.seen work.old))
        viewer.now cache.new) }
    ensures rests { IfOk result (λ b. b ≡ true → IsAtRest cache.new) }
    ensures apart { IsTold K.seen work.new → IfOk result (TriesApart cache.old cache.new) }
    ensures later { evaluations.old ≤ evaluations.new }
    ensures reads { ReadsWork K.seen work.old work.new result }
{
    let tried = live_of(work, app, near.as_slice())?;
    let mut rest = copy_labels(work.alloc, cache)?;
    remove_all(&mut rest, near.as_slice());
    put_labels(cache, rest, Labels::empty(work.alloc));
    let labels = fill(work, app, viewer, tried.as_slice(), cache, evaluations)?;
    match widened(work.alloc, &cache.answers, near)? {
        Some(stale) => {
            put_labels(cache, labels, stale);
            Ok(false)
        }
        None => {
            put_labels(cache, labels, Labels::empty(work.alloc));
            Ok(true)
        }
    }
}

// The labels of the cache, and the labels among `tried` that can be added. They are tried in their
// order, in rounds, until a round adds none.
fn fill<K: Keeper, M: Ledger>(
    work: &mut Work<'_, K>,
    app: &App,
    viewer: &Option<Id>,
    tried: &[Label],
    cache: &mut ViewerCache,
    evaluations: &mut Steps<M>,
) -> Result<Assignment, Stop>
    requires attached { IsTrue (K.seen work.old.keeper.now).store.attached }
    requires settled { is_some cache.old.labels ≡ true }
    requires underway { IsTold K.seen work.old →
        IsUnderway (application_of app.now) (worlds_of (state_of K.seen work.old)) viewer.now
        (cache_labels cache.old.labels) cache.old.answers }
    ensures within { IfOk result (Within tried.now (cache_labels cache.old.labels)) }
    ensures retains { IfOk result
        (λ a. Retains (cache_labels cache.old.labels) a cache.old.answers cache.new.answers) }
    ensures underway { IsTold K.seen work.new →
        IfOk result (λ a. IsUnderway (application_of app.now) (worlds_of (state_of K.seen work.old))
        viewer.now a cache.new.answers) }
    ensures refused { IsTold K.seen work.new →
        IfOk result (AreRefused (application_of app.now) (worlds_of (state_of K.seen work.old))
        viewer.now cache.new.answers tried.now) }
    ensures later { evaluations.old ≤ evaluations.new }
    ensures reads { ReadsWork K.seen work.old work.new result }
{
    let mut labels = copy_labels(work.alloc, cache)?;
    'rounds: loop {
        let added = try_labels(
            work,
            app,
            viewer,
            tried,
            &mut labels,
            &mut cache.answers,
            evaluations,
        )?;
        if !added {
            return Ok(labels);
        }
    }
}

fn remove_all(a: &mut Assignment, labels: &[Label])
    ensures { (k : ℕ) → shown_by a.new k ≡ (not (shown_by labels.now k) && shown_by a.old k) }
{
    'labels: for label in labels {
        a.remove(*label);
    }
}

// The labels with all that they are linked to. `None` if there are no others.
fn widened(alloc: Global, answers: &PolicyMemo, near: &Labels) -> Result<Option<Labels>, Memory>
    ensures { IfOk result (Widens answers.now near.now) }
{
    let Some(all) = answers.linked(alloc, near, few(answers))? else {
        let same = near.copy(alloc)?;
        return Ok(Some(same));
    };
    if has_all(near, all.as_slice()) {
        return Ok(None);
    }
    Ok(Some(all))
}

fn has_all(among: &Labels, labels: &[Label]) -> bool
    ensures { result ≡ list_all (shown_by among.now) labels.now }
{
    labels.iter().all(|label| among.has(*label))
}

// Tries all live labels, with the cached results.
fn settle_all<K: Keeper, M: Ledger>(
    work: &mut Work<'_, K>,
    app: &App,
    viewer: &Option<Id>,
    cache: &mut ViewerCache,
    evaluations: &mut Steps<M>,
) -> Result<(), Stop>
    requires attached { IsTrue (K.seen work.old.keeper.now).store.attached }
    requires sound { IsTold K.seen work.old → HasSoundTables (state_of K.seen work.old) }
    requires valid { IsTold K.seen work.old →
        IsValidCache (application_of app.now)
        (worlds_of (state_of K.seen work.old)) viewer.now cache.old }
    ensures valid { IsTold K.seen work.new →
        OnOk result (IsValidCache (application_of app.now) (worlds_of (state_of K.seen work.old))
        viewer.now cache.new) }
    ensures rests { OnOk result (IsAtRest cache.new) }
    ensures few { IsTold K.seen work.new → IsEmptyMemo cache.old.answers →
        AreFewEvaluations (application_of app.now) (state_of K.seen work.old) viewer.now
        evaluations.old evaluations.new }
    ensures later { evaluations.old ≤ evaluations.new }
    ensures reads { ReadsWork K.seen work.old work.new result }
{
    let live = live_labels(work, app)?;
    let labels = settle_among(
        work,
        app,
        viewer,
        live.as_slice(),
        &mut cache.answers,
        evaluations,
    )?;
    put_labels(cache, labels, Labels::empty(work.alloc));
    Ok(())
}

// Sets the labels and the stale labels of the cache.
fn put_labels(cache: &mut ViewerCache, labels: Assignment, stale: Labels)
    ensures { cache.new ≡ record {
      labels = Some labels;
      answers = cache.old.answers;
      stale = stale;
    } }
{
    cache.labels = Some(labels);
    cache.stale = stale;
}
