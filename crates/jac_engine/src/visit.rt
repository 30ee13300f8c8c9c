//! One run of a view over a keeper, and the labels under which its page is made.
ghost use Rattle.std.specs.Prelude.{◌≡◌, ◌<◌, ◌≤◌, ◌+◌, ◌^◌, true, length, slice_get, IfOk, OnOk, IsErrOf, IsTrue, None, Some};
ghost use Rattle.jac_io.specs.Faults.{Rose};
ghost use Rattle.jac_keep.specs.KeeperSeen.{IsLeft};
ghost use Rattle.jac_keep.specs.ChangedState.{changed_state};
ghost use Rattle.jac_keep.specs.WorkState.{state_of, IsTold, ReadsWork, WritesWork};
ghost use Rattle.jac_lang.specs.Mirror.{page_of_view as view_of, statements_of};
ghost use Rattle.jac_rows.specs.Good.{IsSound};
ghost use Rattle.jac_stmt.specs.Runs.{AreRunnable};
ghost use Rattle.jac_write.specs.Writes.{StaysTold};
ghost use Rattle.jac_plain.specs.Policies.{IsSettled};
ghost use Rattle.jac_plain.specs.Reading.{are_reading};
ghost use Rattle.jac_resolve.specs.Rounds.{AreFewEvaluations};
ghost use Rattle.jac_resolve.specs.ValidCache.{IsValidCache};
ghost use Rattle.jac_engine.specs.Prepared.{AreCovered, AsksFewOver};
ghost use Rattle.jac_engine.specs.Visits.{app_of, found_view, request_at, viewer_at, visit_at};
ghost use Rattle.jac_lazy.specs.Steady.{IsPageOf, IsSteady};
ghost use Rattle.jac_engine.specs.Views.{IsReady, SettlesView, ShowsView, LeavesTables, RunsView};
ghost use Rattle.jac_plain.specs.Shown.{worlds_of};
ghost use Rattle.jac_pruned_pages.specs.Runs.{IsPageMade};

use crate::lookup::Visited;
use crate::parameters::bind_alike;
use jac_expr::FacetedContext;
use jac_keep::{Change, Keeper, Stop, Work};
use jac_lazy::{LazyPage, page_lazily};
use jac_plain::{Ctx, Page};
use jac_policy_cache::{Invalidation, ViewerCache};
use jac_policy_deps::invalidation_of;
use jac_pruned_pages::run_body_at;
use jac_resolve::{cache_moves, settle_cache, settled_by_tables, valid_by_tables};
use jac_route::bind;
use jac_shown_rows::{Support, WorldContext};
use jac_stmt::{Frame, Out, exec, page_of};
use jac_world::{Assignment, Guard, Steps};
use std::alloc::Global;
use std::sync::ledger::Ledger;

/// A page, and the labels under which it was made.
#[derive(Drop)]
pub(crate) struct Labelled {
    pub(crate) page: Page,
    pub(crate) labels: Assignment,
}

/// A page, and what the change that comes with it may affect.
#[derive(Drop)]
pub(crate) struct PageWithInvalidation {
    pub(crate) shown: Labelled,
    pub(crate) invalidation: Invalidation,
}

/// A page, the change to store with it, and what the change may affect.
#[derive(Drop)]
pub(crate) struct Stored {
    pub(crate) shown: Labelled,
    pub(crate) change: Change,
    pub(crate) invalidation: Invalidation,
}

/// The page of a view that writes nothing, made in the one world that the cache's labels show.
/// Stale labels are settled first, on the stored state.
pub(crate) fn shown_page<K: Keeper, M: Ledger>(
    alloc: Global,
    keeper: &mut K,
    visited: &Visited<'_>,
    number: u64,
    cache: &mut ViewerCache,
    evaluations: &mut Steps<M>,
) -> Result<Labelled, Stop>
    requires attached { IsTrue (K.seen keeper.old).store.attached }
    requires reading { are_reading (statements_of visited.now.view.now.body) ≡ true }
    requires ready { IsTrue (K.seen keeper.old).tells → IsReady (app_of visited.now)
        (found_view visited.now) (request_at visited.now) number (K.seen keeper.old).state }
    requires valid { IsTrue (K.seen keeper.old).tells → IsValidCache (app_of visited.now)
        (worlds_of (K.seen keeper.old).state) (viewer_at visited.now) cache.old }
    ensures made { IfOk result (λ x. IsPageMade x.page) }
    ensures page { IsTrue (K.seen keeper.new).tells → IfOk result (λ x. ShowsView
        (app_of visited.now) (found_view visited.now) (request_at visited.now) number
        (K.seen keeper.old).state x.labels x.page) }
    ensures settled { IsTrue (K.seen keeper.new).tells → IfOk result (λ x. IsSettled
        (app_of visited.now) (worlds_of (K.seen keeper.old).state) (viewer_at visited.now)
        x.labels) }
    ensures valid { IsTrue (K.seen keeper.new).tells → OnOk result (IsValidCache
        (app_of visited.now) (worlds_of (K.seen keeper.old).state) (viewer_at visited.now)
        cache.new) }
    ensures bounded { IsTrue (K.seen keeper.new).tells → cache.old.labels ≡ None
        → OnOk result (AreFewEvaluations (app_of visited.now) (K.seen keeper.old).state
        (viewer_at visited.now) evaluations.old evaluations.new) }
    ensures left { IsLeft (K.seen keeper.old) (K.seen keeper.new) }
    ensures rose { IsErrOf result Stop.Keeper
        → Rose (K.seen keeper.old).faults (K.seen keeper.new).faults }
{
    let mut work = Work::new(alloc, keeper);
    let shown = show_view(&mut work, visited, number, cache, evaluations)?;
    Ok(shown)
}

/// The page of a view that writes nothing. Of the labels in the keeper's state, only those are
/// resolved that the page and their policies consult.
pub(crate) fn shown_lazily<K: Keeper, M: Ledger>(
    alloc: Global,
    keeper: &mut K,
    visited: &Visited<'_>,
    number: u64,
    evaluations: &mut Steps<M>,
) -> Result<LazyPage, Stop>
    requires attached { IsTrue (K.seen keeper.old).store.attached }
    requires within { visited.now.place < length visited.now.app.now.views }
    requires view { slice_get (app_of visited.now).views visited.now.place
        ≡ Some (view_of visited.now.view.now) }
    requires reading { are_reading (statements_of visited.now.view.now.body) ≡ true }
    requires number { IsTrue (K.seen keeper.old).tells → number ≡ (K.seen keeper.old).state.number }
    ensures steady { IsTrue (K.seen keeper.new).tells
        → IfOk result (λ it. IsSteady (app_of visited.now)
        (worlds_of (K.seen keeper.old).state) visited.now.ask.now.viewer it.consulted it.shown) }
    ensures page { IsTrue (K.seen keeper.new).tells
        → IfOk result (λ it. IsPageOf (app_of visited.now)
        (worlds_of (K.seen keeper.old).state) it.consulted it.shown
        (visit_at visited.now) it.page) }
    ensures made { IfOk result (λ it. IsPageMade it.page) }
    ensures left { IsLeft (K.seen keeper.old) (K.seen keeper.new) }
    ensures rose { IsErrOf result Stop.Keeper
        → Rose (K.seen keeper.old).faults (K.seen keeper.new).faults }
{
    let mut work = Work::new(alloc, keeper);
    let shown = view_lazily(&mut work, visited, number, evaluations)?;
    Ok(shown)
}

// The same, over a work.
fn view_lazily<K: Keeper, M: Ledger>(
    work: &mut Work<'_, K>,
    visited: &Visited<'_>,
    number: u64,
    evaluations: &mut Steps<M>,
) -> Result<LazyPage, Stop>
    requires attached { IsTrue (K.seen work.old.keeper.now).store.attached }
    requires within { visited.now.place < length visited.now.app.now.views }
    requires view { slice_get (app_of visited.now).views visited.now.place
        ≡ Some (view_of visited.now.view.now) }
    requires reading { are_reading (statements_of visited.now.view.now.body) ≡ true }
    requires number { IsTold K.seen work.old → number ≡ (state_of K.seen work.old).number }
    ensures steady { IsTold K.seen work.new → IfOk result (λ it. IsSteady (app_of visited.now)
        (worlds_of (state_of K.seen work.old)) visited.now.ask.now.viewer it.consulted it.shown) }
    ensures page { IsTold K.seen work.new → IfOk result (λ it. IsPageOf (app_of visited.now)
        (worlds_of (state_of K.seen work.old)) it.consulted it.shown
        (visit_at visited.now) it.page) }
    ensures made { IfOk result (λ it. IsPageMade it.page) }
    ensures reads { ReadsWork K.seen work.old work.new result }
{
    let asked = &visited.ask.pairs;
    let env = bind(
        work.alloc,
        &visited.view.params,
        visited.app,
        visited.path,
        asked,
    )?;
    let ctx = Ctx {
        viewer: visited.ask.viewer,
        this: None,
        number,
        around: None,
    };
    let place = visited.place;
    let shown = page_lazily(work, visited.app, &ctx, place, &env, evaluations)?;
    Ok(shown)
}

// Settles the labels, and makes the page in the world that they show.
fn show_view<K: Keeper, M: Ledger>(
    work: &mut Work<'_, K>,
    visited: &Visited<'_>,
    number: u64,
    cache: &mut ViewerCache,
    evaluations: &mut Steps<M>,
) -> Result<Labelled, Stop>
    requires attached { IsTrue (K.seen work.old.keeper.now).store.attached }
    requires reading { are_reading (statements_of visited.now.view.now.body) ≡ true }
    requires ready { IsTold K.seen work.old → IsReady (app_of visited.now) (found_view visited.now)
        (request_at visited.now) number (state_of K.seen work.old) }
    requires valid { IsTold K.seen work.old → IsValidCache (app_of visited.now)
        (worlds_of (state_of K.seen work.old)) (viewer_at visited.now) cache.old }
    ensures made { IfOk result (λ x. IsPageMade x.page) }
    ensures page { IsTold K.seen work.new → IfOk result (λ x. ShowsView (app_of visited.now)
        (found_view visited.now) (request_at visited.now) number (state_of K.seen work.old)
        x.labels x.page) }
    ensures settled { IsTold K.seen work.new → IfOk result (λ x. IsSettled (app_of visited.now)
        (worlds_of (state_of K.seen work.old)) (viewer_at visited.now) x.labels) }
    ensures valid { IsTold K.seen work.new → OnOk result (IsValidCache (app_of visited.now)
        (worlds_of (state_of K.seen work.old)) (viewer_at visited.now) cache.new) }
    ensures bounded { IsTold K.seen work.new → cache.old.labels ≡ None
        → OnOk result (AreFewEvaluations (app_of visited.now) (state_of K.seen work.old)
        (viewer_at visited.now) evaluations.old evaluations.new) }
    ensures told { OnOk result (StaysTold K.seen work.old work.new) }
    ensures keeps { WritesWork K.seen work.old work.new result }
{
    let viewer = &visited.ask.viewer;
    let labels = settle_cache(work, visited.app, viewer, cache, evaluations)?;
    let page = page_under(work, visited, number, &labels)?;
    Ok(Labelled { page, labels })
}

// Makes the page in the world that the labels show.
fn page_under<K: Keeper>(
    work: &mut Work<'_, K>,
    visited: &Visited<'_>,
    number: u64,
    labels: &Assignment,
) -> Result<Page, Stop>
    requires attached { IsTrue (K.seen work.old.keeper.now).store.attached }
    requires reading { are_reading (statements_of visited.now.view.now.body) ≡ true }
    ensures made { IfOk result IsPageMade }
    ensures page { IsTold K.seen work.new → IfOk result (ShowsView (app_of visited.now)
        (found_view visited.now) (request_at visited.now) number (state_of K.seen work.old)
        labels.now) }
    ensures told { OnOk result (StaysTold K.seen work.old work.new) }
    ensures keeps { WritesWork K.seen work.old work.new result }
{
    let view = visited.view;
    let asked = &visited.ask.pairs;
    let env = bind(work.alloc, &view.params, visited.app, visited.path, asked)?;
    let ctx = context(visited, number);
    let mut support = Support::empty(work.alloc);
    let at = WorldContext {
        app: visited.app,
        ctx: &ctx,
        assignment: labels,
    };
    let page = run_body_at(work, &at, &view.body, env, &mut support)?;
    Ok(page)
}

// The context in which a view is run.
fn context(visited: &Visited<'_>, number: u64) -> Ctx
    ensures { result
        ≡ record { viewer = viewer_at visited.now; this = None; number = number; around = None } }
{
    Ctx {
        viewer: visited.ask.viewer,
        this: None,
        number,
        around: None,
    }
}

/// The page of the view under labels that are settled after its run, the change to store, and what
/// the change may affect. The viewer's cache is settled after the run too.
pub(crate) fn stored_page<K: Keeper, L: Ledger, M: Ledger>(
    alloc: Global,
    keeper: &mut K,
    visited: &Visited<'_>,
    number: u64,
    cache: &mut ViewerCache,
    splits: &mut Steps<L>,
    evaluations: &mut Steps<M>,
) -> Result<Stored, Stop>
    requires attached { IsTrue (K.seen keeper.old).store.attached }
    requires tables { IsTrue (K.seen keeper.old).tells
        → length visited.now.app.now.models ≤ length (K.seen keeper.old).state.tables }
    requires sound { IsTrue (K.seen keeper.old).tells → IsSound (K.seen keeper.old).state }
    requires few { number < 2 ^ 40 }
    requires runnable { AreRunnable number (statements_of visited.now.view.now.body) }
    requires ready { IsTrue (K.seen keeper.old).tells → IsReady (app_of visited.now)
        (found_view visited.now) (request_at visited.now) number (K.seen keeper.old).state }
    requires valid { IsTrue (K.seen keeper.old).tells → IsValidCache (app_of visited.now)
        (worlds_of (K.seen keeper.old).state) (viewer_at visited.now) cache.old }
    ensures made { IfOk result (λ x. IsPageMade x.shown.page) }
    ensures page { IsTrue (K.seen keeper.new).tells → IfOk result (λ x. ShowsView
        (app_of visited.now) (found_view visited.now) (request_at visited.now) number
        (K.seen keeper.old).state x.shown.labels x.shown.page) }
    ensures settles { IsTrue (K.seen keeper.new).tells → IfOk result (λ x. SettlesView
        (app_of visited.now) (viewer_at visited.now) (K.seen keeper.old).state
        (changed_state x.change (K.seen keeper.old).state).tables x.shown.labels cache.new
        x.invalidation) }
    ensures stored { IsTrue (K.seen keeper.new).tells → IfOk result (λ x. LeavesTables
        (app_of visited.now) (found_view visited.now) (request_at visited.now) number
        (K.seen keeper.old).state (changed_state x.change (K.seen keeper.old).state).tables) }
    ensures bounded { IsTrue (K.seen keeper.new).tells → IfOk result (λ x. AsksFewOver
        (app_of visited.now) (viewer_at visited.now) cache.old.labels evaluations.old
        evaluations.new (changed_state x.change (K.seen keeper.old).state).tables) }
    ensures number { IfOk result (λ x. x.change.number ≡ number + 1) }
    ensures left { IsLeft (K.seen keeper.old) (K.seen keeper.new) }
    ensures rose { IsErrOf result Stop.Keeper
        → Rose (K.seen keeper.old).faults (K.seen keeper.new).faults }
{
    let mut work = Work::new(alloc, keeper);
    let PageWithInvalidation {
        shown,
        invalidation,
    } = settle_view(&mut work, visited, number, cache, splits, evaluations)?;
    let change = work.into_change(number + 1)?;
    Ok(Stored {
        shown,
        change,
        invalidation,
    })
}

// The same over a work, in terms of its tables only.
fn settle_view<K: Keeper, L: Ledger, M: Ledger>(
    work: &mut Work<'_, K>,
    visited: &Visited<'_>,
    number: u64,
    cache: &mut ViewerCache,
    splits: &mut Steps<L>,
    evaluations: &mut Steps<M>,
) -> Result<PageWithInvalidation, Stop>
    requires attached { IsTrue (K.seen work.old.keeper.now).store.attached }
    requires tables { IsTrue (K.seen work.old.keeper.now).tells
        → length visited.now.app.now.models ≤ length (K.seen work.old.keeper.now).state.tables }
    requires sound { IsTrue (K.seen work.old.keeper.now).tells
        → IsSound (K.seen work.old.keeper.now).state }
    requires runnable { AreRunnable number (statements_of visited.now.view.now.body) }
    requires ready { IsTold K.seen work.old → IsReady (app_of visited.now) (found_view visited.now)
        (request_at visited.now) number (state_of K.seen work.old) }
    requires valid { IsTrue (K.seen work.old.keeper.now).tells → IsValidCache (app_of visited.now)
        (worlds_of (K.seen work.old.keeper.now).state) (viewer_at visited.now) cache.old }
    ensures made { IfOk result (λ x. IsPageMade x.shown.page) }
    ensures page { IsTold K.seen work.new → IfOk result (λ x. ShowsView (app_of visited.now)
        (found_view visited.now) (request_at visited.now) number (state_of K.seen work.old)
        x.shown.labels x.shown.page) }
    ensures settles { IsTold K.seen work.new → IfOk result (λ x. SettlesView (app_of visited.now)
        (viewer_at visited.now) (K.seen work.old.keeper.now).state (state_of K.seen work.new).tables
        x.shown.labels cache.new x.invalidation) }
    ensures stored { IsTold K.seen work.new → OnOk result (LeavesTables (app_of visited.now)
        (found_view visited.now) (request_at visited.now) number (state_of K.seen work.old)
        (state_of K.seen work.new).tables) }
    ensures bounded { IsTold K.seen work.new → OnOk result (AsksFewOver (app_of visited.now)
        (viewer_at visited.now) cache.old.labels evaluations.old evaluations.new
        (state_of K.seen work.new).tables) }
    ensures told { OnOk result (StaysTold K.seen work.old work.new) }
    ensures keeps { WritesWork K.seen work.old work.new result }
{
    settled_by_tables();
    valid_by_tables();
    let with_invalidation = store_view(work, visited, number, cache, splits, evaluations)?;
    Ok(with_invalidation)
}

// Runs the statements of the view, settles the labels on the result, and makes the page that these
// labels show.
fn store_view<K: Keeper, L: Ledger, M: Ledger>(
    work: &mut Work<'_, K>,
    visited: &Visited<'_>,
    number: u64,
    cache: &mut ViewerCache,
    splits: &mut Steps<L>,
    evaluations: &mut Steps<M>,
) -> Result<PageWithInvalidation, Stop>
    requires attached { IsTrue (K.seen work.old.keeper.now).store.attached }
    requires tables { IsTrue (K.seen work.old.keeper.now).tells
        → length visited.now.app.now.models ≤ length (K.seen work.old.keeper.now).state.tables }
    requires sound { IsTrue (K.seen work.old.keeper.now).tells
        → IsSound (K.seen work.old.keeper.now).state }
    requires runnable { AreRunnable number (statements_of visited.now.view.now.body) }
    requires ready { IsTold K.seen work.old → IsReady (app_of visited.now) (found_view visited.now)
        (request_at visited.now) number (state_of K.seen work.old) }
    requires valid { IsTrue (K.seen work.old.keeper.now).tells → IsValidCache (app_of visited.now)
        (worlds_of (K.seen work.old.keeper.now).state) (viewer_at visited.now) cache.old }
    ensures made { IfOk result (λ x. IsPageMade x.shown.page) }
    ensures page { IsTold K.seen work.new → IfOk result (λ x. ShowsView (app_of visited.now)
        (found_view visited.now) (request_at visited.now) number (state_of K.seen work.old)
        x.shown.labels x.shown.page) }
    ensures settled { IsTold K.seen work.new → IfOk result (λ x. IsSettled (app_of visited.now)
        (worlds_of (state_of K.seen work.new)) (viewer_at visited.now) x.shown.labels) }
    ensures valid { IsTold K.seen work.new → OnOk result (IsValidCache (app_of visited.now)
        (worlds_of (state_of K.seen work.new)) (viewer_at visited.now) cache.new) }
    ensures affected { IsTold K.seen work.new → IfOk result (λ x. AreCovered (app_of visited.now)
        (K.seen work.old.keeper.now).state (state_of K.seen work.new) x.invalidation) }
    ensures stored { IsTold K.seen work.new → OnOk result (LeavesTables (app_of visited.now)
        (found_view visited.now) (request_at visited.now) number (state_of K.seen work.old)
        (state_of K.seen work.new).tables) }
    ensures bounded { IsTold K.seen work.new → cache.old.labels ≡ None
        → OnOk result (AreFewEvaluations (app_of visited.now) (state_of K.seen work.new)
        (viewer_at visited.now) evaluations.old evaluations.new) }
    ensures told { OnOk result (StaysTold K.seen work.old work.new) }
    ensures keeps { WritesWork K.seen work.old work.new result }
{
    let pieces = run_body(work, visited, number, splits)?;
    let invalidation = invalidate_cache(work, visited, cache)?;
    let viewer = &visited.ask.viewer;
    let settled = settle_cache(work, visited.app, viewer, cache, evaluations)?;
    let page = page_of(work.alloc, pieces, &settled)?;
    Ok(PageWithInvalidation {
        shown: Labelled {
            page,
            labels: settled,
        },
        invalidation,
    })
}

// What the work may affect. It is invalidated in the viewer's cache.
fn invalidate_cache<K: Keeper>(
    work: &mut Work<'_, K>,
    visited: &Visited<'_>,
    cache: &mut ViewerCache,
) -> Result<Invalidation, Stop>
    requires attached { IsTrue (K.seen work.old.keeper.now).store.attached }
    requires sound { IsTrue (K.seen work.old.keeper.now).tells
        → IsSound (K.seen work.old.keeper.now).state }
    requires valid { IsTrue (K.seen work.old.keeper.now).tells → IsValidCache (app_of visited.now)
        (worlds_of (K.seen work.old.keeper.now).state) (viewer_at visited.now) cache.old }
    ensures valid { IsTold K.seen work.new → OnOk result (IsValidCache (app_of visited.now)
        (worlds_of (state_of K.seen work.old)) (viewer_at visited.now) cache.new) }
    ensures affected { IsTold K.seen work.new → IfOk result (AreCovered (app_of visited.now)
        (K.seen work.old.keeper.now).state (state_of K.seen work.old)) }
    ensures labels { OnOk result (cache.new.labels ≡ cache.old.labels) }
    ensures reads { ReadsWork K.seen work.old work.new result }
{
    cache_moves();
    let invalidation = invalidation_of(work, visited.app)?;
    cache.invalidate(work.alloc, &visited.ask.viewer, &invalidation)?;
    Ok(invalidation)
}

// Runs the statements of the view for all assignments at once.
fn run_body<K: Keeper, L: Ledger>(
    work: &mut Work<'_, K>,
    visited: &Visited<'_>,
    number: u64,
    splits: &mut Steps<L>,
) -> Result<Out, Stop>
    requires attached { IsTrue (K.seen work.old.keeper.now).store.attached }
    requires tables { IsTrue (K.seen work.old.keeper.now).tells
        → length visited.now.app.now.models ≤ length (K.seen work.old.keeper.now).state.tables }
    requires runnable { AreRunnable number (statements_of visited.now.view.now.body) }
    ensures runs { IsTold K.seen work.new → IfOk result (RunsView (app_of visited.now)
        (found_view visited.now) (request_at visited.now) number (state_of K.seen work.old)
        (state_of K.seen work.new).tables) }
    ensures told { OnOk result (StaysTold K.seen work.old work.new) }
    ensures keeps { WritesWork K.seen work.old work.new result }
{
    let view = visited.view;
    let asked = &visited.ask.pairs;
    let env = bind_alike(work.alloc, visited.app, view, visited.path, asked)?;
    let out = Out::empty(work.alloc);
    let mut frame = Frame { env, out };
    let ctx = context(visited, number);
    let everywhere = Guard::empty(work.alloc);
    let here = FacetedContext {
        app: visited.app,
        ctx: &ctx,
        pc: &everywhere,
    };
    exec(work, &here, &mut frame, &view.body, splits)?;
    let Frame { env: _, out } = frame;
    Ok(out)
}
