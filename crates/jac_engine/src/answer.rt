ghost use Rattle.std.specs.Prelude.{◌≡◌, ◌<◌, ◌≤◌, false, true, length, slice_get, Ok, IfOk, IsNone, OnOk, OnErr, IfSome, IsTrue, Some, None};
ghost use Rattle.jac_lang.specs.Mirror.{application_of, page_of_view, statements_of};
ghost use Rattle.jac_lang.specs.declared.pages.Verb.TheVariants as verbs;
ghost use Rattle.jac_plain.specs.Requests.{method_in};
ghost use Rattle.jac_world.specs.World.{IsAscending};
ghost use Rattle.jac_keep.specs.Cause.{HasCause};
ghost use Rattle.jac_keep.specs.KeeperSeen.{Reads};
ghost use Rattle.jac_keep.specs.ChangedState.{changed_state};
ghost use Rattle.jac_rows.specs.Good.{IsSound};
ghost use Rattle.jac_route.specs.Found.{found, IsWithin};
ghost use Rattle.jac_route.specs.Routes.{AreRoutes};
ghost use Rattle.jac_engine.specs.Answers.{page_answer, lazy_answer, is_post, stores};
ghost use Rattle.jac_resolve.specs.ValidCache.{IsValidCache};
ghost use Rattle.jac_engine.specs.Prepared.{AsksFew, IsPrepared, IsInvalidationOf, KeepsCache, applied_if};
ghost use Rattle.jac_app_load.specs.Served.{are_served, is_served_body};
ghost use Rattle.jac_engine.specs.Start.{IsStart};
ghost use Rattle.jac_engine.specs.Visits.{app_of, visit_at, viewer_at};
ghost use Rattle.jac_engine.specs.Viewed.{IsPreparedBy, IsPreparedFor, IsShown};
ghost use Rattle.jac_plain.specs.Shown.{worlds_of};

use crate::lookup::{Visited, view_at};
use crate::refusal::{refuse, refuse_method};
use crate::visit::{Labelled, shown_lazily, shown_page, stored_page};
use jac_app_load::Service;
use jac_keep::{Change, Keeper, Stop};
use jac_lang::{App, Verb};
use jac_lazy::LazyPage;
use jac_plain::Page;
use jac_policy_cache::{Invalidation, ViewerCache};
use jac_replies::{Answer, Ask};
use jac_route::{Found, Routes, find};
use jac_value::Memory;
use jac_world::Steps;
use std::alloc::Global;
use std::sync::ledger::Ledger;

const LAST_NUMBER: u64 = 1 << 40;

/// An answer, and the change to store with it, if there is one.
#[derive(Drop)]
pub struct Prepared {
    pub answer: Answer,
    pub change: Option<Change>,
}

/// The prepared answer, the viewer's cache for the state after it, and what its change may affect,
/// if there is a change.
#[derive(Drop)]
pub struct PreparedWithCache {
    pub prepared: Prepared,
    pub cache: ViewerCache,
    pub invalidation: Option<Invalidation>,
}

/// How the labels of a page are found.
#[derive(Drop)]
pub struct Manner {
    /// For the page of a `GET`, only the labels are resolved that are consulted for it. The cache
    /// isn't used then, and doesn't change.
    pub lazy: bool,
    /// The cache of the viewer.
    pub cache: ViewerCache,
}

/// Answers the request on the contents of the keeper, and changes nothing. The labels of a page are
/// settled for the viewer: on the stored state for a GET, on the state after it for a POST. Stale
/// labels of the viewer's cache are settled again, and no policy with a cached result is evaluated.
/// If `lazy` is set, the labels of a GET's page are steady for the viewer instead, and only labels
/// are resolved that the page and their policies consult. Each evaluation of a policy counts in
/// `evaluations`.
pub fn prepare<K: Keeper, L: Ledger, M: Ledger>(
    alloc: Global,
    service: &Service,
    keeper: &mut K,
    ask: &Ask,
    manner: Manner,
    splits: &mut Steps<L>,
    evaluations: &mut Steps<M>,
) -> Result<PreparedWithCache, Stop>
    requires attached { IsTrue (K.seen keeper.old).store.attached }
    requires start { IsTrue (K.seen keeper.old).tells
        → IsStart (application_of service.now) (K.seen keeper.old).state }
    requires valid { IsTrue (K.seen keeper.old).tells
        → IsValidCache (application_of service.now) (worlds_of (K.seen keeper.old).state)
        ask.now.viewer manner.cache }
    ensures prepared { IfOk result (λ r. IsPrepared manner.lazy (K.seen keeper.new).tells
        (application_of service.now) (K.seen keeper.old).state ask.now r.prepared) }
    ensures keeps { IfOk result (KeepsCache (K.seen keeper.new).tells
        (application_of service.now) (K.seen keeper.old).state ask.now.viewer) }
    ensures bounded { IfOk result (λ r. AsksFew manner.lazy (K.seen keeper.new).tells
        (application_of service.now) (K.seen keeper.old).state ask.now.viewer
        manner.cache.labels evaluations.old evaluations.new r.prepared) }
    ensures unsplit { IfOk result (λ r. IsNone r.prepared.change → splits.new ≡ splits.old) }
    ensures reading { stores (application_of service.now) ask.now ≡ false
        → splits.new ≡ splits.old }
    ensures reads { Reads (K.seen keeper.old) (K.seen keeper.new) result }
{
    let _app = service.app();
    let valid = prepare_found(alloc, service, keeper, ask, manner, splits, evaluations)?;
    Ok(valid)
}

// The same, for what the request finds.
fn prepare_found<K: Keeper, L: Ledger, M: Ledger>(
    alloc: Global,
    service: &Service,
    keeper: &mut K,
    ask: &Ask,
    manner: Manner,
    splits: &mut Steps<L>,
    evaluations: &mut Steps<M>,
) -> Result<PreparedWithCache, Stop>
    requires attached { IsTrue (K.seen keeper.old).store.attached }
    requires start { IsTrue (K.seen keeper.old).tells
        → IsStart (application_of service.now) (K.seen keeper.old).state }
    requires valid { IsTrue (K.seen keeper.old).tells
        → IsValidCache (application_of service.now) (worlds_of (K.seen keeper.old).state)
        ask.now.viewer manner.cache }
    ensures prepared { IfOk result (λ r. IsPreparedFor manner.lazy
        (found (application_of service.now) ask.now.method ask.now.path) (K.seen keeper.new).tells
        (application_of service.now) (K.seen keeper.old).state ask.now r.prepared) }
    ensures keeps { IfOk result (KeepsCache (K.seen keeper.new).tells
        (application_of service.now) (K.seen keeper.old).state ask.now.viewer) }
    ensures bounded { IfOk result (λ r. AsksFew manner.lazy (K.seen keeper.new).tells
        (application_of service.now) (K.seen keeper.old).state ask.now.viewer
        manner.cache.labels evaluations.old evaluations.new r.prepared) }
    ensures unsplit { IfOk result (λ r. IsNone r.prepared.change → splits.new ≡ splits.old) }
    ensures reading { stores (application_of service.now) ask.now ≡ false
        → splits.new ≡ splits.old }
    ensures reads { Reads (K.seen keeper.old) (K.seen keeper.new) result }
{
    let app = service.app();
    let found = find_view(alloc, app, service.routes(), ask)?;
    match found {
        Found::View { view, pairs } => {
            let visited = Visited {
                app,
                ask,
                path: &pairs,
                place: view,
                view: view_at(app, view),
            };
            let valid = answer_view(alloc, keeper, &visited, manner, splits, evaluations)?;
            Ok(valid)
        }
        Found::NoRoute => {
            let prepared = refuse(alloc, 404, None)?;
            Ok(unmoved(prepared, manner.cache))
        }
        Found::WrongMethod(allow) => {
            let prepared = refuse_method(alloc, allow)?;
            Ok(unmoved(prepared, manner.cache))
        }
    }
}

// Nothing is stored, and the cache stays as it is.
fn unmoved(prepared: Prepared, cache: ViewerCache) -> PreparedWithCache
    ensures { result ≡ record { prepared = prepared; cache = cache; invalidation = None } }
{
    PreparedWithCache {
        prepared,
        cache,
        invalidation: None,
    }
}

// What the request finds. A view that is found is one of the application's.
fn find_view(alloc: Global, app: &App, routes: &Routes, ask: &Ask) -> Result<Found, Memory>
    requires routes { AreRoutes (application_of app.now) routes.now }
    ensures found { IfOk result (λ f.
        f ≡ found (application_of app.now) ask.now.method ask.now.path) }
    ensures within { IfOk result (λ f. IsWithin (length app.now.views) f) }
{
    find(alloc, routes, &ask.method, &ask.path)
}

fn answer_view<K: Keeper, L: Ledger, M: Ledger>(
    alloc: Global,
    keeper: &mut K,
    visited: &Visited<'_>,
    manner: Manner,
    splits: &mut Steps<L>,
    evaluations: &mut Steps<M>,
) -> Result<PreparedWithCache, Stop>
    requires attached { IsTrue (K.seen keeper.old).store.attached }
    requires served { are_served (app_of visited.now) ≡ true }
    requires few { length (app_of visited.now).models ≤ 64 }
    requires start { IsTrue (K.seen keeper.old).tells
        → IsStart (app_of visited.now) (K.seen keeper.old).state }
    requires within { visited.now.place < length visited.now.app.now.views }
    requires view { slice_get (app_of visited.now).views visited.now.place
        ≡ Some (page_of_view visited.now.view.now) }
    requires valid { IsTrue (K.seen keeper.old).tells → IsValidCache (app_of visited.now)
        (worlds_of (K.seen keeper.old).state) (viewer_at visited.now) manner.cache }
    ensures prepared { IfOk result (λ r. IsPreparedBy manner.lazy
        (method_in (slice_get (app_of visited.now).views visited.now.place))
        (K.seen keeper.new).tells (app_of visited.now) (K.seen keeper.old).state
        (visit_at visited.now) r.prepared) }
    ensures keeps { IfOk result (KeepsCache (K.seen keeper.new).tells (app_of visited.now)
        (K.seen keeper.old).state (viewer_at visited.now)) }
    ensures bounded { IfOk result (λ r. AsksFew manner.lazy (K.seen keeper.new).tells
        (app_of visited.now) (K.seen keeper.old).state (viewer_at visited.now)
        manner.cache.labels evaluations.old evaluations.new r.prepared) }
    ensures unsplit { IfOk result (λ r. IsNone r.prepared.change → splits.new ≡ splits.old) }
    ensures reading { is_post (method_in (slice_get (app_of visited.now).views visited.now.place))
        ≡ false → splits.new ≡ splits.old }
    ensures reads { Reads (K.seen keeper.old) (K.seen keeper.new) result }
{
    match visited.view.method {
        Verb::Get => {
            let valid = show_by(alloc, keeper, visited, manner, evaluations)?;
            Ok(valid)
        }
        Verb::Post => {
            let valid = store(alloc, keeper, visited, manner.cache, splits, evaluations)?;
            Ok(valid)
        }
    }
}

// The page of a view that only shows, in the given manner.
fn show_by<K: Keeper, M: Ledger>(
    alloc: Global,
    keeper: &mut K,
    visited: &Visited<'_>,
    manner: Manner,
    evaluations: &mut Steps<M>,
) -> Result<PreparedWithCache, Stop>
    requires attached { IsTrue (K.seen keeper.old).store.attached }
    requires start { IsTrue (K.seen keeper.old).tells
        → IsStart (app_of visited.now) (K.seen keeper.old).state }
    requires within { visited.now.place < length visited.now.app.now.views }
    requires view { slice_get (app_of visited.now).views visited.now.place
        ≡ Some (page_of_view visited.now.view.now) }
    requires served { is_served_body (app_of visited.now).models verbs.Get
        (statements_of visited.now.view.now.body) ≡ true }
    requires valid { IsTrue (K.seen keeper.old).tells → IsValidCache (app_of visited.now)
        (worlds_of (K.seen keeper.old).state) (viewer_at visited.now) manner.cache }
    ensures shown { IfOk result (λ r. IsShown manner.lazy (K.seen keeper.new).tells
        (app_of visited.now) (K.seen keeper.old).state (visit_at visited.now) r.prepared) }
    ensures keeps { IfOk result (KeepsCache (K.seen keeper.new).tells (app_of visited.now)
        (K.seen keeper.old).state (viewer_at visited.now)) }
    ensures bounded { IfOk result (λ r. AsksFew manner.lazy (K.seen keeper.new).tells
        (app_of visited.now) (K.seen keeper.old).state (viewer_at visited.now)
        manner.cache.labels evaluations.old evaluations.new r.prepared) }
    ensures reads { Reads (K.seen keeper.old) (K.seen keeper.new) result }
{
    let Manner { lazy, cache } = manner;
    if lazy {
        let prepared = show_lazily(alloc, keeper, visited, evaluations)?;
        return Ok(unmoved(prepared, cache));
    }
    show(alloc, keeper, visited, cache, evaluations)
}

// The page of a view that only shows, under the labels of the cache.
fn show<K: Keeper, M: Ledger>(
    alloc: Global,
    keeper: &mut K,
    visited: &Visited<'_>,
    cache: ViewerCache,
    evaluations: &mut Steps<M>,
) -> Result<PreparedWithCache, Stop>
    requires attached { IsTrue (K.seen keeper.old).store.attached }
    requires start { IsTrue (K.seen keeper.old).tells
        → IsStart (app_of visited.now) (K.seen keeper.old).state }
    requires view { slice_get (app_of visited.now).views visited.now.place
        ≡ Some (page_of_view visited.now.view.now) }
    requires served { is_served_body (app_of visited.now).models verbs.Get
        (statements_of visited.now.view.now.body) ≡ true }
    requires valid { IsTrue (K.seen keeper.old).tells → IsValidCache (app_of visited.now)
        (worlds_of (K.seen keeper.old).state) (viewer_at visited.now) cache }
    ensures shown { IfOk result (λ r. IsShown false (K.seen keeper.new).tells
        (app_of visited.now) (K.seen keeper.old).state (visit_at visited.now) r.prepared) }
    ensures keeps { IfOk result (KeepsCache (K.seen keeper.new).tells (app_of visited.now)
        (K.seen keeper.old).state (viewer_at visited.now)) }
    ensures bounded { IfOk result (λ r. AsksFew false (K.seen keeper.new).tells
        (app_of visited.now) (K.seen keeper.old).state (viewer_at visited.now)
        cache.labels evaluations.old evaluations.new r.prepared) }
    ensures reads { Reads (K.seen keeper.old) (K.seen keeper.new) result }
{
    let number = keeper.number()?;
    let mut cache = cache;
    let shown = shown_page(alloc, keeper, visited, number, &mut cache, evaluations)?;
    Ok(PreparedWithCache {
        prepared: Prepared {
            answer: answer_of(shown),
            change: None,
        },
        cache,
        invalidation: None,
    })
}

// The page of a view that only shows. Only the labels that are consulted for it are resolved.
fn show_lazily<K: Keeper, M: Ledger>(
    alloc: Global,
    keeper: &mut K,
    visited: &Visited<'_>,
    evaluations: &mut Steps<M>,
) -> Result<Prepared, Stop>
    requires attached { IsTrue (K.seen keeper.old).store.attached }
    requires within { visited.now.place < length visited.now.app.now.views }
    requires view { slice_get (app_of visited.now).views visited.now.place
        ≡ Some (page_of_view visited.now.view.now) }
    requires served { is_served_body (app_of visited.now).models verbs.Get
        (statements_of visited.now.view.now.body) ≡ true }
    ensures shown { IfOk result (IsShown true (K.seen keeper.new).tells
        (app_of visited.now) (K.seen keeper.old).state (visit_at visited.now)) }
    ensures reads { Reads (K.seen keeper.old) (K.seen keeper.new) result }
{
    let number = keeper.number()?;
    let shown = shown_lazily(alloc, keeper, visited, number, evaluations)?;
    Ok(Prepared {
        answer: lazy_answer_of(shown),
        change: None,
    })
}

// The page of a view that stores, and what it stores, while there are numbers left.
fn store<K: Keeper, L: Ledger, M: Ledger>(
    alloc: Global,
    keeper: &mut K,
    visited: &Visited<'_>,
    cache: ViewerCache,
    splits: &mut Steps<L>,
    evaluations: &mut Steps<M>,
) -> Result<PreparedWithCache, Stop>
    requires attached { IsTrue (K.seen keeper.old).store.attached }
    requires start { IsTrue (K.seen keeper.old).tells
        → IsStart (app_of visited.now) (K.seen keeper.old).state }
    requires view { slice_get (app_of visited.now).views visited.now.place
        ≡ Some (page_of_view visited.now.view.now) }
    requires method { visited.now.view.now.method ≡ verbs.Post }
    requires served { is_served_body (app_of visited.now).models verbs.Post
        (statements_of visited.now.view.now.body) ≡ true }
    requires few { length (app_of visited.now).models ≤ 64 }
    requires valid { IsTrue (K.seen keeper.old).tells → IsValidCache (app_of visited.now)
        (worlds_of (K.seen keeper.old).state) (viewer_at visited.now) cache }
    ensures stored { IfOk result (λ r. IsPreparedBy false verbs.Post (K.seen keeper.new).tells
        (app_of visited.now) (K.seen keeper.old).state (visit_at visited.now) r.prepared) }
    ensures keeps { IfOk result (KeepsCache (K.seen keeper.new).tells (app_of visited.now)
        (K.seen keeper.old).state (viewer_at visited.now)) }
    ensures bounded { IfOk result (λ r. AsksFew false (K.seen keeper.new).tells
        (app_of visited.now) (K.seen keeper.old).state (viewer_at visited.now)
        cache.labels evaluations.old evaluations.new r.prepared) }
    ensures unsplit { IfOk result (λ r. IsNone r.prepared.change → splits.new ≡ splits.old) }
    ensures reads { Reads (K.seen keeper.old) (K.seen keeper.new) result }
{
    let number = keeper.number()?;
    if number == LAST_NUMBER {
        let prepared = refuse(alloc, 507, None)?;
        return Ok(unmoved(prepared, cache));
    }
    let mut cache = cache;
    let stored = stored_page(
        alloc,
        keeper,
        visited,
        number,
        &mut cache,
        splits,
        evaluations,
    )?;
    Ok(PreparedWithCache {
        prepared: Prepared {
            answer: answer_of(stored.shown),
            change: Some(stored.change),
        },
        cache,
        invalidation: Some(stored.invalidation),
    })
}

// The answer with this page, under its labels.
fn answer_of(shown: Labelled) -> Answer
    ensures answer { result ≡ page_answer shown.labels shown.page }
    ensures ascending { IsAscending shown.labels }
{
    let Labelled { page, labels } = shown;
    let _rising = labels.as_slice();
    let Page {
        status,
        location,
        body,
    } = page;
    Answer {
        status,
        location,
        allow: None,
        body,
        shown: Some(labels),
        consulted: None,
    }
}

// The answer with this page, under its labels, and with the labels that were consulted for it.
fn lazy_answer_of(made: LazyPage) -> Answer
    ensures answer { result ≡ lazy_answer made.shown made.consulted made.page }
    ensures ascending { IsAscending made.shown }
    ensures rising { IsAscending made.consulted }
{
    let LazyPage {
        page,
        shown,
        consulted,
    } = made;
    let _ascending = shown.as_slice();
    let _rising = consulted.as_slice();
    let Page {
        status,
        location,
        body,
    } = page;
    Answer {
        status,
        location,
        allow: None,
        body,
        shown: Some(shown),
        consulted: Some(consulted),
    }
}

/// Stores what was prepared. If there is a change, this is one call of the keeper's `apply`. It
/// needs no memory of its own.
pub fn commit<K: Keeper>(alloc: Global, keeper: &mut K, prepared: Prepared) -> Result<Answer, Stop>
    requires attached { IsTrue (K.seen keeper.old).store.attached }
    requires good { IsTrue (K.seen keeper.old).tells
        → IfSome prepared.change (λ c. IsSound (changed_state c (K.seen keeper.old).state)) }
    ensures answer { IfOk result (λ a. a ≡ prepared.answer) }
    ensures unchanged { prepared.change ≡ None
        → (result ≡ Ok prepared.answer) × (K.seen keeper.new ≡ K.seen keeper.old) }
    ensures applied { IsTrue (K.seen keeper.new).tells → OnOk result ((K.seen keeper.new).state
        ≡ applied_if prepared.change (K.seen keeper.old).state) }
    ensures refused { IsTrue (K.seen keeper.new).tells
        → OnErr result ((K.seen keeper.new).state ≡ (K.seen keeper.old).state) }
    ensures told { IsTrue (K.seen keeper.new).tells → IsTrue (K.seen keeper.old).tells }
    ensures cause { HasCause (K.seen keeper.old).faults (K.seen keeper.new).faults result }
    ensures attached { (K.seen keeper.new).store ≡ (K.seen keeper.old).store }
{
    let Prepared { answer, change } = prepared;
    match change {
        None => Ok(answer),
        Some(change) => match keeper.apply(alloc, &change) {
            Ok(()) => Ok(answer),
            Err(stop) => Err(stop),
        },
    }
}
