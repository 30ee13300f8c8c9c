ghost use Rattle.std.specs.Prelude.{◌≡◌, ◌⊎◌, false, IfOk, IsTrue, IsSome, IsNone, OnOk, OnErr, IsErrOf, []};
ghost use Rattle.jac_lang.specs.Mirror.{application_of};
ghost use Rattle.jac_keep.specs.Cause.{HasCause};
ghost use Rattle.jac_keep.specs.KeeperSeen.{Reads};
ghost use Rattle.jac_policy_cache.specs.ViewerCache.{IsEmptyCache};
ghost use Rattle.jac_engine.specs.Answers.{stores};
ghost use Rattle.jac_engine.specs.Prepared.{IsPrepared, KeepsCache, applied_if};
ghost use Rattle.jac_engine.specs.Start.{IsStart};
ghost use Rattle.jac_viewer_caches.specs.CacheEntries.{IsOneOf, entry_of};
ghost use Rattle.jac_viewer_caches.specs.declared.viewer_caches.ViewerEntry.{ViewerEntry};
ghost use Rattle.jac_http.specs.Replies.{phrase_of};
ghost use Rattle.jac_hub.specs.Hearing.{whole};
ghost use Rattle.jac_serve_events.specs.AnswerSpec.{is_failure};
ghost use Rattle.jac_serve_events.specs.Dispatcher.{kept};
ghost use Rattle.jac_serve_events.specs.Log.{reply_on};
ghost use Rattle.jac_replies.specs.Spelled.{audit_rest};
ghost use Rattle.jac_dispatch.specs.Answered.{source_of, close_of, spelling_of, IsAnswerMade, AreValidCaches, AreInvalidatedIf, AreKeptFor, AsksFewAtFirst};
ghost use Rattle.jac_dispatch.specs.Seen.{whose, dispatcher_seen};

use crate::handler::AppDispatcher;
use jac_engine::{Manner, PreparedWithCache, commit, prepare};
use jac_keep::{Keeper, Stop};
use jac_policy_cache::{Invalidation, ViewerCache};
use jac_replies::{Answer, Ask, LabelTexts, Spelling, is_head, reply_line, sent_reply};
use jac_resolve::{cache_moves, covered_by_nothing, empty_cache_is_valid};
use jac_value::{Bytes, Id, Memory, Txt};
use jac_viewer_caches::ViewerCaches;
use std::alloc::Global;
use std::sync::ledger::Ledger;

/// Where a request came from.
#[derive(Clone, Copy, PartialEq, Eq)]
pub enum RequestSource {
    /// An `ask` line.
    Line,
    Connection {
        conn: u32,
        /// The connection ends after the reply.
        close: bool,
        spelling: Spelling,
    },
}

/// The reply to a request, and what follows the number in its audit line.
#[derive(Drop)]
pub struct AnswerLines {
    pub reply: Bytes,
    pub audit: Txt,
}

fn reply_via(alloc: Global, via: RequestSource, ask: &Ask, answer: &Answer) -> Result<Bytes, Memory>
    requires status { IsSome (phrase_of answer.now.status) }
    requires answered { is_failure answer.now ≡ false }
    ensures { IfOk result (λ reply.
        reply ≡ reply_on (spelling_of via) (source_of via) (whole ask.now (close_of via))
        answer.now) }
{
    match via {
        RequestSource::Line => reply_line(alloc, ask.method.as_bytes(), answer),
        RequestSource::Connection {
            conn,
            close,
            spelling,
        } => sent_reply(
            alloc,
            spelling,
            conn,
            answer,
            is_head(ask.method.as_bytes()),
            close,
        ),
    }
}

fn make_lines(
    alloc: Global,
    label_texts: &mut LabelTexts,
    via: RequestSource,
    ask: &Ask,
    answer: &Answer,
) -> Result<AnswerLines, Memory>
    requires status { IsSome (phrase_of answer.now.status) }
    requires answered { is_failure answer.now ≡ false }
    ensures reply { IfOk result (λ lines.
        lines.reply ≡ reply_on (spelling_of via) (source_of via) (whole ask.now (close_of via))
        answer.now) }
    ensures audit { IfOk result (λ lines.
        lines.audit ≡ audit_rest answer.now.status ask.now.viewer answer.now.shown
        answer.now.consulted) }
{
    let reply = reply_via(alloc, via, ask, answer)?;
    let audit = label_texts.audit_rest(
        alloc,
        answer.status,
        &ask.viewer,
        &answer.shown,
        &answer.consulted,
    )?;
    Ok(AnswerLines { reply, audit })
}

/// Answers one request and stores its change. The lines of its reply are made first, so nothing is
/// stored without them. The viewer's cache is kept, and what the change may affect in it is settled
/// again. A page that is made lazily neither uses nor changes it. After a fault of the keeper all
/// caches are dropped, because the store may hold something else then.
pub fn answer_ask<K: Keeper, L: Ledger, M: Ledger>(
    dispatcher: &mut AppDispatcher<'_, '_, '_, '_, '_, '_, K, L, M>,
    via: RequestSource,
    ask: &Ask,
) -> Result<AnswerLines, Stop>
    requires attached { IsTrue (K.seen dispatcher.old.keeper.now).store.attached }
    requires start { IsTrue (K.seen dispatcher.old.keeper.now).tells
        → IsStart (whose dispatcher.old).app (K.seen dispatcher.old.keeper.now).state }
    requires settled { AreValidCaches (whose dispatcher.old).app (K.seen dispatcher.old.keeper.now)
        dispatcher.old.viewer_caches.now }
    ensures made { IfOk result (λ lines. IsAnswerMade dispatcher.old.lazy (whose dispatcher.old).app
        (kept (dispatcher_seen K.seen dispatcher.old) (dispatcher_seen K.seen dispatcher.new))
        via ask.now lines.reply lines.audit) }
    ensures refused { IsTrue (K.seen dispatcher.new.keeper.now).tells
        → OnErr result ((K.seen dispatcher.new.keeper.now).state ≡
        (K.seen dispatcher.old.keeper.now).state) }
    ensures told { IsTrue (K.seen dispatcher.new.keeper.now).tells
        → IsTrue (K.seen dispatcher.old.keeper.now).tells }
    ensures cause { HasCause (K.seen dispatcher.old.keeper.now).faults
        (K.seen dispatcher.new.keeper.now).faults result }
    ensures attached { (K.seen dispatcher.new.keeper.now).store ≡
        (K.seen dispatcher.old.keeper.now).store }
    ensures settled { AreValidCaches (whose dispatcher.old).app (K.seen dispatcher.new.keeper.now)
        dispatcher.new.viewer_caches.now }
    ensures forgotten { IsErrOf result Stop.Keeper → dispatcher.new.viewer_caches.now ≡ [] }
    ensures bounded { OnOk result (AsksFewAtFirst dispatcher.old.lazy
        (K.seen dispatcher.new.keeper.now).tells (whose dispatcher.old).app
        (K.seen dispatcher.new.keeper.now).state ask.now.viewer dispatcher.old.viewer_caches.now
        dispatcher.old.evaluations.now dispatcher.new.evaluations.now) }
    ensures reading { stores (whose dispatcher.old).app ask.now ≡ false
        → dispatcher.new.splits.now ≡ dispatcher.old.splits.now }
    ensures cached { AreKeptFor ask.now.viewer dispatcher.old.viewer_caches.now
        dispatcher.new.viewer_caches.now }
    ensures same { whose dispatcher.new ≡ whose dispatcher.old }
{
    match answer_over_caches(dispatcher, via, ask) {
        Ok(lines) => Ok(lines),
        Err(Stop::Keeper) => {
            dispatcher.viewer_caches.forget();
            Err(Stop::Keeper)
        }
        Err(Stop::Memory) => Err(Stop::Memory),
    }
}

// The same, but the caches aren't dropped after a fault of the keeper.
fn answer_over_caches<K: Keeper, L: Ledger, M: Ledger>(
    dispatcher: &mut AppDispatcher<'_, '_, '_, '_, '_, '_, K, L, M>,
    via: RequestSource,
    ask: &Ask,
) -> Result<AnswerLines, Stop>
    requires attached { IsTrue (K.seen dispatcher.old.keeper.now).store.attached }
    requires start { IsTrue (K.seen dispatcher.old.keeper.now).tells
        → IsStart (whose dispatcher.old).app (K.seen dispatcher.old.keeper.now).state }
    requires settled { AreValidCaches (whose dispatcher.old).app (K.seen dispatcher.old.keeper.now)
        dispatcher.old.viewer_caches.now }
    ensures made { IfOk result (λ lines. IsAnswerMade dispatcher.old.lazy (whose dispatcher.old).app
        (kept (dispatcher_seen K.seen dispatcher.old) (dispatcher_seen K.seen dispatcher.new))
        via ask.now lines.reply lines.audit) }
    ensures refused { IsTrue (K.seen dispatcher.new.keeper.now).tells
        → OnErr result ((K.seen dispatcher.new.keeper.now).state ≡
        (K.seen dispatcher.old.keeper.now).state) }
    ensures told { IsTrue (K.seen dispatcher.new.keeper.now).tells
        → IsTrue (K.seen dispatcher.old.keeper.now).tells }
    ensures cause { HasCause (K.seen dispatcher.old.keeper.now).faults
        (K.seen dispatcher.new.keeper.now).faults result }
    ensures attached { (K.seen dispatcher.new.keeper.now).store ≡
        (K.seen dispatcher.old.keeper.now).store }
    ensures settled { AreValidCaches (whose dispatcher.old).app (K.seen dispatcher.new.keeper.now)
        dispatcher.new.viewer_caches.now }
    ensures bounded { OnOk result (AsksFewAtFirst dispatcher.old.lazy
        (K.seen dispatcher.new.keeper.now).tells (whose dispatcher.old).app
        (K.seen dispatcher.new.keeper.now).state ask.now.viewer dispatcher.old.viewer_caches.now
        dispatcher.old.evaluations.now dispatcher.new.evaluations.now) }
    ensures reading { stores (whose dispatcher.old).app ask.now ≡ false
        → dispatcher.new.splits.now ≡ dispatcher.old.splits.now }
    ensures cached { AreKeptFor ask.now.viewer dispatcher.old.viewer_caches.now
        dispatcher.new.viewer_caches.now }
    ensures same { whose dispatcher.new ≡ whose dispatcher.old }
{
    let ready = ready_answer(dispatcher, ask)?;
    let lines = make_lines(
        dispatcher.alloc,
        dispatcher.label_texts,
        via,
        ask,
        &ready.prepared.answer,
    )?;
    store_answer(dispatcher, ask, ready)?;
    Ok(lines)
}

/// Prepares the answer to the request with the viewer's cache, which is taken out. Nothing is
/// stored.
pub fn ready_answer<K: Keeper, L: Ledger, M: Ledger>(
    dispatcher: &mut AppDispatcher<'_, '_, '_, '_, '_, '_, K, L, M>,
    ask: &Ask,
) -> Result<PreparedWithCache, Stop>
    requires attached { IsTrue (K.seen dispatcher.old.keeper.now).store.attached }
    requires start { IsTrue (K.seen dispatcher.old.keeper.now).tells
        → IsStart (whose dispatcher.old).app (K.seen dispatcher.old.keeper.now).state }
    requires settled { AreValidCaches (whose dispatcher.old).app (K.seen dispatcher.old.keeper.now)
        dispatcher.old.viewer_caches.now }
    ensures prepared { IfOk result (λ r. IsPrepared dispatcher.old.lazy
        (K.seen dispatcher.new.keeper.now).tells
        (whose dispatcher.old).app (K.seen dispatcher.old.keeper.now).state ask.now r.prepared) }
    ensures keeps { IfOk result (KeepsCache (K.seen dispatcher.new.keeper.now).tells
        (whose dispatcher.old).app (K.seen dispatcher.old.keeper.now).state ask.now.viewer) }
    ensures bounded { IfOk result (λ r. AsksFewAtFirst dispatcher.old.lazy
        (K.seen dispatcher.new.keeper.now).tells (whose dispatcher.old).app
        (applied_if r.prepared.change (K.seen dispatcher.old.keeper.now).state) ask.now.viewer
        dispatcher.old.viewer_caches.now dispatcher.old.evaluations.now
        dispatcher.new.evaluations.now) }
    ensures unsplit { IfOk result (λ r. IsNone r.prepared.change
        → dispatcher.new.splits.now ≡ dispatcher.old.splits.now) }
    ensures reading { stores (whose dispatcher.old).app ask.now ≡ false
        → dispatcher.new.splits.now ≡ dispatcher.old.splits.now }
    ensures reads { Reads (K.seen dispatcher.old.keeper.now) (K.seen dispatcher.new.keeper.now)
        result }
    ensures settled { AreValidCaches (whose dispatcher.old).app (K.seen dispatcher.new.keeper.now)
        dispatcher.new.viewer_caches.now }
    ensures cached { AreKeptFor ask.now.viewer dispatcher.old.viewer_caches.now
        dispatcher.new.viewer_caches.now }
    ensures same { whose dispatcher.new ≡ whose dispatcher.old }
{
    empty_cache_is_valid();
    let cache = take_cache(dispatcher.alloc, dispatcher.viewer_caches, &ask.viewer);
    let manner = Manner {
        lazy: dispatcher.lazy,
        cache,
    };
    let ready = prepare(
        dispatcher.alloc,
        dispatcher.service,
        dispatcher.keeper,
        ask,
        manner,
        dispatcher.splits,
        dispatcher.evaluations,
    )?;
    Ok(ready)
}

// Takes out the viewer's cache, or begins with an empty one.
fn take_cache(alloc: Global, viewer_caches: &mut ViewerCaches, viewer: &Option<Id>) -> ViewerCache
    ensures taken { IsOneOf (entry_of viewer.now result) viewer_caches.old ⊎ IsEmptyCache result }
    ensures left { (s : ViewerEntry) → IsOneOf s viewer_caches.new → IsOneOf s viewer_caches.old }
{
    match viewer_caches.take(viewer) {
        Some(cache) => cache,
        None => ViewerCache::empty(alloc),
    }
}

/// Stores the prepared change. Other viewers' caches are valid before it and after it. The cache of
/// the viewer who made the request is put back if all went well.
pub fn store_answer<K: Keeper, L: Ledger, M: Ledger>(
    dispatcher: &mut AppDispatcher<'_, '_, '_, '_, '_, '_, K, L, M>,
    ask: &Ask,
    ready: PreparedWithCache,
) -> Result<(), Stop>
    requires attached { IsTrue (K.seen dispatcher.old.keeper.now).store.attached }
    requires prepared { IsPrepared dispatcher.old.lazy (K.seen dispatcher.old.keeper.now).tells
        (whose dispatcher.old).app (K.seen dispatcher.old.keeper.now).state ask.now ready.prepared }
    requires keeps { KeepsCache (K.seen dispatcher.old.keeper.now).tells (whose dispatcher.old).app
        (K.seen dispatcher.old.keeper.now).state ask.now.viewer ready }
    requires settled { AreValidCaches (whose dispatcher.old).app (K.seen dispatcher.old.keeper.now)
        dispatcher.old.viewer_caches.now }
    ensures applied { IsTrue (K.seen dispatcher.new.keeper.now).tells
        → OnOk result ((K.seen dispatcher.new.keeper.now).state
        ≡ applied_if ready.prepared.change (K.seen dispatcher.old.keeper.now).state) }
    ensures refused { IsTrue (K.seen dispatcher.new.keeper.now).tells
        → OnErr result ((K.seen dispatcher.new.keeper.now).state ≡
        (K.seen dispatcher.old.keeper.now).state) }
    ensures told { IsTrue (K.seen dispatcher.new.keeper.now).tells
        → IsTrue (K.seen dispatcher.old.keeper.now).tells }
    ensures cause { HasCause (K.seen dispatcher.old.keeper.now).faults
        (K.seen dispatcher.new.keeper.now).faults result }
    ensures attached { (K.seen dispatcher.new.keeper.now).store ≡
        (K.seen dispatcher.old.keeper.now).store }
    ensures settled { AreValidCaches (whose dispatcher.old).app (K.seen dispatcher.new.keeper.now)
        dispatcher.new.viewer_caches.now }
    ensures unsplit { dispatcher.new.splits.now ≡ dispatcher.old.splits.now }
    ensures unasked { dispatcher.new.evaluations.now ≡ dispatcher.old.evaluations.now }
    ensures cached { AreKeptFor ask.now.viewer dispatcher.old.viewer_caches.now
        dispatcher.new.viewer_caches.now }
    ensures same { whose dispatcher.new ≡ whose dispatcher.old }
{
    cache_moves();
    covered_by_nothing();
    let PreparedWithCache {
        prepared,
        cache,
        invalidation,
    } = ready;
    invalidate_by(dispatcher.alloc, dispatcher.viewer_caches, &invalidation);
    match commit(dispatcher.alloc, dispatcher.keeper, prepared) {
        Ok(_) => {
            dispatcher.viewer_caches.put(ask.viewer, cache);
            Ok(())
        }
        Err(stop) => Err(stop),
    }
}

// Marks as stale, for each viewer, what may be affected.
fn invalidate_by(
    alloc: Global,
    viewer_caches: &mut ViewerCaches,
    invalidation: &Option<Invalidation>,
)
    ensures { AreInvalidatedIf invalidation.now viewer_caches.old viewer_caches.new }
{
    match invalidation {
        Some(invalidation) => viewer_caches.invalidate(alloc, invalidation),
        None => (),
    }
}
