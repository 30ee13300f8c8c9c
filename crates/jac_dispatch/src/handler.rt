//! A dispatcher: an application over a keeper, with what it counts and allocates to answer
//! requests.
ghost use Rattle.std.specs.Prelude.{◌≡◌, ◌<◌, [], false, true, IfOk, IfSome, IsTrue, OnErr, None};
ghost use Rattle.jac_keep.specs.Cause.{HasCause};
ghost use Rattle.jac_http.specs.Requests.{IsTaken};
ghost use Rattle.jac_http.specs.Replies.{reply_bytes};
ghost use Rattle.jac_hub.specs.declared.handler.Heard.TheVariants.{Whole as whole_heard};
ghost use Rattle.jac_hub.specs.declared.hub.Turn.TheVariants.{Idle};
ghost use Rattle.jac_hub.specs.declared.sent.Sent.TheVariants.{Made as made_sent};
ghost use Rattle.jac_hub.specs.Hub.{hub_seen, Nexts, puts_left};
ghost use Rattle.jac_hub.specs.Refusals.{is_refusal};
ghost use Rattle.jac_replies.specs.Spelled.{spelled_bytes, audit_rest};
ghost use Rattle.jac_engine.specs.Answers.{stores};
ghost use Rattle.jac_serve_events.specs.Dispatcher.{MayServe, KeepsDispatcher, kept};
ghost use Rattle.jac_serve_events.specs.Serve.{Handles};
ghost use Rattle.jac_dispatch.specs.Answered.{IsAnswerMade, IsRefusalSent, AreKeptFor, AreValidCaches, answer_spec};
ghost use Rattle.jac_dispatch.specs.Asked.{ask_in, request_in};
ghost use Rattle.jac_dispatch.specs.Seen.{whose, dispatcher_seen};
ghost use Rattle.jac_dispatch.specs.declared.answer.RequestSource.TheVariants as ways;

use crate::answer::{AnswerLines, RequestSource, answer_ask};
use crate::asks::{ask_in, request_in, request_viewer, viewer_in};
use jac_app_load::Service;
use jac_http::{Fixed, Request};
use jac_hub::{Handler, Heard, Hub, HubOut, Sent};
use jac_keep::{Keeper, Stop};
use jac_replies::{LabelTexts, Spelling, audit_rest, fixed_of, is_head, refusal_reply, text_bytes};
use jac_route::Sessions;
use jac_serve_events::{AskOutcome, Dispatch};
use jac_value::{Bytes, Memory, Txt};
use jac_viewer_caches::ViewerCaches;
use jac_world::Steps;
use std::alloc::Global;
use std::sync::ledger::Ledger;

/// An application over a keeper. It is made once for each command, and passed on by reference.
pub struct AppDispatcher<'k, 's, 'e, 'a, 'b, 't, K: Keeper, L: Ledger, M: Ledger> {
    pub keeper: &'k mut K,
    /// Counts the facets that are split.
    pub splits: &'s mut Steps<L>,
    /// Counts the evaluations of policies.
    pub evaluations: &'e mut Steps<M>,
    pub alloc: Global,
    /// The form in which a reply on a connection is written.
    pub spelling: Spelling,
    pub service: &'a Service,
    pub sessions: &'b Sessions,
    /// Whether a GET's page resolves only what it consults.
    pub lazy: bool,
    /// The caches of viewers.
    pub viewer_caches: &'t mut ViewerCaches,
    /// The texts of the labels in the last audit lines.
    pub label_texts: &'t mut LabelTexts,
}

impl<K: Keeper, L: Ledger, M: Ledger> Drop for AppDispatcher<'_, '_, '_, '_, '_, '_, K, L, M> {
    fn drop(self)
        ensures keeper { self.exit.0.now ≡ self.entry.keeper.now }
        ensures splits { self.exit.1.0.now ≡ self.entry.splits.now }
        ensures evaluations { self.exit.1.1.0.now ≡ self.entry.evaluations.now }
    {
        let AppDispatcher {
            keeper: _,
            splits: _,
            evaluations: _,
            alloc: _,
            spelling: _,
            service: _,
            sessions: _,
            lazy: _,
            viewer_caches: _,
            label_texts: _,
        } = self;
    }
}

impl<K: Keeper, L: Ledger, M: Ledger> Handler for AppDispatcher<'_, '_, '_, '_, '_, '_, K, L, M> {
    ghost use Rattle.jac_serve_events.specs.Dispatcher.{MayServe, KeepsDispatcher};
    ghost use Rattle.jac_serve_events.specs.Serve.{Handles};
    ghost use Rattle.jac_dispatch.specs.Answered.{answer_spec};
    ghost use Rattle.jac_dispatch.specs.Seen.{whose, dispatcher_seen};

    ghost ready = { λ a. MayServe answer_spec (dispatcher_seen K.seen a) };

    ghost handles = { λ before conn heard sent after.
        KeepsDispatcher answer_spec (dispatcher_seen K.seen before) (dispatcher_seen K.seen after)
        × Handles before.spelling (answer_spec (whose before))
        (dispatcher_seen K.seen before).run_seen
        conn heard sent (dispatcher_seen K.seen after).run_seen };

    fn handle(&mut self, conn: u32, heard: &Heard) -> Sent {
        match heard {
            Heard::Whole(request) => answer_request(self, conn, request),
            Heard::Refused(status) => answer_refused(self.alloc, self.spelling, conn, *status),
        }
    }
}

impl<K: Keeper, L: Ledger, M: Ledger> Dispatch for AppDispatcher<'_, '_, '_, '_, '_, '_, K, L, M> {
    ghost use Rattle.jac_dispatch.specs.Answered.{DispatcherOf, answer_spec};
    ghost use Rattle.jac_dispatch.specs.Seen.{dispatcher_seen};

    ghost Of = { DispatcherOf };

    ghost answer_spec = { answer_spec };

    ghost seen = { dispatcher_seen K.seen };

    fn alloc(&self) -> Global {
        self.alloc
    }

    fn lawful(&self) {}

    fn next_out(&mut self, spelling: Spelling, hub: &mut Hub) -> Option<HubOut> {
        self.spelling = spelling;
        ask_hub(self, hub)
    }

    fn ask(
        &mut self,
        viewer: Option<u128>,
        method: &Txt,
        path: &Txt,
        query: &Bytes,
        body: &Bytes,
    ) -> AskOutcome {
        match ask_lines(self, viewer, method, path, query, body) {
            Ok(lines) => AskOutcome::Answered {
                reply: lines.reply,
                audit: lines.audit,
            },
            Err(stop) => AskOutcome::Unanswered {
                stop,
                viewer: viewer_in(self.service.app(), viewer),
            },
        }
    }
}

// The next output of a hub, in the form that the dispatcher uses.
fn ask_hub<K: Keeper, L: Ledger, M: Ledger>(
    dispatcher: &mut AppDispatcher<'_, '_, '_, '_, '_, '_, K, L, M>,
    hub: &mut Hub,
) -> Option<HubOut>
    requires { MayServe answer_spec (dispatcher_seen K.seen dispatcher.old) }
    ensures next { Nexts IsTaken (Handles dispatcher.old.spelling
        (answer_spec (whose dispatcher.old)))
        (hub_seen hub.old) (hub_seen hub.old).turn result (hub_seen hub.new)
        (dispatcher_seen K.seen dispatcher.old).run_seen (dispatcher_seen K.seen
        dispatcher.new).run_seen }
    ensures idle { result ≡ None → (hub_seen hub.new).turn ≡ Idle }
    ensures nearer { IfSome result (λ out. puts_left (hub_seen hub.new) < puts_left
        (hub_seen hub.old)) }
    ensures keeps { KeepsDispatcher answer_spec (dispatcher_seen K.seen dispatcher.old)
        (dispatcher_seen K.seen dispatcher.new) }
{
    let alloc = dispatcher.alloc;
    hub.next(alloc, dispatcher)
}

// Answers the request of an `ask` line.
fn ask_lines<K: Keeper, L: Ledger, M: Ledger>(
    dispatcher: &mut AppDispatcher<'_, '_, '_, '_, '_, '_, K, L, M>,
    viewer: Option<u128>,
    method: &Txt,
    path: &Txt,
    query: &Bytes,
    body: &Bytes,
) -> Result<AnswerLines, Stop>
    requires { MayServe answer_spec (dispatcher_seen K.seen dispatcher.old) }
    ensures made { IfOk result (λ lines. IsAnswerMade dispatcher.old.lazy (whose dispatcher.old).app
        (kept (dispatcher_seen K.seen dispatcher.old) (dispatcher_seen K.seen dispatcher.new))
        ways.Line
        (ask_in (whose dispatcher.old).app viewer method.now path.now query.now body.now)
        lines.reply lines.audit) }
    ensures refused { IsTrue (K.seen dispatcher.new.keeper.now).tells
        → OnErr result ((K.seen dispatcher.new.keeper.now).state ≡
        (K.seen dispatcher.old.keeper.now).state) }
    ensures reading { stores (whose dispatcher.old).app
        (ask_in (whose dispatcher.old).app viewer method.now path.now query.now body.now) ≡ false
        → dispatcher.new.splits.now ≡ dispatcher.old.splits.now }
    ensures cached { AreKeptFor
        (ask_in (whose dispatcher.old).app viewer method.now path.now query.now body.now).viewer
        dispatcher.old.viewer_caches.now dispatcher.new.viewer_caches.now }
    ensures told { IsTrue (K.seen dispatcher.new.keeper.now).tells
        → IsTrue (K.seen dispatcher.old.keeper.now).tells }
    ensures cause { HasCause (K.seen dispatcher.old.keeper.now).faults
        (K.seen dispatcher.new.keeper.now).faults result }
    ensures same { whose dispatcher.new ≡ whose dispatcher.old }
    ensures attached { (K.seen dispatcher.new.keeper.now).store ≡
        (K.seen dispatcher.old.keeper.now).store }
    ensures settled { AreValidCaches (whose dispatcher.old).app (K.seen dispatcher.new.keeper.now)
        dispatcher.new.viewer_caches.now }
{
    let ask = ask_in(
        dispatcher.alloc,
        dispatcher.service.app(),
        viewer,
        method,
        path,
        query,
        body,
    )?;
    answer_ask(dispatcher, RequestSource::Line, &ask)
}

fn request_lines<K: Keeper, L: Ledger, M: Ledger>(
    dispatcher: &mut AppDispatcher<'_, '_, '_, '_, '_, '_, K, L, M>,
    conn: u32,
    request: &Request,
) -> Result<AnswerLines, Stop>
    requires { MayServe answer_spec (dispatcher_seen K.seen dispatcher.old) }
    ensures made { IfOk result (λ lines. IsAnswerMade dispatcher.old.lazy (whose dispatcher.old).app
        (kept (dispatcher_seen K.seen dispatcher.old) (dispatcher_seen K.seen dispatcher.new))
        (ways.Connection conn request.now.close dispatcher.old.spelling)
        (request_in (whose dispatcher.old).app dispatcher.old.sessions.now request.now)
        lines.reply lines.audit) }
    ensures refused { IsTrue (K.seen dispatcher.new.keeper.now).tells
        → OnErr result ((K.seen dispatcher.new.keeper.now).state ≡
        (K.seen dispatcher.old.keeper.now).state) }
    ensures reading { stores (whose dispatcher.old).app
        (request_in (whose dispatcher.old).app dispatcher.old.sessions.now request.now) ≡ false
        → dispatcher.new.splits.now ≡ dispatcher.old.splits.now }
    ensures cached { AreKeptFor
        (request_in (whose dispatcher.old).app dispatcher.old.sessions.now request.now).viewer
        dispatcher.old.viewer_caches.now dispatcher.new.viewer_caches.now }
    ensures told { IsTrue (K.seen dispatcher.new.keeper.now).tells
        → IsTrue (K.seen dispatcher.old.keeper.now).tells }
    ensures cause { HasCause (K.seen dispatcher.old.keeper.now).faults
        (K.seen dispatcher.new.keeper.now).faults result }
    ensures same { whose dispatcher.new ≡ whose dispatcher.old }
    ensures attached { (K.seen dispatcher.new.keeper.now).store ≡
        (K.seen dispatcher.old.keeper.now).store }
    ensures settled { AreValidCaches (whose dispatcher.old).app (K.seen dispatcher.new.keeper.now)
        dispatcher.new.viewer_caches.now }
{
    let ask = request_in(
        dispatcher.alloc,
        dispatcher.service.app(),
        dispatcher.sessions,
        request,
    )?;
    let via = RequestSource::Connection {
        conn,
        close: request.close,
        spelling: dispatcher.spelling,
    };
    answer_ask(dispatcher, via, &ask)
}

fn answer_request<K: Keeper, L: Ledger, M: Ledger>(
    dispatcher: &mut AppDispatcher<'_, '_, '_, '_, '_, '_, K, L, M>,
    conn: u32,
    request: &Request,
) -> Sent
    requires { MayServe answer_spec (dispatcher_seen K.seen dispatcher.old) }
    ensures handled { Handles dispatcher.old.spelling (answer_spec (whose dispatcher.old))
        (dispatcher_seen K.seen dispatcher.old).run_seen conn (whole_heard request.now) result
        (dispatcher_seen K.seen dispatcher.new).run_seen }
    ensures keeps { KeepsDispatcher answer_spec (dispatcher_seen K.seen dispatcher.old)
        (dispatcher_seen K.seen dispatcher.new) }
{
    match request_lines(dispatcher, conn, request) {
        Ok(lines) => made(lines),
        Err(stop) => Sent::Still {
            status: fixed_of(stop),
            head: is_head(request.method.as_bytes()),
            viewer: request_viewer(dispatcher.service.app(), dispatcher.sessions, request),
        },
    }
}

fn made(lines: AnswerLines) -> Sent
    ensures { result ≡ made_sent lines.reply lines.audit false }
{
    Sent::Made {
        line: lines.reply,
        audit: text_bytes(lines.audit),
        close: false,
    }
}

// What is sent for a refused request.
fn answer_refused(alloc: Global, spelling: Spelling, conn: u32, status: u16) -> Sent
    requires refusal { is_refusal status ≡ true }
    ensures { IsRefusalSent spelling conn status result }
{
    match refused_lines(alloc, spelling, conn, status) {
        Ok(lines) => made(lines),
        Err(Memory) => Sent::Still {
            status: Fixed::Memory500,
            head: false,
            viewer: None,
        },
    }
}

fn refused_lines(
    alloc: Global,
    spelling: Spelling,
    conn: u32,
    status: u16,
) -> Result<AnswerLines, Memory>
    requires refusal { is_refusal status ≡ true }
    ensures reply { IfOk result (λ lines.
        lines.reply ≡ spelled_bytes spelling conn (reply_bytes status None None [] false false
        true)) }
    ensures audit { IfOk result (λ lines. lines.audit ≡ audit_rest status None None None) }
{
    let reply = refusal_reply(alloc, spelling, conn, status)?;
    let audit = audit_rest(alloc, status, None, &None, &None)?;
    Ok(AnswerLines { reply, audit })
}
