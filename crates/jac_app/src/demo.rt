//! Answers generated requests to a calendar without output, and counts them.
ghost use Rattle.std.specs.Prelude.{◌≡◌, ◌≤◌, ◌<◌, ◌+◌, ◌-◌, ◌^◌, ◌++◌, IfOk, IfErr, IsTrue, OnErr, Err, Some, None, length, decimal, false};
ghost use Rattle.std.specs.List.{All};
ghost use Rattle.jac_demo.specs.Calendar.{calendar_text};
ghost use Rattle.jac_events.specs.Lines.{line_of};
ghost use Rattle.jac_io.specs.Faults.{Rose};
ghost use Rattle.jac_lang.specs.Mirror.{application_of};
ghost use Rattle.jac_plain.specs.Models.{shapes_of};
ghost use Rattle.jac_keep.specs.Cause.{HasCause};
ghost use Rattle.jac_keep.specs.Schema.{IsSchema};
ghost use Rattle.jac_engine.specs.Answers.{stores};
ghost use Rattle.jac_engine.specs.Start.{IsStart};
ghost use Rattle.jac_replies.specs.Refused.{refusal};
ghost use Rattle.jac_command_base.specs.declared.exit_reason.ExitReason.TheVariants as exits;
ghost use Rattle.jac_app_load.specs.Application.{IsApplication, schema_text};
ghost use Rattle.jac_dispatch.specs.Answered.{AreKeptFor, AreValidCaches, answer_spec};
ghost use Rattle.jac_dispatch.specs.Asked.{ask_in};
ghost use Rattle.jac_dispatch.specs.Seen.{whose, dispatcher_seen};
ghost use Rattle.jac_calendar_laws.specs.Asking.{IsAsking};
ghost use Rattle.jac_app.specs.Demo.{EndsCounting, EndsDemo, EndsTallying, IsBounded, IsCounted, IsDemoTold, PutsTally, Tallies, TalliesLeaving, TalliesAsk, TalliesEvent, TalliesLine, demo_script, tally_of};
ghost use Rattle.jac_replies.specs.Failed.{status_of_stop};
ghost use Rattle.jac_command_base.specs.Files.{IsUnopened};
ghost use Rattle.jac_serve_events.specs.Line.{lines_of};
ghost use Rattle.jac_replies.specs.Spelled.{audit_rest, audit_text};
ghost use Rattle.jac_serve_events.specs.Dispatcher.{MayServe, KeepsDispatcher, kept};
ghost use Rattle.jac_serve_events.specs.RunSeen.{run_counts, run_seen_of};
ghost use Rattle.jac_serve_events.specs.Outside.{Went, WentAimed, WentTo, sinks, span};
ghost use Rattle.jac_serve_events.specs.Script.{script_of};

use crate::attach::attach;
use crate::counts::Counts;
use crate::summary::{Summary, Tally, counted, failed_tally, none_counted, put_summary, tally_of};
use jac_app_load::Service;
use jac_command_base::{ExitReason, open_app};
use jac_demo::{demo_app, demo_events};
use jac_dispatch::{AppDispatcher, ask_in, ready_answer, store_answer, viewer_in};
use jac_events::{Event, LineFault, read_line};
use jac_io::{AuditSink, Failed, Sink};
use jac_keep::{Keeper, Stop, Vault};
use jac_replies::{Answer, Ask, LabelTexts, Spelling, audit_rest, fixed_of};
use jac_route::Sessions;
use jac_serve_events::{put_failed_audit, put_numbered};
use jac_value::{Bytes, Id, Memory, Txt, first_part};
use jac_viewer_caches::ViewerCaches;
use jac_world::Steps;
use std::alloc::Global;
use std::sync::ledger::Ledger;

/// Why answering requests without output ended early.
#[derive(Clone, Copy, PartialEq, Eq)]
pub enum DemoFault {
    /// A put on the audit failed.
    Write,
    Memory,
}

// The parts of an `ask` line.
#[derive(Clone, Copy)]
struct Asking<'e> {
    viewer: Option<u128>,
    method: &'e Txt,
    path: &'e Txt,
    query: &'e Bytes,
    body: &'e Bytes,
}

// The audit line of a request without its number, and the tally of its answer.
#[derive(Drop)]
struct Counted {
    audit: Txt,
    tally: Tally,
}

fn count_answer(alloc: Global, ask: &Ask, answer: &Answer) -> Result<Counted, Memory>
    ensures audit { IfOk result (λ c. c.audit ≡ audit_rest answer.now.status ask.now.viewer
        answer.now.shown answer.now.consulted) }
    ensures tally { IfOk result (λ c. c.tally ≡ tally_of answer.now) }
{
    let audit = audit_rest(
        alloc,
        answer.status,
        ask.viewer,
        &answer.shown,
        &answer.consulted,
    )?;
    let tally = tally_of(answer);
    Ok(Counted { audit, tally })
}

// Answers one request, and stores what it leaves. Its audit line is made before, so that nothing is
// stored without it.
fn answer_counted<K: Keeper, L: Ledger, M: Ledger>(
    dispatcher: &mut AppDispatcher<'_, '_, '_, '_, '_, '_, K, L, M>,
    ask: &Ask,
) -> Result<Counted, Stop>
    requires dispatcher { MayServe answer_spec (dispatcher_seen K.seen dispatcher.old) }
    requires eager { dispatcher.old.lazy ≡ false }
    ensures counted { IfOk result (λ c. IsCounted (whose dispatcher.old).app
        (kept (dispatcher_seen K.seen dispatcher.old) (dispatcher_seen K.seen dispatcher.new))
        ask.now c.audit c.tally) }
    ensures reading { stores (whose dispatcher.old).app ask.now ≡ false
        → dispatcher.new.splits.now ≡ dispatcher.old.splits.now }
    ensures cached { AreKeptFor ask.now.viewer dispatcher.old.viewer_caches.now
        dispatcher.new.viewer_caches.now }
    ensures refused { IsTrue (K.seen dispatcher.new.keeper.now).tells
        → OnErr result ((K.seen dispatcher.new.keeper.now).state ≡
        (K.seen dispatcher.old.keeper.now).state) }
    ensures told { IsTrue (K.seen dispatcher.new.keeper.now).tells
        → IsTrue (K.seen dispatcher.old.keeper.now).tells }
    ensures cause { HasCause (K.seen dispatcher.old.keeper.now).faults
        (K.seen dispatcher.new.keeper.now).faults result }
    ensures attached { (K.seen dispatcher.new.keeper.now).store ≡
        (K.seen dispatcher.old.keeper.now).store }
    ensures settled { AreValidCaches (whose dispatcher.old).app (K.seen dispatcher.new.keeper.now)
        dispatcher.new.viewer_caches.now }
    ensures same { whose dispatcher.new ≡ whose dispatcher.old }
{
    let ready = ready_answer(dispatcher, ask)?;
    let counted = count_answer(dispatcher.alloc, ask, &ready.prepared.answer)?;
    store_answer(dispatcher, ask, ready)?;
    Ok(counted)
}

// The request of an `ask` line is answered. Its audit line is put whole, with this tally, or only a
// prefix of it is put.
fn count_ask<K: Keeper, L: Ledger, M: Ledger>(
    dispatcher: &mut AppDispatcher<'_, '_, '_, '_, '_, '_, K, L, M>,
    asking: &Asking<'_>,
) -> Result<Counted, Stop>
    requires dispatcher { MayServe answer_spec (dispatcher_seen K.seen dispatcher.old) }
    requires eager { dispatcher.old.lazy ≡ false }
    ensures counted { IfOk result (λ c. IsCounted (whose dispatcher.old).app
        (kept (dispatcher_seen K.seen dispatcher.old) (dispatcher_seen K.seen dispatcher.new))
        (ask_in (whose dispatcher.old).app asking.now.viewer asking.now.method.now
        asking.now.path.now asking.now.query.now asking.now.body.now) c.audit
        c.tally) }
    ensures reading { stores (whose dispatcher.old).app (ask_in (whose dispatcher.old).app
        asking.now.viewer asking.now.method.now
        asking.now.path.now asking.now.query.now asking.now.body.now) ≡ false
        → dispatcher.new.splits.now ≡ dispatcher.old.splits.now }
    ensures cached { AreKeptFor (ask_in (whose dispatcher.old).app asking.now.viewer
        asking.now.method.now asking.now.path.now asking.now.query.now asking.now.body.now).viewer
        dispatcher.old.viewer_caches.now dispatcher.new.viewer_caches.now }
    ensures refused { IsTrue (K.seen dispatcher.new.keeper.now).tells
        → OnErr result ((K.seen dispatcher.new.keeper.now).state ≡
        (K.seen dispatcher.old.keeper.now).state) }
    ensures told { IsTrue (K.seen dispatcher.new.keeper.now).tells
        → IsTrue (K.seen dispatcher.old.keeper.now).tells }
    ensures cause { HasCause (K.seen dispatcher.old.keeper.now).faults
        (K.seen dispatcher.new.keeper.now).faults result }
    ensures attached { (K.seen dispatcher.new.keeper.now).store ≡
        (K.seen dispatcher.old.keeper.now).store }
    ensures settled { AreValidCaches (whose dispatcher.old).app (K.seen dispatcher.new.keeper.now)
        dispatcher.new.viewer_caches.now }
    ensures same { whose dispatcher.new ≡ whose dispatcher.old }
{
    let ask = ask_in(
        dispatcher.alloc,
        dispatcher.service.app(),
        asking.viewer,
        asking.method,
        asking.path,
        asking.query,
        asking.body,
    )?;
    let counted = answer_counted(dispatcher, &ask)?;
    Ok(counted)
}

// Puts the audit line of the k-th request. `rest` is the line without its number.
fn put_counted<U: AuditSink>(
    audit: &mut U,
    k: u64,
    rest: &[u8],
    tally: Tally,
) -> Result<Tally, Failed>
    ensures put { WentTo (span (U.seen audit.old) (U.seen audit.new))
        (PutsTally (decimal k ++ rest.now) tally result) }
    ensures cause { OnErr result (Rose (U.seen audit.old).faults (U.seen audit.new).faults) }
{
    match put_numbered(audit, k, rest) {
        Ok(()) => Ok(tally),
        Err(Failed) => Err(Failed),
    }
}

// Puts the audit line of a request that wasn't answered.
fn put_stopped<U: AuditSink>(
    audit: &mut U,
    k: u64,
    stop: Stop,
    viewer: Option<Id>,
) -> Result<Tally, Failed>
    ensures put { WentTo (span (U.seen audit.old) (U.seen audit.new))
        (PutsTally (audit_text k (status_of_stop stop) viewer None None)
        (tally_of (refusal (status_of_stop stop) None)) result) }
    ensures cause { OnErr result (Rose (U.seen audit.old).faults (U.seen audit.new).faults) }
{
    match put_failed_audit(audit, k, fixed_of(stop), viewer) {
        Ok(()) => Ok(failed_tally(stop)),
        Err(Failed) => Err(Failed),
    }
}

// Answers the request of an `ask` line, after `served` others, and puts its audit line.
fn tally_ask<U: AuditSink, K: Keeper, L: Ledger, M: Ledger>(
    dispatcher: &mut AppDispatcher<'_, '_, '_, '_, '_, '_, K, L, M>,
    served: u64,
    asking: &Asking<'_>,
    audit: &mut U,
) -> Result<Tally, Failed>
    requires few { served < 2 ^ 64 - 1 }
    requires dispatcher { MayServe answer_spec (dispatcher_seen K.seen dispatcher.old) }
    requires eager { dispatcher.old.lazy ≡ false }
    ensures answered { WentTo (span (U.seen audit.old) (U.seen audit.new))
        (TalliesAsk (whose dispatcher.old).app
        (kept (dispatcher_seen K.seen dispatcher.old) (dispatcher_seen K.seen dispatcher.new))
        served
        (ask_in (whose dispatcher.old).app asking.now.viewer asking.now.method.now
        asking.now.path.now asking.now.query.now asking.now.body.now) result) }
    ensures cause { OnErr result (Rose (U.seen audit.old).faults (U.seen audit.new).faults) }
    ensures keeps { KeepsDispatcher answer_spec (dispatcher_seen K.seen dispatcher.old)
        (dispatcher_seen K.seen dispatcher.new) }
{
    let service = dispatcher.service;
    match count_ask(dispatcher, asking) {
        Ok(counted) => put_counted(audit, served + 1, counted.audit.as_bytes(), counted.tally),
        Err(stop) => put_stopped(
            audit,
            served + 1,
            stop,
            viewer_in(service.app(), asking.viewer),
        ),
    }
}

// Serves a request, and counts it.
fn tally_event<U: AuditSink, K: Keeper, L: Ledger, M: Ledger>(
    dispatcher: &mut AppDispatcher<'_, '_, '_, '_, '_, '_, K, L, M>,
    summary: Summary,
    event: &Event,
    audit: &mut U,
) -> Result<Summary, DemoFault>
    requires few { summary.asks < 2 ^ 64 - 1 }
    requires bounded { IsBounded summary }
    requires asking { IsAsking (Some (Some event.now)) }
    requires dispatcher { MayServe answer_spec (dispatcher_seen K.seen dispatcher.old) }
    requires eager { dispatcher.old.lazy ≡ false }
    ensures tallied { WentTo (span (U.seen audit.old) (U.seen audit.new))
        (TalliesEvent (whose dispatcher.old).app
        (kept (dispatcher_seen K.seen dispatcher.old) (dispatcher_seen K.seen dispatcher.new))
        summary event.now result) }
    ensures cause { result ≡ Err DemoFault.Write
        → Rose (U.seen audit.old).faults (U.seen audit.new).faults }
    ensures bounded { IfOk result (λ more. IsBounded more) }
    ensures count { IfOk result (λ more. more.asks ≤ summary.asks + 1) }
    ensures keeps { KeepsDispatcher answer_spec (dispatcher_seen K.seen dispatcher.old)
        (dispatcher_seen K.seen dispatcher.new) }
{
    match event {
        Event::Ask {
            viewer,
            method,
            path,
            query,
            body,
        } => {
            let asking = Asking {
                viewer: *viewer,
                method,
                path,
                query,
                body,
            };
            match tally_ask(dispatcher, summary.asks, &asking, audit) {
                Ok(tally) => Ok(counted(summary, method.as_bytes(), tally)),
                Err(Failed) => Err(DemoFault::Write),
            }
        }
        _ => unreachable!(),
    }
}

// Serves a line, which is empty or describes a request.
fn tally_line<U: AuditSink, K: Keeper, L: Ledger, M: Ledger>(
    dispatcher: &mut AppDispatcher<'_, '_, '_, '_, '_, '_, K, L, M>,
    summary: Summary,
    line: &[u8],
    audit: &mut U,
) -> Result<Summary, DemoFault>
    requires few { summary.asks < 2 ^ 64 - 1 }
    requires bounded { IsBounded summary }
    requires asking { IsAsking (line_of line.now) }
    requires dispatcher { MayServe answer_spec (dispatcher_seen K.seen dispatcher.old) }
    requires eager { dispatcher.old.lazy ≡ false }
    ensures tallied { WentTo (span (U.seen audit.old) (U.seen audit.new))
        (TalliesLine (whose dispatcher.old).app
        (kept (dispatcher_seen K.seen dispatcher.old) (dispatcher_seen K.seen dispatcher.new))
        summary (line_of line.now)
        result) }
    ensures cause { result ≡ Err DemoFault.Write
        → Rose (U.seen audit.old).faults (U.seen audit.new).faults }
    ensures bounded { IfOk result (λ more. IsBounded more) }
    ensures count { IfOk result (λ more. more.asks ≤ summary.asks + 1) }
    ensures keeps { KeepsDispatcher answer_spec (dispatcher_seen K.seen dispatcher.old)
        (dispatcher_seen K.seen dispatcher.new) }
{
    match read_line(dispatcher.alloc, line) {
        Ok(Some(event)) => tally_event(dispatcher, summary, &event, audit),
        Ok(None) => Ok(summary),
        Err(LineFault::BadLine) => unreachable!(),
        Err(LineFault::Memory) => Err(DemoFault::Memory),
    }
}

// Serves the requests of a text, line by line.
fn tally_events<U: AuditSink, K: Keeper, L: Ledger, M: Ledger>(
    dispatcher: &mut AppDispatcher<'_, '_, '_, '_, '_, '_, K, L, M>,
    bytes: &[u8],
    audit: &mut U,
) -> Result<Summary, DemoFault>
    requires short { length bytes.now < 2 ^ 63 }
    requires asking { All (λ line. IsAsking (line_of line)) (lines_of bytes.now) }
    requires dispatcher { MayServe answer_spec (dispatcher_seen K.seen dispatcher.old) }
    requires eager { dispatcher.old.lazy ≡ false }
    ensures tallied { WentTo (span (U.seen audit.old) (U.seen audit.new))
        (Tallies (whose dispatcher.old).app
        (kept (dispatcher_seen K.seen dispatcher.old) (dispatcher_seen K.seen dispatcher.new))
        (script_of bytes.now)
        result) }
    ensures cause { result ≡ Err DemoFault.Write
        → Rose (U.seen audit.old).faults (U.seen audit.new).faults }
    ensures keeps { KeepsDispatcher answer_spec (dispatcher_seen K.seen dispatcher.old)
        (dispatcher_seen K.seen dispatcher.new) }
{
    let mut summary = none_counted();
    let mut left = Some(bytes);
    'lines: while let Some(rest) = left {
        let (line, after) = first_part(rest, b'\n');
        match tally_line(dispatcher, summary, line, audit) {
            Ok(more) => summary = more,
            Err(fault) => return Err(fault),
        }
        left = after;
    }
    Ok(summary)
}

// Serves the requests to the calendar.
fn serve_calendar<U: AuditSink, K: Keeper, L: Ledger, M: Ledger>(
    dispatcher: &mut AppDispatcher<'_, '_, '_, '_, '_, '_, K, L, M>,
    count: u64,
    audit: &mut U,
) -> Result<Summary, DemoFault>
    requires some { 1 ≤ count }
    requires few { count ≤ 2000 }
    requires dispatcher { MayServe answer_spec (dispatcher_seen K.seen dispatcher.old) }
    requires eager { dispatcher.old.lazy ≡ false }
    ensures served { WentTo (span (U.seen audit.old) (U.seen audit.new))
        (Tallies (whose dispatcher.old).app
        (kept (dispatcher_seen K.seen dispatcher.old) (dispatcher_seen K.seen dispatcher.new))
        (demo_script count)
        result) }
    ensures cause { result ≡ Err DemoFault.Write
        → Rose (U.seen audit.old).faults (U.seen audit.new).faults }
    ensures keeps { KeepsDispatcher answer_spec (dispatcher_seen K.seen dispatcher.old)
        (dispatcher_seen K.seen dispatcher.new) }
{
    match demo_events(dispatcher.alloc, count) {
        Ok(events) => tally_events(dispatcher, events.as_slice(), audit),
        Err(Memory) => Err(DemoFault::Memory),
    }
}

// The same, with a dispatcher that ends after the requests.
fn serve_over<U: AuditSink, K: Vault, L: Ledger, M: Ledger>(
    alloc: Global,
    service: &Service,
    count: u64,
    audit: &mut U,
    vault: &mut K,
    splits: &mut Steps<L>,
    evaluations: &mut Steps<M>,
) -> Result<Summary, DemoFault>
    requires some { 1 ≤ count }
    requires few { count ≤ 2000 }
    requires attached { IsTrue (K.seen vault.old).store.attached }
    requires start { IsTrue (K.seen vault.old).tells → IsStart (application_of service.now)
        (K.seen vault.old).state }
    ensures served { WentTo (span (U.seen audit.old) (U.seen audit.new))
        (TalliesLeaving (application_of service.now)
        (span (run_seen_of (K.seen vault.old) (run_counts splits.old evaluations.old))
        (run_seen_of (K.seen vault.new) (run_counts splits.new evaluations.new)))
        (demo_script count) result) }
    ensures cause { result ≡ Err DemoFault.Write
        → Rose (U.seen audit.old).faults (U.seen audit.new).faults }
    ensures store { (K.seen vault.new).store ≡ (K.seen vault.old).store }
{
    let sessions = Sessions::empty(alloc);
    let mut viewer_caches = ViewerCaches::none(alloc);
    let mut label_texts = LabelTexts::none(alloc);
    let mut dispatcher = AppDispatcher {
        keeper: vault,
        splits,
        evaluations,
        alloc,
        spelling: Spelling::Quoted,
        service,
        sessions: &sessions,
        viewer_caches: &mut viewer_caches,
        lazy: false,
        label_texts: &mut label_texts,
    };
    serve_calendar(&mut dispatcher, count, audit)
}

// Attaches a store without a name, and serves the requests.
fn tally_attached<U: AuditSink, K: Vault, L: Ledger, M: Ledger>(
    service: &Service,
    schema: Txt,
    count: u64,
    audit: &mut U,
    vault: &mut K,
    counts: &mut Counts<'_, '_, L, M>,
) -> Result<Summary, ExitReason>
    requires some { 1 ≤ count }
    requires few { count ≤ 2000 }
    requires first { (K.seen vault.old).store.called ≡ false }
    requires own { schema ≡ schema_text (application_of service.now) }
    requires schema { IsSchema schema (shapes_of (application_of service.now)) }
    ensures served { WentTo (span (U.seen audit.old) (U.seen audit.new))
        (EndsTallying (application_of service.now)
        (span (run_seen_of (K.seen vault.old)
        (run_counts counts.old.splits.now counts.old.evaluations.now))
        (run_seen_of (K.seen vault.new)
        (run_counts counts.new.splits.now counts.new.evaluations.now))) count result) }
    ensures cause { result ≡ Err exits.WriteFault
        → Rose (U.seen audit.old).faults (U.seen audit.new).faults }
    ensures same_splits { counts.new.splits.ghost_name ≡ counts.old.splits.ghost_name }
    ensures same_evaluations { counts.new.evaluations.ghost_name
        ≡ counts.old.evaluations.ghost_name }
{
    match attach(counts.alloc, service, None, schema, vault) {
        Ok(()) => match serve_over(
            counts.alloc,
            service,
            count,
            audit,
            vault,
            counts.splits,
            counts.evaluations,
        ) {
            Ok(summary) => Ok(summary),
            Err(DemoFault::Write) => Err(ExitReason::WriteFault),
            Err(DemoFault::Memory) => Err(ExitReason::Memory),
        },
        Err(exit_reason) => Err(exit_reason),
    }
}

// The same, and puts the summary.
fn tell_attached<O: Sink, U: AuditSink, K: Vault, L: Ledger, M: Ledger>(
    service: &Service,
    schema: Txt,
    count: u64,
    out: &mut O,
    audit: &mut U,
    vault: &mut K,
    counts: &mut Counts<'_, '_, L, M>,
) -> Result<(), ExitReason>
    requires some { 1 ≤ count }
    requires few { count ≤ 2000 }
    requires first { (K.seen vault.old).store.called ≡ false }
    requires own { schema ≡ schema_text (application_of service.now) }
    requires schema { IsSchema schema (shapes_of (application_of service.now)) }
    ensures told { Went (sinks (O.seen out.old) (O.seen out.new) (U.seen audit.old)
        (U.seen audit.new))
        (IsDemoTold (sinks (O.seen out.old) (O.seen out.new) (U.seen audit.old) (U.seen audit.new))
        (application_of service.now)
        (span (run_seen_of (K.seen vault.old)
        (run_counts counts.old.splits.now counts.old.evaluations.now))
        (run_seen_of (K.seen vault.new)
        (run_counts counts.new.splits.now counts.new.evaluations.now))) count result) }
    ensures same_splits { counts.new.splits.ghost_name ≡ counts.old.splits.ghost_name }
    ensures same_evaluations { counts.new.evaluations.ghost_name
        ≡ counts.old.evaluations.ghost_name }
{
    match tally_attached(service, schema, count, audit, vault, counts) {
        Ok(summary) => match put_summary(out, &summary) {
            Ok(()) => Ok(()),
            Err(Failed) => Err(ExitReason::WriteFault),
        },
        Err(exit_reason) => Err(exit_reason),
    }
}

// Aims the audit at no file, attaches the store, and serves the requests.
fn count_calendar<O: Sink, U: AuditSink, K: Vault, L: Ledger, M: Ledger>(
    service: &Service,
    schema: Txt,
    count: u64,
    out: &mut O,
    audit: &mut U,
    vault: &mut K,
    counts: &mut Counts<'_, '_, L, M>,
) -> Result<(), ExitReason>
    requires some { 1 ≤ count }
    requires few { count ≤ 2000 }
    requires first { (K.seen vault.old).store.called ≡ false }
    requires own { schema ≡ schema_text (application_of service.now) }
    requires schema { IsSchema schema (shapes_of (application_of service.now)) }
    ensures ends { WentAimed (sinks (O.seen out.old) (O.seen out.new) (U.seen audit.old)
        (U.seen audit.new))
        (EndsCounting
        (sinks (O.seen out.old) (O.seen out.new) (U.seen audit.old) (U.seen audit.new))
        (application_of service.now)
        (span (run_seen_of (K.seen vault.old)
        (run_counts counts.old.splits.now counts.old.evaluations.now))
        (run_seen_of (K.seen vault.new)
        (run_counts counts.new.splits.now counts.new.evaluations.now))) count result) }
    ensures same_splits { counts.new.splits.ghost_name ≡ counts.old.splits.ghost_name }
    ensures same_evaluations { counts.new.evaluations.ghost_name
        ≡ counts.old.evaluations.ghost_name }
{
    match audit.aim(None) {
        Ok(()) => tell_attached(service, schema, count, out, audit, vault, counts),
        Err(Failed) => Err(ExitReason::WriteFault),
    }
}

// The calendar, ready to be served.
fn open_calendar(alloc: Global) -> Result<Service, ExitReason>
    ensures calendar { IfOk result (λ s. IsApplication calendar_text (application_of s)) }
    ensures unopened { IfErr result (IsUnopened calendar_text) }
{
    match demo_app(alloc) {
        Ok(text) => read_calendar(alloc, &text),
        Err(Memory) => Err(ExitReason::Memory),
    }
}

fn read_calendar(alloc: Global, text: &Bytes) -> Result<Service, ExitReason>
    requires calendar { text.now ≡ calendar_text }
    ensures calendar { IfOk result (λ s. IsApplication calendar_text (application_of s)) }
    ensures unopened { IfErr result (IsUnopened calendar_text) }
{
    match open_app(alloc, text.as_slice()) {
        Ok(service) => Ok(service),
        Err(exit_reason) => Err(exit_reason),
    }
}

/// The steps of a demo. They aim the audit at no file, attach a store without a name, answer the
/// first `count` requests of `jac_demo` to its calendar without output, and put their summary.
pub fn demo<O: Sink, U: AuditSink, K: Vault, L: Ledger, M: Ledger>(
    count: u64,
    out: &mut O,
    audit: &mut U,
    vault: &mut K,
    counts: &mut Counts<'_, '_, L, M>,
) -> Result<(), ExitReason>
    requires some { 1 ≤ count }
    requires few { count ≤ 2000 }
    requires first { (K.seen vault.old).store.called ≡ false }
    ensures ends { WentAimed (sinks (O.seen out.old) (O.seen out.new) (U.seen audit.old)
        (U.seen audit.new))
        (EndsDemo (sinks (O.seen out.old) (O.seen out.new) (U.seen audit.old) (U.seen audit.new))
        (span (run_seen_of (K.seen vault.old)
        (run_counts counts.old.splits.now counts.old.evaluations.now))
        (run_seen_of (K.seen vault.new)
        (run_counts counts.new.splits.now counts.new.evaluations.now))) count result) }
    ensures same_splits { counts.new.splits.ghost_name ≡ counts.old.splits.ghost_name }
    ensures same_evaluations { counts.new.evaluations.ghost_name
        ≡ counts.old.evaluations.ghost_name }
{
    let service = match open_calendar(counts.alloc) {
        Ok(service) => service,
        Err(exit_reason) => return Err(exit_reason),
    };
    let schema = match service.schema(counts.alloc) {
        Ok(schema) => schema,
        Err(Memory) => return Err(ExitReason::Memory),
    };
    count_calendar(&service, schema, count, out, audit, vault, counts)
}
