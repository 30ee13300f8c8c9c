//! Serves the events of a text, line by line.
ghost use Rattle.std.specs.Prelude.{◌≡◌, ◌≤◌, ◌<◌, ◌+◌, ◌^◌, IfOk, length};
ghost use Rattle.jac_events.specs.Lines.{line_of};
ghost use Rattle.jac_hub.specs.Hub.{hub_seen, IsOfConnection};
ghost use Rattle.jac_hub.specs.declared.hub.Turn.TheVariants.{Idle};
ghost use Rattle.jac_serve_events.specs.Dispatcher.{MayServe, KeepsDispatcher, kept};
ghost use Rattle.jac_serve_events.specs.Outside.{WentWith, sinks, span};
ghost use Rattle.jac_serve_events.specs.Serve.{IsFollowing, TakesEvent, AnswersEvent, AnswersLine, ServesAs};

use crate::dispatcher::Dispatch;
use crate::outputs::put_given;
use crate::puts::put_asked;
use jac_events::{Event, LineFault, read_line};
use jac_http::requests_are_read;
use jac_hub::{Hub, HubFault};
use jac_io::{AuditSink, Sink};
use jac_value::first_part;
use std::alloc::Global;

/// Why a line of the events is refused: its number, and that of its connection.
#[derive(Clone, Copy, PartialEq, Eq)]
pub enum EventFault {
    NoForm { line: u64 },
    /// The connection hasn't begun, or has ended.
    NotOpen { line: u64, conn: u32 },
    /// The connection has begun, and hasn't ended.
    AlreadyOpen { line: u64, conn: u32 },
}

/// Why serving the events of a file ended early.
#[derive(Clone, Copy, PartialEq, Eq)]
pub enum ReplayError {
    Refused(EventFault),
    /// A write failed.
    Write,
    Memory,
}

// Lets a hub take the event of a connection, which is on this line.
fn take_event(alloc: Global, hub: &mut Hub, line: u64, event: &Event) -> Result<(), ReplayError>
    requires idle { (hub_seen hub.old).turn ≡ Idle }
    requires connection { IsOfConnection event.now }
    ensures { TakesEvent line (hub_seen hub.old) event.now result (hub_seen hub.new) }
{
    match hub.step(alloc, event) {
        Ok(()) => Ok(()),
        Err(HubFault::NotOpen(conn)) => Err(ReplayError::Refused(EventFault::NotOpen {
            line,
            conn,
        })),
        Err(HubFault::AlreadyOpen(conn)) => {
            Err(ReplayError::Refused(EventFault::AlreadyOpen { line, conn }))
        }
        Err(HubFault::Memory) => match event {
            Event::Begin { .. } => Err(ReplayError::Memory),
            _ => Ok(()),
        },
    }
}

// Serves the event of a connection.
fn serve_connection<D: Dispatch, O: Sink, U: AuditSink>(
    dispatcher: &mut D,
    served: u64,
    line: u64,
    event: &Event,
    hub: &mut Hub,
    out: &mut O,
    audit: &mut U,
) -> Result<u64, ReplayError>
    requires few { served < 2 ^ 63 }
    requires idle { (hub_seen hub.old).turn ≡ Idle }
    requires following { IsFollowing (D.answer_spec (D.seen dispatcher.old).of) (hub_seen hub.old) }
    requires connection { IsOfConnection event.now }
    requires dispatcher { MayServe D.answer_spec (D.seen dispatcher.old) }
    ensures answered { WentWith (sinks (O.seen out.old) (O.seen out.new) (U.seen audit.old)
        (U.seen audit.new))
        (AnswersEvent (D.answer_spec (D.seen dispatcher.old).of) (hub_seen hub.old)
        (hub_seen hub.new)
        (kept (D.seen dispatcher.old) (D.seen dispatcher.new)) served line event.now result) }
    ensures count { IfOk result (λ count. count ≤ served + 2 ^ 26) }
    ensures keeps { KeepsDispatcher D.answer_spec (D.seen dispatcher.old) (D.seen dispatcher.new) }
{
    requests_are_read();
    dispatcher.lawful();
    match take_event(dispatcher.alloc(), hub, line, event) {
        Ok(()) => match put_given(dispatcher, served, hub, out, audit) {
            Ok(brought) => Ok(brought.count),
            Err(_) => Err(ReplayError::Write),
        },
        Err(stopped) => Err(stopped),
    }
}

// Serves an event, and returns the count of replies up to now.
fn serve_event<D: Dispatch, O: Sink, U: AuditSink>(
    dispatcher: &mut D,
    served: u64,
    line: u64,
    event: &Event,
    hub: &mut Hub,
    out: &mut O,
    audit: &mut U,
) -> Result<u64, ReplayError>
    requires few { served < 2 ^ 63 }
    requires idle { (hub_seen hub.old).turn ≡ Idle }
    requires following { IsFollowing (D.answer_spec (D.seen dispatcher.old).of) (hub_seen hub.old) }
    requires dispatcher { MayServe D.answer_spec (D.seen dispatcher.old) }
    ensures answered { WentWith (sinks (O.seen out.old) (O.seen out.new) (U.seen audit.old)
        (U.seen audit.new))
        (AnswersEvent (D.answer_spec (D.seen dispatcher.old).of) (hub_seen hub.old)
        (hub_seen hub.new)
        (kept (D.seen dispatcher.old) (D.seen dispatcher.new)) served line event.now result) }
    ensures count { IfOk result (λ count. count ≤ served + 2 ^ 26) }
    ensures keeps { KeepsDispatcher D.answer_spec (D.seen dispatcher.old) (D.seen dispatcher.new) }
{
    dispatcher.lawful();
    match event {
        Event::Ask {
            viewer,
            method,
            path,
            query,
            body,
        } => {
            let asked = dispatcher.ask(*viewer, method, path, query, body);
            match put_asked(out, audit, served + 1, method.as_bytes(), &asked) {
                Ok(()) => Ok(served + 1),
                Err(_) => Err(ReplayError::Write),
            }
        }
        _ => serve_connection(dispatcher, served, line, event, hub, out, audit),
    }
}

// Serves the line with this number, and returns the count of replies up to now.
fn serve_line<D: Dispatch, O: Sink, U: AuditSink>(
    dispatcher: &mut D,
    served: u64,
    number: u64,
    line: &[u8],
    hub: &mut Hub,
    out: &mut O,
    audit: &mut U,
) -> Result<u64, ReplayError>
    requires few { served < 2 ^ 63 }
    requires idle { (hub_seen hub.old).turn ≡ Idle }
    requires following { IsFollowing (D.answer_spec (D.seen dispatcher.old).of) (hub_seen hub.old) }
    requires dispatcher { MayServe D.answer_spec (D.seen dispatcher.old) }
    ensures answered { WentWith (sinks (O.seen out.old) (O.seen out.new) (U.seen audit.old)
        (U.seen audit.new))
        (AnswersLine (D.answer_spec (D.seen dispatcher.old).of) (hub_seen hub.old)
        (hub_seen hub.new)
        (kept (D.seen dispatcher.old) (D.seen dispatcher.new)) served number (line_of line.now)
        result) }
    ensures count { IfOk result (λ count. count ≤ served + 2 ^ 26) }
    ensures keeps { KeepsDispatcher D.answer_spec (D.seen dispatcher.old) (D.seen dispatcher.new) }
{
    match read_line(dispatcher.alloc(), line) {
        Ok(Some(event)) => serve_event(dispatcher, served, number, &event, hub, out, audit),
        Ok(None) => Ok(served),
        Err(LineFault::BadLine) => Err(ReplayError::Refused(EventFault::NoForm { line: number })),
        Err(LineFault::Memory) => Err(ReplayError::Memory),
    }
}

/// Serves the events of a file, line by line, up to the first line that is refused.
pub fn serve_events<D: Dispatch, O: Sink, U: AuditSink>(
    dispatcher: &mut D,
    bytes: &[u8],
    out: &mut O,
    audit: &mut U,
) -> Result<(), ReplayError>
    requires short { length bytes.now < 2 ^ 32 }
    requires dispatcher { MayServe D.answer_spec (D.seen dispatcher.old) }
    ensures served { WentWith (sinks (O.seen out.old) (O.seen out.new) (U.seen audit.old)
        (U.seen audit.new))
        (ServesAs (D.answer_spec (D.seen dispatcher.old).of) (kept (D.seen dispatcher.old)
        (D.seen dispatcher.new))
        bytes.now result) }
    ensures keeps { KeepsDispatcher D.answer_spec (D.seen dispatcher.old) (D.seen dispatcher.new) }
{
    dispatcher.lawful();
    let mut hub = Hub::new(dispatcher.alloc());
    let mut left = Some(bytes);
    let mut number: u64 = 0;
    let mut served: u64 = 0;
    'lines: while let Some(rest) = left {
        let (line, after) = first_part(rest, b'\n');
        number += 1;
        match serve_line(dispatcher, served, number, line, &mut hub, out, audit) {
            Ok(count) => served = count,
            Err(stopped) => return Err(stopped),
        }
        left = after;
    }
    Ok(())
}
