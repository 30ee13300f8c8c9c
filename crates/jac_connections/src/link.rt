//! Serves a link. Its input is the pieces of one connection, and the replies are written to it
//! without change.
ghost use Rattle.std.specs.Prelude.{◌≡◌, ◌<◌, ◌+◌, ◌-◌, ◌^◌, IsSome, IsTrue, OnOk, Err};
ghost use Rattle.jac_io.specs.Faults.{Rose};
ghost use Rattle.jac_serve_events.specs.Dispatcher.{MayServe, KeepsDispatcher, kept};
ghost use Rattle.jac_hub.specs.Hub.{hub_seen, puts_left, new_hub};
ghost use Rattle.jac_hub.specs.declared.hub.Turn.TheVariants.{Idle};
ghost use Rattle.jac_connections.specs.Link.{as_sink, IsLinkServed};
ghost use Rattle.jac_connections.specs.LinkSteps.{MayTake, TakesIn, AnswersOn, ServesPiece, standing_after, cut_by, begun_hub};
ghost use Rattle.jac_replies.specs.declared.reply.Spelling.TheVariants as spellings;
ghost use Rattle.jac_serve_events.specs.Outside.{Went, WentWith, sinks, span};
ghost use Rattle.jac_serve_events.specs.Serve.{IsFollowing, PutsOuts};

use crate::wire::{TakeError, Wire, take_piece};
use jac_events::Event;
use jac_http::requests_are_read;
use jac_hub::{Hub, HubFault};
use jac_io::{AuditSink, Link};
use jac_replies::Spelling;
use jac_serve_events::{Dispatch, EventOutcome, FailedSink, WriteFailure, put_given};
use jac_value::Memory;
use std::alloc::Global;

/// Why serving a link ends the run.
#[derive(Clone, Copy, PartialEq, Eq)]
pub enum Halt {
    /// A put on the audit failed.
    Write,
    Memory,
}

/// The state of a connection after a piece, and the count of replies up to now.
#[derive(Clone, Copy, PartialEq, Eq)]
enum Standing {
    Open { count: u64 },
    Over { count: u64 },
}

// Writes what a hub gives for its last event on the link.
fn put_on<D: Dispatch, N: Link, U: AuditSink>(
    dispatcher: &mut D,
    served: u64,
    hub: &mut Hub,
    link: &mut N,
    audit: &mut U,
) -> Result<EventOutcome, WriteFailure>
    requires few { served + puts_left (hub_seen hub.old) < 2 ^ 64 - 1 }
    requires dispatcher { MayServe D.answer_spec (D.seen dispatcher.old) }
    ensures put { WentWith (sinks (as_sink (N.seen link.old)) (as_sink (N.seen link.new))
        (U.seen audit.old) (U.seen audit.new))
        (PutsOuts spellings.Raw (D.answer_spec (D.seen dispatcher.old).of) (hub_seen hub.old)
        (hub_seen hub.new)
        (kept (D.seen dispatcher.old) (D.seen dispatcher.new)) served result) }
    ensures left { IsTrue (N.seen link.new).tells → (N.seen link.new).left
        ≡ (N.seen link.old).left }
    ensures keeps { KeepsDispatcher D.answer_spec (D.seen dispatcher.old) (D.seen dispatcher.new) }
{
    let mut wire = Wire { link };
    put_given(dispatcher, served, hub, &mut wire, audit)
}

// Lets a hub take a piece. If memory runs out for it, the hub gives the reply that says so.
fn take_in(alloc: Global, hub: &mut Hub, event: &Event)
    requires idle { (hub_seen hub.old).turn ≡ Idle }
    requires piece { MayTake (hub_seen hub.old) event.now }
    ensures { TakesIn (hub_seen hub.old) event.now (hub_seen hub.new) }
{
    match hub.step(alloc, event) {
        Ok(()) => {}
        Err(HubFault::Memory) => {}
        Err(_) => unreachable!(),
    }
}

// Serves a piece of a connection that has begun.
fn serve_event<D: Dispatch, N: Link, U: AuditSink>(
    dispatcher: &mut D,
    served: u64,
    event: &Event,
    hub: &mut Hub,
    link: &mut N,
    audit: &mut U,
) -> Result<EventOutcome, WriteFailure>
    requires few { served < 2 ^ 63 + 2 ^ 26 }
    requires idle { (hub_seen hub.old).turn ≡ Idle }
    requires following { IsFollowing (D.answer_spec (D.seen dispatcher.old).of) (hub_seen hub.old) }
    requires piece { MayTake (hub_seen hub.old) event.now }
    requires dispatcher { MayServe D.answer_spec (D.seen dispatcher.old) }
    ensures answered { WentWith (sinks (as_sink (N.seen link.old)) (as_sink (N.seen link.new))
        (U.seen audit.old) (U.seen audit.new))
        (AnswersOn (D.answer_spec (D.seen dispatcher.old).of) (hub_seen hub.old) (hub_seen hub.new)
        (kept (D.seen dispatcher.old) (D.seen dispatcher.new)) served event.now result) }
    ensures left { IsTrue (N.seen link.new).tells → (N.seen link.new).left
        ≡ (N.seen link.old).left }
    ensures keeps { KeepsDispatcher D.answer_spec (D.seen dispatcher.old) (D.seen dispatcher.new) }
{
    requests_are_read();
    dispatcher.lawful();
    take_in(dispatcher.alloc(), hub, event);
    put_on(dispatcher, served, hub, link, audit)
}

// The state of a connection after a piece.
fn stands(brought: EventOutcome) -> Standing
    ensures { result ≡ standing_after brought }
{
    if brought.closed {
        Standing::Over {
            count: brought.count,
        }
    } else {
        Standing::Open {
            count: brought.count,
        }
    }
}

// The state after a piece for which not all was written. A link that failed ends only its own
// connection.
fn cut_short(cut: WriteFailure) -> Result<Standing, Halt>
    ensures { result ≡ cut_by cut.lost cut.count }
{
    match cut.lost {
        FailedSink::Out => Ok(Standing::Over { count: cut.count }),
        FailedSink::Audit => Err(Halt::Write),
    }
}

// Takes a piece of connection `conn` and serves it.
fn serve_piece<D: Dispatch, N: Link, U: AuditSink>(
    dispatcher: &mut D,
    conn: u32,
    served: u64,
    hub: &mut Hub,
    link: &mut N,
    audit: &mut U,
) -> Result<Standing, Halt>
    requires few { served < 2 ^ 63 + 2 ^ 26 }
    requires idle { (hub_seen hub.old).turn ≡ Idle }
    requires following { IsFollowing (D.answer_spec (D.seen dispatcher.old).of) (hub_seen hub.old) }
    requires begun { IsSome ((hub_seen hub.old).channels conn) }
    requires dispatcher { MayServe D.answer_spec (D.seen dispatcher.old) }
    ensures served { Went (sinks (as_sink (N.seen link.old)) (as_sink (N.seen link.new))
        (U.seen audit.old) (U.seen audit.new))
        (ServesPiece (D.answer_spec (D.seen dispatcher.old).of) conn (hub_seen hub.old)
        (hub_seen hub.new)
        (span (N.seen link.old) (N.seen link.new)) (kept (D.seen dispatcher.old)
        (D.seen dispatcher.new)) served
        result) }
    ensures cause { result ≡ Err Halt.Write
        → Rose (U.seen audit.old).faults (U.seen audit.new).faults }
    ensures keeps { KeepsDispatcher D.answer_spec (D.seen dispatcher.old) (D.seen dispatcher.new) }
{
    match take_piece(dispatcher.alloc(), link) {
        Ok(Some(bytes)) => {
            let event = Event::Piece { conn, bytes };
            match serve_event(dispatcher, served, &event, hub, link, audit) {
                Ok(brought) => Ok(stands(brought)),
                Err(cut) => cut_short(cut),
            }
        }
        Ok(None) => Ok(Standing::Over { count: served }),
        Err(TakeError::Link) => Ok(Standing::Over { count: served }),
        Err(TakeError::Memory) => Err(Halt::Memory),
    }
}

// Begins a connection, from which nothing comes yet.
fn begin<D: Dispatch>(dispatcher: &mut D, conn: u32, hub: &mut Hub) -> Result<(), Memory>
    requires new { hub_seen hub.old ≡ new_hub }
    requires dispatcher { MayServe D.answer_spec (D.seen dispatcher.old) }
    ensures begun { OnOk result (hub_seen hub.new ≡ begun_hub conn) }
    ensures still { (D.seen dispatcher.new).run_seen ≡ (D.seen dispatcher.old).run_seen }
    ensures keeps { KeepsDispatcher D.answer_spec (D.seen dispatcher.old) (D.seen dispatcher.new) }
{
    match hub.step(dispatcher.alloc(), &Event::Begin { conn }) {
        Ok(()) => {
            let _none = dispatcher.next_out(Spelling::Raw, hub);
            Ok(())
        }
        Err(_) => Err(Memory),
    }
}

// Serves the pieces of a connection that has just begun.
fn serve_pieces<D: Dispatch, N: Link, U: AuditSink>(
    dispatcher: &mut D,
    conn: u32,
    first: u64,
    hub: &mut Hub,
    link: &mut N,
    audit: &mut U,
) -> Result<u64, Halt>
    requires few { first < 2 ^ 63 }
    requires begun { hub_seen hub.old ≡ begun_hub conn }
    requires dispatcher { MayServe D.answer_spec (D.seen dispatcher.old) }
    ensures served { Went (sinks (as_sink (N.seen link.old)) (as_sink (N.seen link.new))
        (U.seen audit.old) (U.seen audit.new))
        (IsLinkServed (D.answer_spec (D.seen dispatcher.old).of) conn first
        (span (N.seen link.old) (N.seen link.new)) (kept (D.seen dispatcher.old)
        (D.seen dispatcher.new))
        result) }
    ensures cause { result ≡ Err Halt.Write
        → Rose (U.seen audit.old).faults (U.seen audit.new).faults }
    ensures keeps { KeepsDispatcher D.answer_spec (D.seen dispatcher.old) (D.seen dispatcher.new) }
{
    requests_are_read();
    dispatcher.lawful();
    let mut count = first;
    'pieces: loop {
        match serve_piece(dispatcher, conn, count, hub, link, audit) {
            Ok(Standing::Open { count: more }) => count = more,
            Ok(Standing::Over { count: last }) => return Ok(last - first),
            Err(halt) => return Err(halt),
        }
    }
}

/// Serves the connection with this number, after `first` replies, and returns the count of its own
/// replies. A fault of the link ends only this connection.
pub fn serve_link<D: Dispatch, N: Link, U: AuditSink>(
    dispatcher: &mut D,
    conn: u32,
    first: u64,
    link: &mut N,
    audit: &mut U,
) -> Result<u64, Halt>
    requires few { first < 2 ^ 63 }
    requires dispatcher { MayServe D.answer_spec (D.seen dispatcher.old) }
    ensures served { Went (sinks (as_sink (N.seen link.old)) (as_sink (N.seen link.new))
        (U.seen audit.old) (U.seen audit.new))
        (IsLinkServed (D.answer_spec (D.seen dispatcher.old).of) conn first
        (span (N.seen link.old) (N.seen link.new)) (kept (D.seen dispatcher.old)
        (D.seen dispatcher.new))
        result) }
    ensures cause { result ≡ Err Halt.Write
        → Rose (U.seen audit.old).faults (U.seen audit.new).faults }
    ensures keeps { KeepsDispatcher D.answer_spec (D.seen dispatcher.old) (D.seen dispatcher.new) }
{
    dispatcher.lawful();
    let mut hub = Hub::new(dispatcher.alloc());
    match begin(dispatcher, conn, &mut hub) {
        Ok(()) => serve_pieces(dispatcher, conn, first, &mut hub, link, audit),
        Err(Memory) => Err(Halt::Memory),
    }
}
