//! Writes what a hub gives, one output after another: the audit line first, and then the reply.
ghost use Rattle.std.specs.Prelude.{◌≡◌, ◌≤◌, ◌<◌, ◌+◌, ◌-◌, ◌^◌, IfOk};
ghost use Rattle.jac_hub.specs.Hub.{hub_seen, puts_left};
ghost use Rattle.jac_serve_events.specs.Dispatcher.{MayServe, KeepsDispatcher, kept};
ghost use Rattle.jac_serve_events.specs.Outside.{IsPut, PutBoth, WentWith, sinks, span};
ghost use Rattle.jac_serve_events.specs.Serve.{sent_on, sent_audit, PutsOut, PutsOuts};
ghost use Rattle.jac_serve_events.specs.ReplyWriter.{KeepsRest};

use crate::dispatcher::Dispatch;
use crate::puts::{put_failed_audit, put_numbered};
use crate::reply_writer::ReplyWriter;
use jac_hub::{Hub, HubOut, Sent};
use jac_io::{AuditSink, Failed};

/// What an event has brought so far: the count of replies up to now, and whether its connection was
/// closed.
#[derive(Clone, Copy, PartialEq, Eq)]
pub struct EventOutcome {
    pub count: u64,
    pub closed: bool,
}

/// The sink on which a put failed.
#[derive(Clone, Copy, PartialEq, Eq)]
pub enum FailedSink {
    /// The sink of replies.
    Out,
    Audit,
}

/// Why not all that an event brings was written: the sink that failed, and the number of the reply
/// for which it failed, or of the next one.
#[derive(Clone, Copy, PartialEq, Eq)]
pub struct WriteFailure {
    pub lost: FailedSink,
    pub count: u64,
}

// Puts the audit line of the k-th reply.
fn put_line<U: AuditSink>(audit: &mut U, k: u64, sent: &Sent) -> Result<(), Failed>
    ensures { IsPut (span (U.seen audit.old) (U.seen audit.new)) (sent_audit k sent.now) result }
{
    match sent {
        Sent::Made {
            line: _,
            audit: rest,
            close: _,
        } => put_numbered(audit, k, rest.as_slice()),
        Sent::Still {
            status,
            head: _,
            viewer,
        } => put_failed_audit(audit, k, *status, *viewer),
    }
}

fn write_unaudited<T: ReplyWriter>(writer: &mut T, conn: u32, sent: &Sent) -> Result<(), Failed>
    ensures put { IsPut (span (T.seen writer.old).sink (T.seen writer.new).sink)
        (sent_on T.spells conn sent.now) result }
    ensures stays { KeepsRest (T.seen writer.old) (T.seen writer.new) }
{
    match sent {
        Sent::Made {
            line,
            audit: _,
            close: _,
        } => writer.write(line.as_slice()),
        Sent::Still {
            status,
            head,
            viewer: _,
        } => writer.still(conn, *status, *head),
    }
}

// Puts the audit line of the k-th reply, and then the reply.
fn write_audited<T: ReplyWriter, U: AuditSink>(
    writer: &mut T,
    audit: &mut U,
    k: u64,
    conn: u32,
    sent: &Sent,
) -> Result<(), FailedSink>
    ensures put { WentWith (sinks (T.seen writer.old).sink (T.seen writer.new).sink
        (U.seen audit.old) (U.seen audit.new))
        (PutBoth (sent_on T.spells conn sent.now) (sent_audit k sent.now) result) }
    ensures stays { KeepsRest (T.seen writer.old) (T.seen writer.new) }
{
    match put_line(audit, k, sent) {
        Ok(()) => match write_unaudited(writer, conn, sent) {
            Ok(()) => Ok(()),
            Err(Failed) => Err(FailedSink::Out),
        },
        Err(Failed) => Err(FailedSink::Audit),
    }
}

// Writes one output of a hub, after what was written so far.
fn write_out<T: ReplyWriter, U: AuditSink>(
    writer: &mut T,
    audit: &mut U,
    so_far: EventOutcome,
    given: &HubOut,
) -> Result<EventOutcome, FailedSink>
    requires few { so_far.count < 2 ^ 64 - 1 }
    ensures put { WentWith (sinks (T.seen writer.old).sink (T.seen writer.new).sink
        (U.seen audit.old) (U.seen audit.new)) (PutsOut T.spells so_far given.now result) }
    ensures stays { KeepsRest (T.seen writer.old) (T.seen writer.new) }
{
    match given {
        HubOut::Reply { conn, sent } => {
            let count = so_far.count + 1;
            match write_audited(writer, audit, count, *conn, sent) {
                Ok(()) => Ok(EventOutcome {
                    count,
                    closed: so_far.closed,
                }),
                Err(lost) => Err(lost),
            }
        }
        HubOut::Closed { conn } => match writer.closed(*conn) {
            Ok(()) => Ok(EventOutcome {
                count: so_far.count,
                closed: true,
            }),
            Err(Failed) => Err(FailedSink::Out),
        },
    }
}

/// Writes what a hub gives for its last event, after `served` replies.
pub fn put_given<D: Dispatch, T: ReplyWriter, U: AuditSink>(
    dispatcher: &mut D,
    served: u64,
    hub: &mut Hub,
    writer: &mut T,
    audit: &mut U,
) -> Result<EventOutcome, WriteFailure>
    requires few { served + puts_left (hub_seen hub.old) < 2 ^ 64 - 1 }
    requires dispatcher { MayServe D.answer_spec (D.seen dispatcher.old) }
    ensures put { WentWith (sinks (T.seen writer.old).sink (T.seen writer.new).sink
        (U.seen audit.old) (U.seen audit.new))
        (PutsOuts T.spells (D.answer_spec (D.seen dispatcher.old).of) (hub_seen hub.old)
        (hub_seen hub.new)
        (kept (D.seen dispatcher.old) (D.seen dispatcher.new)) served result) }
    ensures stays { KeepsRest (T.seen writer.old) (T.seen writer.new) }
    ensures count { IfOk result (λ brought. brought.count ≤ served + puts_left (hub_seen hub.old)) }
    ensures keeps { KeepsDispatcher D.answer_spec (D.seen dispatcher.old) (D.seen dispatcher.new) }
{
    let spelling = writer.spelling();
    let mut so_far = EventOutcome {
        count: served,
        closed: false,
    };
    'outs: while let Some(given) = dispatcher.next_out(spelling, hub) {
        let told = write_out(writer, audit, so_far, &given);
        drop(given);
        match told {
            Ok(more) => so_far = more,
            Err(lost) => {
                return Err(WriteFailure {
                    lost,
                    count: so_far.count + 1,
                });
            }
        }
    }
    Ok(so_far)
}
