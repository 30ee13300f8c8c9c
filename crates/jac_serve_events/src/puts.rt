//! What is put for the request of an `ask` line: the audit line first, and then the reply.
ghost use Rattle.std.specs.Prelude.{◌++◌, None, decimal};
ghost use Rattle.jac_http.specs.Replies.{status_of_fixed};
ghost use Rattle.jac_replies.specs.Spelled.{audit_text};
ghost use Rattle.jac_serve_events.specs.Outside.{IsPut, PutBoth, WentWith, sinks, span};
ghost use Rattle.jac_serve_events.specs.Serve.{asked_line, asked_audit};

use crate::dispatcher::AskOutcome;
use crate::outputs::FailedSink;
use crate::outside::{put, put_four, put_two};
use itoa::Buffer;
use jac_http::Fixed;
use jac_io::{AuditSink, Failed, Sink};
use jac_replies::{failed_reply, fixed_of, still_status, viewer_bytes};
use jac_value::Id;

/// Puts the lines of the k-th reply, to the request of an `ask` line with this method.
pub fn put_asked<O: Sink, U: AuditSink>(
    out: &mut O,
    audit: &mut U,
    k: u64,
    method: &[u8],
    asked: &AskOutcome,
) -> Result<(), FailedSink>
    ensures put { WentWith (sinks (O.seen out.old) (O.seen out.new) (U.seen audit.old)
        (U.seen audit.new)) (PutBoth (asked_line method.now asked.now) (asked_audit k asked.now)
        result) }
{
    match asked {
        AskOutcome::Answered { reply, audit: rest } => {
            put_lines(out, audit, k, reply.as_slice(), rest.as_bytes())
        }
        AskOutcome::Unanswered { stop, viewer } => put_failed(
            out,
            audit,
            k,
            failed_reply(*stop, method),
            fixed_of(*stop),
            *viewer,
        ),
    }
}

// Puts the lines of the k-th reply. `rest` is the audit line without its number.
fn put_lines<O: Sink, U: AuditSink>(
    out: &mut O,
    audit: &mut U,
    k: u64,
    reply: &[u8],
    rest: &[u8],
) -> Result<(), FailedSink>
    ensures put { WentWith (sinks (O.seen out.old) (O.seen out.new) (U.seen audit.old)
        (U.seen audit.new)) (PutBoth reply.now (decimal k ++ rest.now) result) }
{
    match put_numbered(audit, k, rest) {
        Ok(()) => match put(out, reply) {
            Ok(()) => Ok(()),
            Err(Failed) => Err(FailedSink::Out),
        },
        Err(Failed) => Err(FailedSink::Audit),
    }
}

/// Puts the audit line of the k-th reply. `rest` is the line without its number.
pub fn put_numbered<U: AuditSink>(audit: &mut U, k: u64, rest: &[u8]) -> Result<(), Failed>
    ensures { IsPut (span (U.seen audit.old) (U.seen audit.new)) (decimal k ++ rest.now) result }
{
    let mut buffer = Buffer::new();
    let number = buffer.format(k);
    put_two(audit, number.as_bytes(), rest)
}

// Puts the reply and the audit line of a request that wasn't answered.
fn put_failed<O: Sink, U: AuditSink>(
    out: &mut O,
    audit: &mut U,
    k: u64,
    reply: &[u8],
    status: Fixed,
    viewer: Option<Id>,
) -> Result<(), FailedSink>
    ensures put { WentWith (sinks (O.seen out.old) (O.seen out.new) (U.seen audit.old)
        (U.seen audit.new)) (PutBoth reply.now (audit_text k (status_of_fixed status) viewer None
        None) result) }
{
    match put_failed_audit(audit, k, status, viewer) {
        Ok(()) => match put(out, reply) {
            Ok(()) => Ok(()),
            Err(Failed) => Err(FailedSink::Out),
        },
        Err(Failed) => Err(FailedSink::Audit),
    }
}

/// Puts the audit line of a request that wasn't answered.
pub fn put_failed_audit<U: AuditSink>(
    audit: &mut U,
    k: u64,
    status: Fixed,
    viewer: Option<Id>,
) -> Result<(), Failed>
    ensures { IsPut (span (U.seen audit.old) (U.seen audit.new))
        (audit_text k (status_of_fixed status) viewer None None) result }
{
    let mut number_buffer = Buffer::new();
    let mut viewer_buffer = Buffer::new();
    let number = number_buffer.format(k);
    let viewer = viewer_bytes(&mut viewer_buffer, viewer);
    put_four(
        audit,
        number.as_bytes(),
        still_status(status),
        viewer,
        b" nopage\n",
    )
}
