//! Serves the links of a door, one after another.
ghost use Rattle.std.specs.Prelude.{◌≡◌, ◌≤◌, ◌<◌, ◌*◌, ◌-◌, ◌^◌, IfOk, IfSome, IsTrue, Err};
ghost use Rattle.jac_io.specs.Faults.{Rose};
ghost use Rattle.jac_io.specs.Linked.{DoorLasts};
ghost use Rattle.jac_serve_events.specs.Dispatcher.{MayServe, KeepsDispatcher, kept};
ghost use Rattle.jac_connections.specs.Door.{AreLinksServed};
ghost use Rattle.jac_connections.specs.DoorSteps.{VisitsLine, ServesNext};
ghost use Rattle.jac_serve_events.specs.Outside.{WentTo, span};

use crate::link::{Halt, serve_link};
use jac_io::{AuditSink, Door, Failed};
use jac_serve_events::Dispatch;

/// The number of connections that were served, and of their replies.
#[derive(Clone, Copy, PartialEq, Eq)]
pub struct Tally {
    pub connections: u32,
    pub replies: u64,
}

/// Why serving a door ended early.
#[derive(Clone, Copy, PartialEq, Eq)]
pub enum DoorHalt {
    /// The door gave no link, or took none back after it was served whole.
    Door,
    /// A put on the audit failed.
    Write,
    Memory,
}

// Serves this link as the next connection, and hands it back. If serving the link ended early, the
// result is the same whether or not the close fails.
fn serve_line<K: Dispatch, D: Door, U: AuditSink>(
    dispatcher: &mut K,
    tally: Tally,
    line: D::Line,
    door: &mut D,
    audit: &mut U,
) -> Result<Tally, DoorHalt>
    requires few { tally.connections < 2 ^ 32 - 1 }
    requires few_replies { tally.replies ≤ tally.connections * 2 ^ 25 }
    requires dispatcher { MayServe K.answer_spec (K.seen dispatcher.old) }
    ensures served { WentTo (span (U.seen audit.old) (U.seen audit.new))
        (VisitsLine D.Line.seen (K.answer_spec (K.seen dispatcher.old).of) tally line
        (span (D.seen door.old) (D.seen door.new)) (kept (K.seen dispatcher.old)
        (K.seen dispatcher.new))
        result) }
    ensures lasts { DoorLasts (D.seen door.old) (D.seen door.new) }
    ensures same_port { IsTrue (D.seen door.new).tells → (D.seen door.new).port
        ≡ (D.seen door.old).port }
    ensures same_coming { IsTrue (D.seen door.new).tells → (D.seen door.new).coming
        ≡ (D.seen door.old).coming }
    ensures few_replies { IfOk result (λ more. more.replies ≤ more.connections * 2 ^ 25) }
    ensures cause { result ≡ Err DoorHalt.Write
        → Rose (U.seen audit.old).faults (U.seen audit.new).faults }
    ensures keeps { KeepsDispatcher K.answer_spec (K.seen dispatcher.old) (K.seen dispatcher.new) }
{
    let mut line = line;
    let connections = tally.connections + 1;
    let served = serve_link(dispatcher, connections, tally.replies, &mut line, audit);
    let closed = door.close(line);
    match served {
        Ok(count) => match closed {
            Ok(()) => Ok(Tally {
                connections,
                replies: tally.replies + count,
            }),
            Err(Failed) => Err(DoorHalt::Door),
        },
        Err(halt) => match halt {
            Halt::Write => Err(DoorHalt::Write),
            Halt::Memory => Err(DoorHalt::Memory),
        },
    }
}

// Serves the door's next link. Returns none if there is no more.
fn serve_next<K: Dispatch, D: Door, U: AuditSink>(
    dispatcher: &mut K,
    tally: Tally,
    door: &mut D,
    audit: &mut U,
) -> Result<Option<Tally>, DoorHalt>
    requires few { tally.connections < 2 ^ 32 - 1 }
    requires few_replies { tally.replies ≤ tally.connections * 2 ^ 25 }
    requires dispatcher { MayServe K.answer_spec (K.seen dispatcher.old) }
    ensures served { WentTo (span (U.seen audit.old) (U.seen audit.new))
        (ServesNext D.Line.seen (K.answer_spec (K.seen dispatcher.old).of) tally
        (span (D.seen door.old) (D.seen door.new)) (kept (K.seen dispatcher.old)
        (K.seen dispatcher.new))
        result) }
    ensures lasts { DoorLasts (D.seen door.old) (D.seen door.new) }
    ensures same_port { IsTrue (D.seen door.new).tells → (D.seen door.new).port
        ≡ (D.seen door.old).port }
    ensures few_replies { IfOk result (λ next. IfSome next (λ more. more.replies ≤ more.connections
        * 2 ^ 25)) }
    ensures cause { result ≡ Err DoorHalt.Write
        → Rose (U.seen audit.old).faults (U.seen audit.new).faults }
    ensures keeps { KeepsDispatcher K.answer_spec (K.seen dispatcher.old) (K.seen dispatcher.new) }
{
    match door.next() {
        Ok(Some(line)) => match serve_line(dispatcher, tally, line, door, audit) {
            Ok(more) => Ok(Some(more)),
            Err(halt) => Err(halt),
        },
        Ok(None) => Ok(None),
        Err(Failed) => Err(DoorHalt::Door),
    }
}

/// Serves at most `most` links of the door, as connections numbered from 1, and hands each of them
/// back. A link during which serving ends is handed back too. If the door doesn't take it, the halt
/// is still `Write` or `Memory`.
pub fn serve_links<K: Dispatch, D: Door, U: AuditSink>(
    dispatcher: &mut K,
    most: u32,
    door: &mut D,
    audit: &mut U,
) -> Result<Tally, DoorHalt>
    requires dispatcher { MayServe K.answer_spec (K.seen dispatcher.old) }
    ensures served { WentTo (span (U.seen audit.old) (U.seen audit.new))
        (AreLinksServed D.Line.seen (K.answer_spec (K.seen dispatcher.old).of) most
        (span (D.seen door.old) (D.seen door.new)) (kept (K.seen dispatcher.old)
        (K.seen dispatcher.new))
        result) }
    ensures lasts { DoorLasts (D.seen door.old) (D.seen door.new) }
    ensures same_port { IsTrue (D.seen door.new).tells → (D.seen door.new).port
        ≡ (D.seen door.old).port }
    ensures cause { result ≡ Err DoorHalt.Write
        → Rose (U.seen audit.old).faults (U.seen audit.new).faults }
    ensures keeps { KeepsDispatcher K.answer_spec (K.seen dispatcher.old) (K.seen dispatcher.new) }
{
    dispatcher.lawful();
    let mut tally = Tally {
        connections: 0,
        replies: 0,
    };
    'links: while tally.connections < most {
        match serve_next(dispatcher, tally, door, audit) {
            Ok(Some(more)) => tally = more,
            Ok(None) => return Ok(tally),
            Err(halt) => return Err(halt),
        }
    }
    Ok(tally)
}
