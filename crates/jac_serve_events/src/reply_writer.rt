//! Where the outputs of a hub are written: in a text, or on a link.
ghost use Rattle.std.specs.Prelude.{◌≡◌, true, false, None, [], OnErr};
ghost use Rattle.jac_http.specs.Replies.{reply_bytes, status_of_fixed};
ghost use Rattle.jac_replies.specs.Spelled.{spelled_bytes};
ghost use Rattle.jac_replies.specs.declared.reply.Spelling.{Spelling as Spells};
ghost use Rattle.jac_replies.specs.declared.reply.Spelling.TheVariants as spellings;
ghost use Rattle.jac_serve_events.specs.Outside.{IsPut, span};
ghost use Rattle.jac_serve_events.specs.Serve.{closed_on};
ghost use Rattle.jac_serve_events.specs.ReplyWriter.{ReplyWriterSeen, KeepsRest};

use crate::outside::{put, put_three};
use itoa::Buffer;
use jac_http::Fixed;
use jac_io::{Failed, Sink};
use jac_replies::{Spelling, still_text};

/// Where the outputs of a hub are written.
pub trait ReplyWriter {
    /// What distinguishes one writer from another.
    ghost Of: { Type 0 };

    /// What writing doesn't change.
    ghost Rest: { Type 0 };

    /// How it spells what is sent on a connection.
    ghost spells: { Spells };

    ghost seen: { Self → ReplyWriterSeen Of Rest };

    fn spelling(&self) -> Spelling
        ensures { result ≡ spells };

    /// Writes a reply in this spelling.
    fn write(&mut self, reply: &[u8]) -> Result<(), Failed>
        ensures put { IsPut (span (seen self.old).sink (seen self.new).sink) reply.now result }
        ensures stays { KeepsRest (seen self.old) (seen self.new) };

    /// Writes a constant reply, which needs no memory.
    fn still(&mut self, conn: u32, status: Fixed, head: bool) -> Result<(), Failed>
        ensures put { IsPut (span (seen self.old).sink (seen self.new).sink)
            (spelled_bytes spells conn
            (reply_bytes (status_of_fixed status) None None [] false head true)) result }
        ensures stays { KeepsRest (seen self.old) (seen self.new) };

    /// Writes that the connection was closed, if the spelling has a line for that.
    fn closed(&mut self, conn: u32) -> Result<(), Failed>
        ensures put { IsPut (span (seen self.old).sink (seen self.new).sink)
            (closed_on spells conn) result }
        ensures quoted { OnErr result (spells ≡ spellings.Quoted) }
        ensures stays { KeepsRest (seen self.old) (seen self.new) };
}

// The text of a replay.
impl<O: Sink> ReplyWriter for O {
    ghost use Rattle.jac_replies.specs.declared.reply.Spelling.TheVariants.{Quoted};
    ghost use Rattle.jac_serve_events.specs.ReplyWriter.{text_seen};

    ghost Of = { Unit {0} };

    ghost Rest = { Unit {0} };

    ghost spells = { Quoted };

    ghost seen = { text_seen O.seen };

    fn spelling(&self) -> Spelling {
        Spelling::Quoted
    }

    fn write(&mut self, reply: &[u8]) -> Result<(), Failed> {
        put(self, reply)
    }

    fn still(&mut self, conn: u32, status: Fixed, head: bool) -> Result<(), Failed> {
        let mut buffer = Buffer::new();
        let number = buffer.format(conn);
        put_three(self, b"sent ", number.as_bytes(), still_text(status, head))
    }

    fn closed(&mut self, conn: u32) -> Result<(), Failed> {
        let mut buffer = Buffer::new();
        let number = buffer.format(conn);
        put_three(self, b"closed ", number.as_bytes(), b"\n")
    }
}
