//! What is taken from a link, and put on it.
ghost use Rattle.std.specs.Prelude.{◌≡◌, IsTrue, []};
ghost use Rattle.jac_io.specs.Seen.{Lasts};
ghost use Rattle.jac_connections.specs.Link.{as_sink};
ghost use Rattle.jac_connections.specs.LinkSteps.{TakesPiece};
ghost use Rattle.jac_serve_events.specs.Outside.{IsPut, Took, span};

use jac_http::{Fixed, fixed_reply};
use jac_io::{Failed, Link};
use jac_replies::Spelling;
use jac_serve_events::ReplyWriter;
use jac_value::Bytes;
use std::alloc::Global;

// The number of bytes that are taken at a time.
const TAKE: usize = 4096;

/// Why there is no piece.
#[derive(Clone, Copy, PartialEq, Eq)]
pub enum TakeError {
    /// The link failed.
    Link,
    Memory,
}

/// The next piece of the input, of at most 4,096 bytes. None at the end of the input.
pub fn take_piece<N: Link>(alloc: Global, link: &mut N) -> Result<Option<Bytes>, TakeError>
    ensures taken { TakesPiece (span (N.seen link.old) (N.seen link.new)) result }
    ensures lasts { Lasts (as_sink (N.seen link.old)) (as_sink (N.seen link.new)) }
    ensures none_put { Took (span (as_sink (N.seen link.old)) (as_sink (N.seen link.new))) [] }
{
    let mut bytes = Vec::new(alloc);
    if bytes.resize(TAKE, 0u8).is_err() {
        return Err(TakeError::Memory);
    }
    match link.take(bytes.as_mut_slice()) {
        Ok(0) => Ok(None),
        Ok(count) => {
            bytes.truncate(count);
            Ok(Some(Bytes::from_vec(bytes)))
        }
        Err(Failed) => Err(TakeError::Link),
    }
}

// One put. Its bytes are named even if the contents of the link aren't known.
fn put_onto<N: Link>(link: &mut N, bytes: &[u8]) -> Result<(), Failed>
    ensures put { IsPut (span (as_sink (N.seen link.old)) (as_sink (N.seen link.new))) bytes.now
        result }
    ensures left { IsTrue (N.seen link.new).tells → (N.seen link.new).left
        ≡ (N.seen link.old).left }
{
    match link.put(bytes) {
        Ok(()) => Ok(()),
        Err(Failed) => Err(Failed),
    }
}

/// A link to which the replies of its connection are written without change.
pub struct Wire<'l, N: Link> {
    pub link: &'l mut N,
}

impl<N: Link> Drop for Wire<'_, N> {
    fn drop(self)
        ensures { self.exit.0.now ≡ self.entry.link.now }
    {
        let Wire { link: _ } = self;
    }
}

impl<N: Link> ReplyWriter for Wire<'_, N> {
    ghost use Rattle.std.specs.Prelude.{List, ℕ};
    ghost use Rattle.jac_replies.specs.declared.reply.Spelling.TheVariants.{Raw};
    ghost use Rattle.jac_connections.specs.LinkSteps.{wire_seen};

    ghost Of = { ℕ };

    ghost Rest = { List ℕ };

    ghost spells = { Raw };

    ghost seen = { wire_seen N.seen };

    fn spelling(&self) -> Spelling {
        Spelling::Raw
    }

    fn write(&mut self, reply: &[u8]) -> Result<(), Failed> {
        put_onto(self.link, reply)
    }

    fn still(&mut self, _conn: u32, status: Fixed, head: bool) -> Result<(), Failed> {
        put_onto(self.link, fixed_reply(status, head))
    }

    fn closed(&mut self, _conn: u32) -> Result<(), Failed> {
        Ok(())
    }
}
