ghost use Rattle.std.specs.Prelude.{◌≡◌};
ghost use Rattle.jac_io.specs.Seen.{SinkSeen, Puts, Aims};

use jac_value::Txt;

/// A call on the outside failed.
#[derive(Clone, Copy, Debug, PartialEq, Eq)]
pub struct Failed;

/// An output: bytes are put into it.
pub trait Sink {
    /// What contracts see of it. Its count of faults never falls, and stops at 2^64 - 1.
    ghost seen: { Self → SinkSeen };

    /// Appends the bytes. After `Failed` a prefix of them was appended.
    fn put(&mut self, bytes: &[u8]) -> Result<(), Failed>
        ensures { Puts (seen self.old) (seen self.new) bytes.now result };
}

/// The sink of the audit lines. `aim` gives it the file to write to.
pub trait AuditSink: Sink {
    /// Bytes that are put after this go to the file of this name. Without a name they are
    /// discarded.
    fn aim(&mut self, name: Option<Txt>) -> Result<(), Failed>
        ensures { Aims (Self.seen self.old) (Self.seen self.new) name result };
}
