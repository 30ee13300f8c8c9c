ghost use Rattle.std.specs.Prelude.{◌≡◌, ◌<◌, length};
ghost use Rattle.jac_io.specs.Linked.{LinkSeen, DoorSeen, Takes, PutsOn, Listens, AsksNext, Returns};

use crate::Failed;

/// A connection: bytes are taken from it and put on it.
pub trait Link {
    /// What contracts see of it. Its count of faults never falls, and stops at 2^64 - 1.
    ghost seen: { Self → LinkSeen };

    /// Writes the next bytes of the input to the front of `into`, and gives their number. It is 0
    /// only at the end of the input. After `Failed` none of the input was taken.
    fn take(&mut self, into: &mut [u8]) -> Result<usize, Failed>
        requires { 0 < length into.old }
        ensures takes { Takes (seen self.old) (seen self.new) into.new result }
        ensures same_length { length into.new ≡ length into.old };

    /// Appends the bytes to those that were put. After `Failed` a prefix of them was appended.
    fn put(&mut self, bytes: &[u8]) -> Result<(), Failed>
        ensures { PutsOn (seen self.old) (seen self.new) bytes.now result };
}

/// A listening socket: it gives a link for each connection that arrives.
pub trait Door {
    type Line: Link + Drop;

    /// What contracts see of it. Its count of faults never falls, and stops at 2^64 - 1.
    ghost seen: { Self → DoorSeen Self.Line };

    /// Listens on this port. After `Failed` it listens where it did before.
    fn listen(&mut self, port: u16) -> Result<(), Failed>
        ensures { Listens (seen self.old) (seen self.new) port result };

    /// Waits for the next connection. `None` if no more will come.
    fn next(&mut self) -> Result<Option<Self::Line>, Failed>
        ensures { AsksNext (seen self.old) (seen self.new) result };

    /// Ends the connection.
    fn close(&mut self, line: Self::Line) -> Result<(), Failed>
        ensures { Returns (seen self.old) (seen self.new) line result };
}
