//! The calls of the system, one per function. Each is noted with its result. A request for a file
//! is noted before the call. No other code writes notes.
ghost use Rattle.std.specs.Prelude.{◌≡◌, ◌≤◌, ◌<◌, [], ◌∷◌, Some, None, length, take, IfOk, OnOk, OnErr, MatchResult};
ghost use Rattle.jac_host.specs.Events.{Asks, Opened, Gave, Took, Aimed, Listens, Came};

use crate::inherited::inherited;
use crate::journal::{Journal, Note};
use crate::room::Room;
use std::fs::File;
use std::io;
use std::io::{ErrorKind, Read, Write};
use std::net::{Ipv4Addr, SocketAddr, TcpListener};

/// Requests a file and opens it.
pub(crate) fn open_file(rt: &HostRuntime, journal: &mut Journal, name: &str) -> io::Result<File>
    ensures { MatchResult result
        (λ _. journal.new.events ≡ Opened name.now ∷ Asks name.now ∷ journal.old.events)
        (λ _. journal.new.events ≡ Asks name.now ∷ journal.old.events) }
{
    *journal = journal.then(&Note::Asks(name));
    let file = File::open(rt, name)?;
    *journal = journal.then(&Note::Opened(name));
    Ok(file)
}

/// Opens a file for an audit. Writes are appended to what it holds. If the file doesn't exist, it
/// is made.
pub(crate) fn open_audit(rt: &HostRuntime, journal: &mut Journal, name: &str) -> io::Result<File>
    ensures { MatchResult result
        (λ _. journal.new.events ≡ Aimed (Some name.now) ∷ journal.old.events)
        (λ _. journal.new.events ≡ journal.old.events) }
{
    let file = File::options().append(true).create(true).open(rt, name)?;
    *journal = journal.then(&Note::Aimed(Some(name)));
    Ok(file)
}

/// Notes that an audit is directed to no file. The system isn't called.
pub(crate) fn aim_nowhere(journal: &mut Journal)
    ensures { journal.new.events ≡ Aimed None ∷ journal.old.events }
{
    *journal = journal.then(&Note::Aimed(None));
}

/// Reads once. A read that has room and gives no bytes is at the end of the input.
pub(crate) fn read_once<R: Read>(
    from: &mut R,
    journal: &mut Journal,
    into: &mut [u8],
) -> io::Result<usize>
    requires room { 0 < length into.old }
    ensures within { IfOk result (λ count. count ≤ length into.new) }
    ensures same_length { length into.new ≡ length into.old }
    ensures noted { MatchResult result
        (λ count. journal.new.events ≡ Gave (take count into.new) ∷ journal.old.events)
        (λ _. journal.new.events ≡ journal.old.events) }
{
    let count = from.read(into)?;
    *journal = journal.then(&Note::Gave(&into[..count]));
    Ok(count)
}

/// Notes that bytes of an earlier read are handed on. The system isn't called.
pub(crate) fn hand_on(journal: &mut Journal, bytes: &[u8])
    ensures { journal.new.events ≡ Gave bytes.now ∷ journal.old.events }
{
    *journal = journal.then(&Note::Gave(bytes));
}

/// Notes that nothing came in time. It counts as a read at the end of the input.
pub(crate) fn none_came(journal: &mut Journal)
    ensures { journal.new.events ≡ Gave [] ∷ journal.old.events }
{
    *journal = journal.then(&Note::Gave(&[]));
}

/// Writes once.
pub(crate) fn write_once<W: Write>(
    to: &mut W,
    journal: &mut Journal,
    bytes: &[u8],
) -> io::Result<usize>
    ensures within { IfOk result (λ count. count ≤ length bytes.now) }
    ensures noted { MatchResult result
        (λ count. journal.new.events ≡ Took (take count bytes.now) ∷ journal.old.events)
        (λ _. journal.new.events ≡ journal.old.events) }
{
    let count = to.write(bytes)?;
    *journal = journal.then(&Note::Took(&bytes[..count]));
    Ok(count)
}

/// Notes that bytes are dropped, because the audit is directed to no file. The system isn't called.
pub(crate) fn drop_bytes(journal: &mut Journal, bytes: &[u8])
    ensures { journal.new.events ≡ Took bytes.now ∷ journal.old.events }
{
    *journal = journal.then(&Note::Took(bytes));
}

/// Listens on this port of the loopback address, which no other machine reaches. If a listening
/// socket was handed in, that one is used. It must have this address.
pub(crate) fn listen(rt: &HostRuntime, journal: &mut Journal, port: u16) -> io::Result<Room>
    ensures { MatchResult result
        (λ _. journal.new.events ≡ Listens port ∷ journal.old.events)
        (λ _. journal.new.events ≡ journal.old.events) }
{
    let room = Room::open(rt, listener_of(rt, local_address(port))?)?;
    *journal = journal.then(&Note::Listens(port));
    Ok(room)
}

/// The loopback address with this port.
pub(crate) fn local_address(port: u16) -> SocketAddr {
    SocketAddr::from((Ipv4Addr::LOCALHOST, port))
}

// The listener that was handed in, or a new one. A listener that was handed in must have this
// address. The queue of a new one is as long as the system allows.
fn listener_of(rt: &HostRuntime, address: SocketAddr) -> io::Result<TcpListener> {
    let Some(listener) = inherited(rt) else {
        return Ok(TcpListener::from(mio::net::TcpListener::bind(rt, address)?));
    };
    if listener.local_addr()? != address {
        return Err(io::Error::from(ErrorKind::AddrNotAvailable));
    }
    Ok(listener)
}

/// Notes that a connection came. Its own journal continues that of its door.
pub(crate) fn one_came(journal: &mut Journal) -> Journal
    ensures door { journal.new.events ≡ Came ∷ journal.old.events }
    ensures link { result.events ≡ Came ∷ journal.old.events }
{
    let link = journal.then(&Note::Came);
    *journal = journal.then(&Note::Came);
    link
}
