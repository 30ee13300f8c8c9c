ghost use Rattle.std.specs.Prelude.{◌≡◌, ◌≤◌, ◌<◌, [], ◌∷◌, ◌++◌, length, take, IfOk, OnOk, OnErr, MatchResult};
ghost use Rattle.jac_io.specs.Put.{AddsPrefix};
ghost use Rattle.jac_host.specs.Events.{Gave, Came};
ghost use Rattle.jac_host.specs.HandedLinks.{handed_seen};
ghost use Rattle.jac_host.specs.Held.{HandsOver};
ghost use Rattle.jac_host.specs.Sinks.{took};
ghost use Rattle.jac_host.specs.Wrote.{OnlyWrites};
ghost use Rattle.jac_host.specs.Links.{came, input_at, fresh_link};

use crate::ahead::{Ahead, Input};
use crate::calls::{hand_on, none_came, one_came, write_once};
use crate::faults::counted;
use crate::handed_link::HandedLink;
use crate::journal::Journal;
use crate::outside::Outside;
use crate::pace::Pace;
use jac_io::{Failed, Link};
use std::io;
use std::io::{ErrorKind, Read};
use std::marker::{Model, PhantomData};
use std::net::TcpStream;
use std::time::{Duration, Instant};

// How long a put may take, even if the peer reads slowly.
const PUT_MILLIS: u64 = 3_000;

// How many reads at most discard the input that has arrived when a connection ends.
const LAST_READS: u32 = 64;

/// A connection of the host. Its contents are known as long as each take agreed with the supposed
/// input: the input that is left, and the bytes that writes took. Each put is written at once. The
/// input ends if the peer ended it, or if the host waited in vain for the first byte, the rest of a
/// request, or a further request after a reply. After that nothing is read.
#[derive(Drop)]
pub struct HostLink<O: Outside> {
    rt: HostRuntime,
    outside: PhantomData<O>,
    stream: TcpStream,
    input: Input,
    pace: Pace,
    journal: Journal,
    ended: bool,
    faults: u64,
}

impl<O: Outside> Model for HostLink<O> {
    ghost use Rattle.jac_io.specs.Linked.{LinkSeen};
    ghost use Rattle.jac_host.specs.Held.{HoldsInput};
    ghost use Rattle.jac_host.specs.Links.{link_seen};

    ghost Value = { LinkSeen };

    ghost view = { λ l. link_seen O.inputs l.journal.events l.faults };

    ghost invariant = { λ l. HoldsInput l.journal.events l.input l.ended };
}

impl<O: Outside> Link for HostLink<O> {
    ghost seen = { λ l. l };

    #[tactic(auto, using(crate::proofs::LinkLaws::goes_further, crate::proofs::LinkLaws::at_end, crate::proofs::HeldLaws::taken_on))]
    fn take(&mut self, into: &mut [u8]) -> Result<usize, Failed> {
        if self.ended {
            none_came(&mut self.journal);
            return Ok(0);
        }
        match read_some(
            &self.rt,
            &mut self.stream,
            &mut self.input,
            &mut self.pace,
            &mut self.journal,
            into,
        ) {
            Ok(count) => {
                self.ended = count == 0;
                Ok(count)
            }
            Err(_) => Err(counted(&mut self.faults)),
        }
    }

    fn put(&mut self, bytes: &[u8]) -> Result<(), Failed> {
        match write_whole(
            &self.rt,
            &mut self.stream,
            &mut self.pace,
            &mut self.journal,
            bytes,
        ) {
            Ok(()) => Ok(()),
            Err(_) => Err(counted(&mut self.faults)),
        }
    }
}

// Takes what was read ahead, or reads once if there is nothing. If nothing came in time, the input
// ends. If the clock fails, the next call fails.
#[tactic(auto, using(crate::proofs::HeldLaws::held_taken))]
fn read_some(
    rt: &HostRuntime,
    stream: &mut TcpStream,
    input: &mut Input,
    pace: &mut Pace,
    journal: &mut Journal,
    into: &mut [u8],
) -> io::Result<usize>
    requires room { 0 < length into.old }
    ensures within { IfOk result (λ count. count ≤ length into.new) }
    ensures same_length { length into.new ≡ length into.old }
    ensures noted { MatchResult result
        (λ count. journal.new.events ≡ Gave (take count into.new) ∷ journal.old.events)
        (λ _. journal.new.events ≡ journal.old.events) }
    ensures handed { MatchResult result
        (λ count. HandsOver input.old input.new (take count into.new))
        (λ _. input.new ≡ input.old) }
{
    if input.holds() {
        let count = input.take(into);
        hand_on(journal, &into[..count]);
        keep_pace(rt, pace, &into[..count]);
        return Ok(count);
    }
    let count = read_in_time(rt, stream, input, pace, journal, into)?;
    if count > 0 {
        keep_pace(rt, pace, &into[..count]);
    }
    Ok(count)
}

// The time of a request begins with its first byte.
fn keep_pace(rt: &HostRuntime, pace: &mut Pace, bytes: &[u8]) {
    if let Ok(now) = Instant::now(rt) {
        pace.took(bytes, now);
    }
}

// Reads once, and again after a signal, for as long as the pace allows.
#[tactic(auto, using(crate::proofs::HeldLaws::none_taken, crate::proofs::HeldLaws::read_taken))]
fn read_in_time(
    rt: &HostRuntime,
    stream: &mut TcpStream,
    input: &mut Input,
    pace: &Pace,
    journal: &mut Journal,
    into: &mut [u8],
) -> io::Result<usize>
    requires none_held { input.old.rest ≡ [] }
    requires room { 0 < length into.old }
    ensures within { IfOk result (λ count. count ≤ length into.new) }
    ensures same_length { length into.new ≡ length into.old }
    ensures noted { MatchResult result
        (λ count. journal.new.events ≡ Gave (take count into.new) ∷ journal.old.events)
        (λ _. journal.new.events ≡ journal.old.events) }
    ensures handed { MatchResult result
        (λ count. HandsOver input.old input.new (take count into.new))
        (λ _. input.new ≡ input.old) }
{
    'reads: for _ in 0..u64::MAX {
        let left = pace.left(Instant::now(rt)?);
        if left.is_zero() {
            none_came(journal);
            return Ok(0);
        }
        stream.set_read_timeout(Some(left))?;
        match input.read(stream, into) {
            Ok(count) => {
                hand_on(journal, &into[..count]);
                return Ok(count);
            }
            Err(error) => match error.kind() {
                ErrorKind::Interrupted => {}
                ErrorKind::WouldBlock => {
                    none_came(journal);
                    return Ok(0);
                }
                _ => return Err(error),
            },
        }
    }
    none_came(journal);
    Ok(0)
}

// Writes all the bytes, within the time of a put.
#[tactic(auto, using(crate::proofs::SinkLaws::front_put))]
fn write_whole(
    rt: &HostRuntime,
    stream: &mut TcpStream,
    pace: &mut Pace,
    journal: &mut Journal,
    bytes: &[u8],
) -> io::Result<()>
    ensures ok { OnOk result (took journal.new.events ≡ took journal.old.events ++ bytes.now) }
    ensures err { OnErr result (AddsPrefix (took journal.old.events) (took journal.new.events)
        bytes.now) }
    ensures written { OnlyWrites journal.old.events journal.new.events }
{
    let began = Instant::now(rt)?;
    let mut done = 0;
    'writes: for _ in 0..u64::MAX {
        let now = Instant::now(rt)?;
        if done == bytes.len() {
            pace.put(now);
            return Ok(());
        }
        let left = Duration::from_millis(PUT_MILLIS).saturating_sub(now.duration_since(began));
        stream.set_write_timeout(Some(left))?;
        match write_some(stream, journal, &bytes[done..]) {
            Ok(count) => done += count,
            Err(error) => return Err(error),
        }
    }
    Err(io::Error::from(ErrorKind::WriteZero))
}

// Writes once. After a signal no bytes are written.
fn write_some(stream: &mut TcpStream, journal: &mut Journal, bytes: &[u8]) -> io::Result<usize>
    ensures within { IfOk result (λ count. count ≤ length bytes.now) }
    ensures took { MatchResult result
        (λ count. took journal.new.events ≡ took journal.old.events ++ take count bytes.now)
        (λ _. took journal.new.events ≡ took journal.old.events) }
    ensures written { OnlyWrites journal.old.events journal.new.events }
{
    match write_once(stream, journal, bytes) {
        Ok(count) => Ok(count),
        Err(error) => match error.kind() {
            ErrorKind::Interrupted => Ok(0),
            _ => Err(error),
        },
    }
}

/// The link of a connection that came at `now`. It is the next connection of its door.
pub(crate) fn link_of<O: Outside>(
    rt: &HostRuntime,
    door: &mut Journal,
    stream: TcpStream,
    ahead: Ahead,
    now: Instant,
) -> HostLink<O>
    ensures fresh { result ≡ fresh_link (input_at O.inputs (came door.old.events)) }
    ensures door { door.new.events ≡ Came ∷ door.old.events }
{
    HostLink {
        rt: *rt,
        outside: PhantomData,
        stream,
        input: Input::new(ahead),
        pace: Pace::new(now),
        journal: one_came(door),
        ended: false,
        faults: 0,
    }
}

/// Ends a connection, and returns what is left of it for contracts.
pub(crate) fn let_go<O: Outside>(line: HostLink<O>) -> HandedLink
    ensures { handed_seen O.inputs result ≡ line }
{
    let HostLink {
        stream,
        journal,
        faults,
        ..
    } = line;
    let mut stream = stream;
    read_away(&mut stream);
    HandedLink { journal, faults }
}

// Discards the input that has arrived, without waiting for more. A connection that ends with unread
// input is reset, and its peer may lose the last reply (RFC 9112, section 9.6).
fn read_away(stream: &mut TcpStream) {
    let mut rest = [0u8; 4096];
    if stream.set_nonblocking(true).is_err() {
        return;
    }
    'reads: for _ in 0..LAST_READS {
        match stream.read(&mut rest) {
            Ok(0) => return,
            Ok(_) => {}
            Err(_) => return,
        }
    }
}
