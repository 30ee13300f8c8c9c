//! What is read from a connection before it is handed out, and the input that its link takes.
ghost use Rattle.std.specs.Prelude.{◌≡◌, ◌≤◌, ◌<◌, false, [], ◌++◌, length, take, IfOk, MatchResult};
ghost use Rattle.jac_host.specs.Held.{Held};

use crate::calls::read_once;
use crate::frames::{Spot, ends_request};
use crate::journal::Journal;
use std::alloc::Global;
use std::io;
use std::marker::Model;
use std::net::TcpStream;

// How many bytes a read asks for.
const CHUNK: usize = 8_192;

// How many bytes the head of a request may have.
const HEAD: usize = 8_192;

// How many bytes are held at most: a head and a body.
const MOST: usize = 73_728;

/// What reads gave from a waiting connection. Each read is noted when it is made.
#[derive(Drop)]
pub(crate) struct Ahead {
    bytes: Vec<u8>,
    reads: Journal,
    spot: Spot,
    whole: bool,
}

impl Model for Ahead {
    ghost use Rattle.std.specs.Prelude.{◌≡◌, ℕ, List};
    ghost use Rattle.jac_host.specs.Gave.{bytes_given};

    ghost Value = { List ℕ };

    ghost view = { λ a. a.bytes.items };

    ghost invariant = { λ a. bytes_given a.reads.events ≡ a.bytes.items };
}

impl Ahead {
    pub(crate) fn new(alloc: Global) -> Ahead {
        Ahead {
            bytes: Vec::new(alloc),
            reads: Journal::new(),
            spot: Spot::Between,
            whole: false,
        }
    }

    /// Reads once and returns the number of bytes, which is 0 if the peer ended the connection. If
    /// memory runs out, it fails and reads nothing.
    pub(crate) fn read(&mut self, stream: &mut TcpStream) -> io::Result<usize> {
        self.bytes.reserve_exact(CHUNK)?;
        let mut chunk = [0u8; CHUNK];
        let count = read_once(stream, &mut self.reads, &mut chunk)?;
        match self.bytes.extend_from_slice(&chunk[..count]) {
            Ok(()) => {}
            Err(_) => unreachable!(),
        }
        let ends = ends_request(&mut self.spot, &chunk[..count]);
        self.whole = self.whole || ends;
        Ok(count)
    }

    /// Whether a whole request was read, or as much as the host waits for.
    pub(crate) fn is_enough(&self) -> bool {
        let count = self.bytes.len();
        self.whole || count >= MOST || count > HEAD && !self.spot.is_in_body()
    }
}

/// The input of a connection: what was read ahead, and then what further reads give.
#[derive(Drop)]
pub(crate) struct Input {
    bytes: Vec<u8>,
    taken: usize,
    reads: Journal,
}

impl Model for Input {
    ghost use Rattle.std.specs.Prelude.{◌≤◌, drop, length};
    ghost use Rattle.jac_host.specs.Gave.{bytes_given};
    ghost use Rattle.jac_host.specs.Held.{Held};

    ghost Value = { Held };

    ghost view = { λ i. record {
      whole = bytes_given i.reads.events;
      rest = drop i.taken i.bytes.items;
    } };

    ghost invariant = { λ i. i.taken ≤ length i.bytes.items };
}

impl Input {
    /// The input of a connection from which nothing was taken.
    pub(crate) fn new(ahead: Ahead) -> Input
        ensures { result.rest ≡ result.whole }
    {
        let Ahead { bytes, reads, .. } = ahead;
        Input {
            bytes,
            taken: 0,
            reads,
        }
    }

    /// Whether some bytes that were read ahead weren't taken yet.
    pub(crate) fn holds(&self) -> bool
        ensures { result ≡ false → self.now.rest ≡ [] }
    {
        self.taken < self.bytes.len()
    }

    /// Takes bytes that were read ahead.
    pub(crate) fn take(&mut self, into: &mut [u8]) -> usize
        ensures within { result ≤ length into.new }
        ensures same_length { length into.new ≡ length into.old }
        ensures whole { self.new.whole ≡ self.old.whole }
        ensures front { self.old.rest ≡ take result into.new ++ self.new.rest }
    {
        let rest = &self.bytes[self.taken..];
        let count = rest.len().min(into.len());
        into[..count].copy_from_slice(&rest[..count]);
        self.taken += count;
        count
    }

    /// Reads once.
    pub(crate) fn read(&mut self, stream: &mut TcpStream, into: &mut [u8]) -> io::Result<usize>
        requires room { 0 < length into.old }
        ensures within { IfOk result (λ count. count ≤ length into.new) }
        ensures same_length { length into.new ≡ length into.old }
        ensures rest { self.new.rest ≡ self.old.rest }
        ensures whole { MatchResult result
            (λ count. self.new.whole ≡ self.old.whole ++ take count into.new)
            (λ _. self.new ≡ self.old) }
    {
        read_once(stream, &mut self.reads, into)
    }
}
