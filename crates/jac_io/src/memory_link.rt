ghost use Rattle.std.specs.Prelude.{◌≡◌, ◌↔◌, ◌<◌, [], true, IfOk, IsErr, IsTrue, length, take};
ghost use Rattle.jac_io.specs.Linked.{Takes, PutsOn};

use crate::pieces::Input;
use crate::{Calls, Failed, Link, Pieces};
use jac_value::Memory;
use std::alloc::Global;
use std::marker::Model;

/// A link in memory. A call fails if its number is listed. A put also fails if its bytes don't fit
/// into the room that is left. A take gives the first nonempty piece, or the front of it if the
/// piece is longer than `into`. Calls of `take` and `put` are counted together.
#[derive(Debug, Drop)]
pub struct MemoryLink {
    input: Input,
    taken: Vec<u8>,
    room: usize,
    fails: Calls,
    calls: u64,
    faults: u64,
}

impl Model for MemoryLink {
    ghost use Rattle.std.specs.Prelude.{◌≤◌, vec_len, vec_capacity};
    ghost use Rattle.jac_io.specs.LinkState.{LinkState};

    ghost Value = { LinkState };

    ghost view = { λ m. record { pieces = m.input; held = m.taken.items; room = m.room; fails = m.fails; calls = m.calls; faults = m.faults } };

    ghost invariant = { λ m. (vec_len m.taken ≤ m.room) × (m.room ≤ vec_capacity m.taken) };
}

impl MemoryLink {
    /// Allocates the room at once, so that no later call takes memory.
    pub fn new(
        alloc: Global,
        pieces: Pieces,
        room: usize,
        fails: Calls,
    ) -> Result<MemoryLink, Memory>
        ensures { IfOk result (λ l. l ≡ record {
          pieces = pieces;
          held = [];
          room = room;
          fails = fails;
          calls = 0;
          faults = 0;
        }) }
    {
        let taken = Vec::with_capacity(alloc, room)?;
        Ok(MemoryLink {
            input: Input::of_pieces(pieces),
            taken,
            room,
            fails,
            calls: 0,
            faults: 0,
        })
    }

    /// The bytes that were put.
    pub fn taken(&self) -> &[u8]
        ensures { result.now ≡ self.now.held }
    {
        self.taken.as_slice()
    }
}

impl Link for MemoryLink {
    ghost use Rattle.jac_io.specs.LinkState.{take_fails, put_on_fails, taken_now, after_take, after_put_on, seen_link};

    ghost seen = { seen_link };

    #[tactic(auto, using(crate::proofs::PieceLaws::front_and_cut, crate::proofs::PieceLaws::joined_from_next, crate::proofs::PieceLaws::empty_front))]
    fn take(&mut self, into: &mut [u8]) -> Result<usize, Failed>
        requires { 0 < length into.old }
        ensures left { self.new ≡ after_take self.old (length into.old) }
        ensures failed { IsErr result ↔ IsTrue (take_fails self.old) }
        ensures given { IfOk result (λ count. take count into.new ≡ taken_now self.old
            (length into.old)) }
        ensures takes { Takes (seen_link self.old) (seen_link self.new) into.new result }
        ensures same_length { length into.new ≡ length into.old }
    {
        self.calls = self.calls.saturating_add(1);
        if self.fails.lists(self.calls) {
            self.faults = self.faults.saturating_add(1);
            return Err(Failed);
        }
        Ok(self.input.take(into))
    }

    fn put(&mut self, bytes: &[u8]) -> Result<(), Failed>
        ensures left { self.new ≡ after_put_on self.old bytes.now }
        ensures failed { IsErr result ↔ IsTrue (put_on_fails self.old bytes.now) }
        ensures puts { PutsOn (seen_link self.old) (seen_link self.new) bytes.now result }
    {
        self.calls = self.calls.saturating_add(1);
        let listed = self.fails.lists(self.calls);
        let beyond = bytes.len() > self.room - self.taken.len();
        if listed || beyond {
            self.faults = self.faults.saturating_add(1);
            return Err(Failed);
        }
        match self.taken.extend_from_slice(bytes) {
            Ok(()) => Ok(()),
            Err(_) => unreachable!(),
        }
    }
}
