ghost use Rattle.std.specs.Prelude.{◌≡◌, ◌↔◌, [], true, IfOk, IsErr, IsTrue};
ghost use Rattle.jac_io.specs.Seen.{Puts, Aims};

use crate::{AuditSink, Calls, Failed, Sink};
use jac_value::{Memory, Txt};
use std::alloc::Global;
use std::marker::Model;

const AIMS: usize = 8;

/// A sink in memory. A call fails if its number is listed. A put also fails if its bytes don't fit
/// into the room that is left, and an aim if there were eight already. Calls of `put` and `aim` are
/// counted together.
#[derive(Debug, Drop)]
pub struct MemorySink {
    taken: Vec<u8>,
    room: usize,
    aims: Vec<(Option<Txt>, usize)>,
    fails: Calls,
    calls: u64,
    faults: u64,
}

impl Model for MemorySink {
    ghost use Rattle.std.specs.Prelude.{◌≤◌, vec_len, vec_capacity};
    ghost use Rattle.jac_io.specs.SinkState.{SinkState, aims_room};

    ghost Value = { SinkState };

    ghost view = { λ m. record { held = m.taken.items; aims = m.aims.items; room = m.room; fails = m.fails; calls = m.calls; faults = m.faults } };

    ghost invariant = { λ m. (vec_len m.taken ≤ m.room) × (m.room ≤ vec_capacity m.taken) × (vec_len m.aims ≤ aims_room) × (aims_room ≤ vec_capacity m.aims) };
}

impl MemorySink {
    /// Allocates the room at once, so that no later call takes memory.
    pub fn new(alloc: Global, room: usize, fails: Calls) -> Result<MemorySink, Memory>
        ensures { IfOk result (λ s. s ≡ record {
          held = [];
          aims = [];
          room = room;
          fails = fails;
          calls = 0;
          faults = 0;
        }) }
    {
        let taken = Vec::with_capacity(alloc, room)?;
        let aims = Vec::with_capacity(alloc, AIMS)?;
        Ok(MemorySink {
            taken,
            room,
            aims,
            fails,
            calls: 0,
            faults: 0,
        })
    }

    /// The bytes that were put.
    pub fn taken(&self) -> &[u8]
        ensures { result.now ≡ self.now.held }
    {
        self.taken.as_slice()
    }

    /// Each aim that succeeded, with the number of bytes that had been put by then.
    pub fn aims(&self) -> &[(Option<Txt>, usize)]
        ensures { result.now ≡ self.now.aims }
    {
        self.aims.as_slice()
    }
}

impl Sink for MemorySink {
    ghost use Rattle.jac_io.specs.SinkState.{put_fails, after_put, seen_sink};

    ghost seen = { seen_sink };

    fn put(&mut self, bytes: &[u8]) -> Result<(), Failed>
        ensures left { self.new ≡ after_put self.old bytes.now }
        ensures failed { IsErr result ↔ IsTrue (put_fails self.old bytes.now) }
        ensures puts { Puts (seen_sink self.old) (seen_sink self.new) bytes.now result }
    {
        self.calls = self.calls.saturating_add(1);
        let listed = self.fails.lists(self.calls);
        let beyond = bytes.len() > self.room - self.taken.len();
        if listed || beyond {
            self.faults = self.faults.saturating_add(1);
            return Err(Failed);
        }
        match self.taken.extend_from_slice(bytes) {
            Ok(()) => Ok(()),
            Err(_) => unreachable!(),
        }
    }
}

impl AuditSink for MemorySink {
    ghost use Rattle.jac_io.specs.SinkState.{aim_fails, after_aim, seen_sink};

    fn aim(&mut self, name: Option<Txt>) -> Result<(), Failed>
        ensures left { self.new ≡ after_aim self.old name }
        ensures failed { IsErr result ↔ IsTrue (aim_fails self.old) }
        ensures aims { Aims (seen_sink self.old) (seen_sink self.new) name result }
    {
        self.calls = self.calls.saturating_add(1);
        let listed = self.fails.lists(self.calls);
        let beyond = self.aims.len() >= AIMS;
        if listed || beyond {
            self.faults = self.faults.saturating_add(1);
            return Err(Failed);
        }
        match self.aims.push((name, self.taken.len())) {
            Ok(()) => Ok(()),
            Err(_) => unreachable!(),
        }
    }
}
