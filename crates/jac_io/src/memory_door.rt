ghost use Rattle.std.specs.Prelude.{◌≡◌, ◌↔◌, [], None, IfOk, IsErr, IsTrue, length, slice_get};
ghost use Rattle.jac_io.specs.Linked.{Listens, AsksNext, Returns};

use crate::{Calls, Door, Failed, MemoryLink};
use jac_value::{List, Memory};
use std::alloc::Global;
use std::collections::VecDeque;
use std::marker::Model;

/// Links in memory, in the order in which they come.
pub type Links = List<MemoryLink>;

/// A door in memory. A call fails if its number is listed. A close also fails if as many links were
/// handed back as the door began with. Calls of `listen`, `next` and `close` are counted together.
#[derive(Debug, Drop)]
pub struct MemoryDoor {
    coming: VecDeque<MemoryLink>,
    port: Option<u16>,
    returned: Vec<MemoryLink>,
    room: usize,
    fails: Calls,
    calls: u64,
    faults: u64,
}

impl Model for MemoryDoor {
    ghost use Rattle.std.specs.Prelude.{◌≤◌, vec_capacity};
    ghost use Rattle.jac_io.specs.DoorState.{DoorState};

    ghost Value = { DoorState };

    ghost view = { λ m. record { coming = m.coming.items; port = m.port; returned = m.returned.items; room = m.room; fails = m.fails; calls = m.calls; faults = m.faults } };

    ghost invariant = { λ m. m.room ≤ vec_capacity m.returned };
}

impl MemoryDoor {
    /// Allocates the room for the links that are handed back, so that no later call takes memory.
    pub fn new(alloc: Global, links: Links, fails: Calls) -> Result<MemoryDoor, Memory>
        ensures { IfOk result (λ d. d ≡ record {
          coming = links;
          port = None;
          returned = [];
          room = length links;
          fails = fails;
          calls = 0;
          faults = 0;
        }) }
    {
        let links = links.into_vec();
        let room = links.len();
        let returned = Vec::with_capacity(alloc, room)?;
        Ok(MemoryDoor {
            coming: VecDeque::from(links),
            port: None,
            returned,
            room,
            fails,
            calls: 0,
            faults: 0,
        })
    }

    /// The links that were handed back, in order.
    pub fn lines(&self) -> &[MemoryLink]
        ensures { result.now ≡ self.now.returned }
    {
        self.returned.as_slice()
    }
}

impl Door for MemoryDoor {
    ghost use Rattle.jac_io.specs.DoorState.{call_fails, close_fails, after_listen, after_next, after_close, seen_door};

    type Line = MemoryLink;

    ghost seen = { seen_door };

    fn listen(&mut self, port: u16) -> Result<(), Failed>
        ensures left { self.new ≡ after_listen self.old port }
        ensures failed { IsErr result ↔ IsTrue (call_fails self.old) }
        ensures listens { Listens (seen_door self.old) (seen_door self.new) port result }
    {
        self.calls = self.calls.saturating_add(1);
        if self.fails.lists(self.calls) {
            self.faults = self.faults.saturating_add(1);
            return Err(Failed);
        }
        self.port = Some(port);
        Ok(())
    }

    fn next(&mut self) -> Result<Option<MemoryLink>, Failed>
        ensures left { self.new ≡ after_next self.old }
        ensures failed { IsErr result ↔ IsTrue (call_fails self.old) }
        ensures first { IfOk result (λ line. line ≡ slice_get self.old.coming 0) }
        ensures nexts { AsksNext (seen_door self.old) (seen_door self.new) result }
    {
        self.calls = self.calls.saturating_add(1);
        if self.fails.lists(self.calls) {
            self.faults = self.faults.saturating_add(1);
            return Err(Failed);
        }
        Ok(self.coming.pop_front())
    }

    fn close(&mut self, line: MemoryLink) -> Result<(), Failed>
        ensures left { self.new ≡ after_close self.old line }
        ensures failed { IsErr result ↔ IsTrue (close_fails self.old) }
        ensures returns { Returns (seen_door self.old) (seen_door self.new) line result }
    {
        self.calls = self.calls.saturating_add(1);
        let listed = self.fails.lists(self.calls);
        let beyond = self.returned.len() >= self.room;
        if listed || beyond {
            self.faults = self.faults.saturating_add(1);
            return Err(Failed);
        }
        match self.returned.push(line) {
            Ok(()) => Ok(()),
            Err(_) => unreachable!(),
        }
    }
}
