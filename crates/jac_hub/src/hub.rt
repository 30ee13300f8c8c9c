ghost use Rattle.std.specs.Prelude.{◌≡◌, ◌<◌, ◌+◌, None, Some, IfSome};
ghost use Rattle.jac_http.specs.Requests.{IsTaken};
ghost use Rattle.jac_hub.specs.Hub.{hub_seen, IsOfConnection, new_hub, StepsBegin, StepsPiece, StepsFinish, Steps, Nexts, NextServing, NextBreaking, turn_behind, out_of, unused_in, puts_left};
ghost use Rattle.jac_hub.specs.declared.hub.Turn.TheVariants.{Idle, Closing};

use crate::channel::{Channel, Given};
use crate::sent::fixed_500;
use crate::{Handler, Sent};
use jac_events::Event;
use jac_value::Memory;
use std::alloc::Global;
use std::collections::BTreeMap;

/// Why an event isn't taken.
#[derive(Clone, Copy, PartialEq, Eq)]
pub enum HubFault {
    /// The connection hasn't begun.
    NotOpen(u32),
    /// The connection has begun already.
    AlreadyOpen(u32),
    /// Out of memory.
    Memory,
}

/// What a hub puts out.
#[derive(Drop)]
pub enum HubOut {
    Reply { conn: u32, sent: Sent },
    Closed { conn: u32 },
}

/// What is still to come for the last event.
#[derive(Clone, Copy)]
enum Turn {
    /// Nothing: the next event may come.
    Idle,
    /// The replies to the connection's bytes.
    Serving(u32),
    /// The reply for a connection that ran out of memory.
    Breaking(u32),
    /// That the connection is closed.
    Closing(u32),
    /// None, which says that nothing more comes.
    Done,
}

/// The connections that have begun, and what is still to come for the last event.
#[derive(Drop)]
pub struct Hub {
    channels: BTreeMap<u32, Channel>,
    turn: Turn,
}

impl Hub {
    pub fn new(alloc: Global) -> Hub
        ensures { hub_seen result ≡ new_hub }
    {
        Hub {
            channels: BTreeMap::new(alloc),
            turn: Turn::Idle,
        }
    }

    /// Takes an event. `next` then returns what it brings, until it returns none.
    pub fn step(&mut self, alloc: Global, event: &Event) -> Result<(), HubFault>
        requires idle { (hub_seen self.old).turn ≡ Idle }
        requires connection { IsOfConnection event.now }
        ensures { Steps (hub_seen self.old) event.now result (hub_seen self.new) }
    {
        match event {
            Event::Ask { .. } => unreachable!(),
            Event::Begin { conn } => self.begin(alloc, *conn),
            Event::Piece { conn, bytes } => self.piece(*conn, bytes.as_slice()),
            Event::Finish { conn } => self.finish(*conn),
        }
    }

    fn begin(&mut self, alloc: Global, conn: u32) -> Result<(), HubFault>
        ensures { StepsBegin (hub_seen self.old) conn ((hub_seen self.old).channels conn) result
            (hub_seen self.new) }
    {
        if self.channels.contains_key(&conn) {
            return Err(HubFault::AlreadyOpen(conn));
        }
        match self.channels.insert(conn, Channel::new(alloc)) {
            Ok(_) => {
                self.turn = Turn::Done;
                Ok(())
            }
            Err(_) => Err(HubFault::Memory),
        }
    }

    fn piece(&mut self, conn: u32, bytes: &[u8]) -> Result<(), HubFault>
        ensures { StepsPiece (hub_seen self.old) conn bytes.now
            ((hub_seen self.old).channels conn) result
            (hub_seen self.new) }
    {
        let Some(channel) = self.channels.get_mut(&conn) else {
            return Err(HubFault::NotOpen(conn));
        };
        if channel.is_closed() {
            self.turn = Turn::Done;
            return Ok(());
        }
        match channel.piece(bytes) {
            Ok(()) => {
                self.turn = Turn::Serving(conn);
                Ok(())
            }
            Err(Memory) => {
                self.turn = Turn::Breaking(conn);
                Err(HubFault::Memory)
            }
        }
    }

    fn finish(&mut self, conn: u32) -> Result<(), HubFault>
        ensures { StepsFinish (hub_seen self.old) conn ((hub_seen self.old).channels conn) result
            (hub_seen self.new) }
    {
        match self.channels.remove(&conn) {
            Some(_) => {
                self.turn = Turn::Done;
                Ok(())
            }
            None => Err(HubFault::NotOpen(conn)),
        }
    }

    /// The next output for the last event: one reply for each request and each refusal, in order,
    /// then that the connection is closed, if it is, then none.
    pub fn next<H: Handler>(&mut self, alloc: Global, handler: &mut H) -> Option<HubOut>
        requires { H.ready handler.old }
        ensures next { Nexts IsTaken H.handles (hub_seen self.old) (hub_seen self.old).turn result
            (hub_seen self.new) handler.old handler.new }
        ensures idle { result ≡ None → (hub_seen self.new).turn ≡ Idle }
        ensures nearer { IfSome result (λ out. puts_left (hub_seen self.new) < puts_left
            (hub_seen self.old)) }
        ensures ready { H.ready handler.new }
    {
        match self.turn {
            Turn::Idle => None,
            Turn::Serving(conn) => self.serve(alloc, conn, handler),
            Turn::Breaking(conn) => Some(self.fail(conn)),
            Turn::Closing(conn) => {
                self.turn = Turn::Done;
                Some(HubOut::Closed { conn })
            }
            Turn::Done => {
                self.turn = Turn::Idle;
                None
            }
        }
    }

    fn serve<H: Handler>(&mut self, alloc: Global, conn: u32, handler: &mut H) -> Option<HubOut>
        requires { H.ready handler.old }
        ensures next { NextServing IsTaken H.handles (hub_seen self.old) conn
            ((hub_seen self.old).channels conn) result (hub_seen self.new) handler.old handler.new }
        ensures idle { result ≡ None → (hub_seen self.new).turn ≡ Idle }
        ensures nearer { IfSome result (λ out. puts_left (hub_seen self.new) < unused_in
            ((hub_seen self.old).channels conn) + 4) }
        ensures ready { H.ready handler.new }
    {
        let Some(channel) = self.channels.get_mut(&conn) else {
            self.turn = Turn::Idle;
            return None;
        };
        let given = channel.next(alloc, conn, handler);
        let closed = channel.is_closed();
        self.turn = turn_behind(conn, &given, closed);
        out_of(conn, given)
    }

    fn fail(&mut self, conn: u32) -> HubOut
        ensures next { NextBreaking (hub_seen self.old) conn ((hub_seen self.old).channels conn)
            (Some result) (hub_seen self.new) }
        ensures turn { (hub_seen self.new).turn ≡ Closing conn }
    {
        if let Some(channel) = self.channels.get_mut(&conn) {
            channel.close();
        }
        self.turn = Turn::Closing(conn);
        HubOut::Reply {
            conn,
            sent: fixed_500(),
        }
    }
}

fn turn_behind(conn: u32, given: &Option<Given>, closed: bool) -> Turn
    ensures { result ≡ turn_behind conn given.now closed }
{
    match given {
        None => Turn::Idle,
        Some(Given::Reply(_)) => {
            if closed {
                Turn::Closing(conn)
            } else {
                Turn::Serving(conn)
            }
        }
        Some(Given::Closed) => Turn::Done,
    }
}

fn out_of(conn: u32, given: Option<Given>) -> Option<HubOut>
    ensures { result ≡ out_of conn given }
{
    match given {
        None => None,
        Some(Given::Reply(sent)) => Some(HubOut::Reply { conn, sent }),
        Some(Given::Closed) => Some(HubOut::Closed { conn }),
    }
}
