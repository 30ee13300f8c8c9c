ghost use Rattle.std.specs.Prelude.{◌≡◌, ◌+◌, ◌-◌, ◌^◌, ◌<◌, ◌≤◌, ◌||◌, take, true, length, Some, IfOk, OnOk, OnErr};
ghost use Rattle.jac_http.specs.Requests.{IsTaken};
ghost use Rattle.jac_http.specs.declared.taken.Taken.TheVariants.{Whole, Refused};
ghost use Rattle.jac_hub.specs.Channel.{LIMIT, new_channel, channel_with, fixed_500, sent_closes, AnswersFront, Waits, NextOfChannel, IsNearer};
ghost use Rattle.jac_hub.specs.Refusals.{is_refusal, MayBeHeard, IsSoundAnswer};
ghost use Rattle.jac_hub.specs.declared.channel.Given.TheVariants.{Reply as reply};

use crate::sent::{closes, fixed_500};
use crate::{Handler, Heard, Sent};
use jac_http::{Request, Taken, requests_are_read, take_request};
use jac_value::Memory;
use std::alloc::Global;
use std::marker::Model;

const MOST: usize = 16_777_216;

/// What a connection gives.
#[derive(Drop)]
pub enum Given {
    Reply(Sent),
    Closed,
}

/// The bytes of one connection. Bytes that requests used are dropped when they are more than half.
#[derive(Drop)]
pub struct Channel {
    bytes: Vec<u8>,
    used: usize,
    taken: usize,
    closed: bool,
}

impl Model for Channel {
    ghost use Rattle.std.specs.Prelude.{length, drop, ◌≤◌};
    ghost use Rattle.jac_hub.specs.Channel.{ChannelSeen};

    ghost Value = { ChannelSeen };

    ghost view = { λ c. record { unused = drop c.used c.bytes.items; taken = c.taken; closed = c.closed } };

    ghost invariant = { λ c. c.used ≤ length c.bytes.items };
}

impl Channel {
    pub fn new(alloc: Global) -> Channel
        ensures { result ≡ new_channel }
    {
        Channel {
            bytes: Vec::new(alloc),
            used: 0,
            taken: 0,
            closed: false,
        }
    }

    pub fn is_closed(&self) -> bool
        ensures { result ≡ self.now.closed }
    {
        self.closed
    }

    pub fn close(&mut self)
        ensures { self.new ≡ record self.old { closed = true } }
    {
        self.closed = true;
    }

    /// Takes those bytes of a piece that still count.
    pub fn piece(&mut self, bytes: &[u8]) -> Result<(), Memory>
        ensures ok { OnOk result (self.new ≡ channel_with bytes.now self.old) }
        ensures err { OnErr result (self.new ≡ self.old) }
    {
        self.compact();
        let new = counted(bytes, self.taken);
        match self.bytes.extend_from_slice(new) {
            Ok(()) => {
                self.taken += new.len();
                Ok(())
            }
            Err(_) => Err(Memory),
        }
    }

    fn compact(&mut self)
        ensures { self.new ≡ self.old }
    {
        if self.used > self.bytes.len() / 2 {
            drop(self.bytes.drain(..self.used));
            self.used = 0;
        }
    }

    fn unused(&self) -> &[u8]
        ensures { result.now ≡ self.now.unused }
    {
        &self.bytes[self.used..]
    }

    /// The next reply, or that the connection is closed, or none.
    pub fn next<H: Handler>(&mut self, alloc: Global, conn: u32, handler: &mut H) -> Option<Given>
        requires { H.ready handler.old }
        ensures next { NextOfChannel IsTaken H.handles conn self.old result self.new handler.old
            handler.new }
        ensures nearer { IsNearer self.old result self.new }
        ensures ready { H.ready handler.new }
    {
        match front(alloc, self.unused()) {
            Err(Memory) => Some(self.fail()),
            Ok(Taken::More) => self.wait(),
            Ok(Taken::Whole { request, used }) => Some(self.answer(conn, request, used, handler)),
            Ok(Taken::Refused { status }) => Some(self.refuse(conn, status, handler)),
        }
    }

    fn answer<H: Handler>(
        &mut self,
        conn: u32,
        request: Request,
        used: usize,
        handler: &mut H,
    ) -> Given
        requires ready { H.ready handler.old }
        requires some { 0 < used }
        requires within { used ≤ length self.old.unused }
        ensures answered { AnswersFront H.handles conn self.old (Whole request used) (Some result)
            self.new handler.old handler.new }
        ensures nearer { IsNearer self.old (Some result) self.new }
        ensures ready { H.ready handler.new }
    {
        let close = request.close;
        let sent = ask(conn, Heard::Whole(request), handler);
        self.used += used;
        self.closed = ends(close, &sent);
        Given::Reply(sent)
    }

    fn refuse<H: Handler>(&mut self, conn: u32, status: u16, handler: &mut H) -> Given
        requires ready { H.ready handler.old }
        requires refusal { is_refusal status ≡ true }
        ensures answered { AnswersFront H.handles conn self.old (Refused status) (Some result)
            self.new handler.old handler.new }
        ensures nearer { IsNearer self.old (Some result) self.new }
        ensures ready { H.ready handler.new }
    {
        let sent = ask(conn, Heard::Refused(status), handler);
        self.closed = true;
        Given::Reply(sent)
    }

    /// Memory ran out: gives the fixed reply, and closes the connection.
    fn fail(&mut self) -> Given
        ensures nearer { IsNearer self.old (Some result) self.new }
        ensures given { result ≡ reply fixed_500 }
        ensures closed { self.new ≡ record self.old { closed = true } }
    {
        self.closed = true;
        Given::Reply(fixed_500())
    }

    #[tactic(auto, unfolding(crate::specs::Channel::LIMIT))]
    fn wait(&mut self) -> Option<Given>
        ensures waits { Waits self.old result self.new }
        ensures nearer { IsNearer self.old result self.new }
    {
        if self.taken < MOST {
            return None;
        }
        self.closed = true;
        Some(Given::Closed)
    }
}

// What the handler sends for what was heard.
fn ask<H: Handler>(conn: u32, heard: Heard, handler: &mut H) -> Sent
    requires ready { H.ready handler.old }
    requires refusal { MayBeHeard heard }
    ensures handled { H.handles handler.old conn heard result handler.new }
    ensures ready { H.ready handler.new }
{
    handler.handle(conn, &heard)
}

// Whether the connection is closed after the reply.
fn ends(close: bool, sent: &Sent) -> bool
    ensures { result ≡ (close || sent_closes sent.now) }
{
    close || closes(sent)
}

// What is at the front of the bytes.
fn front(alloc: Global, bytes: &[u8]) -> Result<Taken, Memory>
    ensures read { IfOk result (λ taken. IsTaken bytes.now taken) }
    ensures sound { IfOk result (λ taken. IsSoundAnswer bytes.now taken) }
{
    requests_are_read();
    take_request(alloc, bytes)
}

// The bytes that still count, if this many were taken before.
#[tactic(auto, unfolding(crate::specs::Channel::LIMIT))]
fn counted(bytes: &[u8], taken: usize) -> &[u8]
    ensures new { result.now ≡ take (LIMIT - taken) bytes.now }
    ensures within { taken + length result.now < 2 ^ 64 }
{
    let room = MOST.saturating_sub(taken);
    if bytes.len() < room {
        bytes
    } else {
        &bytes[..room]
    }
}
