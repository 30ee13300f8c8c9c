//! Connections that came and whose requests are still to arrive. A connection is served when its
//! request is there, even if others came before it. Each is handed out once: when its request is
//! there, when its peer ended it, or when its time is over. In the last case it can bring nothing
//! more.
use crate::ahead::Ahead;
use mio::unix::SourceFd;
use mio::{Events, Interest, Poll, Token};
use std::alloc::Global;
use std::io;
use std::io::ErrorKind;
use std::net::{Shutdown, TcpListener, TcpStream};
use std::os::fd::AsRawFd;
use std::time::{Duration, Instant};

// How many connections may wait here. If one more comes, the time of the first one is over.
const SEATS: usize = 128;

// How long a connection may wait here.
const WAIT_MILLIS: u64 = 3_000;

// How much time lies at least between two messages about connections whose time was over.
const TELL_MILLIS: u64 = 1_000;

// A connection, what was read from it, and whether it is ready to be handed out.
#[derive(Drop)]
struct Waiting {
    stream: TcpStream,
    ahead: Ahead,
    token: usize,
    ready: bool,
    since: Instant,
}

impl Waiting {
    // Ends the connection's time.
    fn end(&mut self) {
        let _ = self.stream.shutdown(Shutdown::Read);
        self.ready = true;
    }

    // Reads what came. A connection that ended or failed brings nothing more.
    fn look(&mut self) {
        'reads: for _ in 0..u64::MAX {
            match self.ahead.read(&mut self.stream) {
                Ok(0) => break,
                Ok(_) if self.ahead.is_enough() => break,
                Ok(_) => {}
                Err(error) => match error.kind() {
                    ErrorKind::WouldBlock => return,
                    ErrorKind::Interrupted => {}
                    _ => break,
                },
            }
        }
        self.ready = true;
    }
}

/// A port, and the connections that came to it and wait.
#[derive(Drop)]
pub(crate) struct Room {
    rt: HostRuntime,
    poll: Poll,
    events: Events<Global>,
    listener: TcpListener,
    waiting: Vec<Waiting>,
    token: usize,
    let_go: u64,
    told: Option<Instant>,
}

impl Room {
    pub(crate) fn open(rt: &HostRuntime, listener: TcpListener) -> io::Result<Room> {
        listener.set_nonblocking(true)?;
        let poll = Poll::new(rt)?;
        let fd = listener.as_raw_fd();
        poll.registry()
            .register(&mut SourceFd(&fd), Token(0), Interest::READABLE)?;
        Ok(Room {
            rt: *rt,
            poll,
            events: Events::with_capacity(rt.alloc(), SEATS)?,
            listener,
            waiting: Vec::new(rt.alloc()),
            token: 0,
            let_go: 0,
            told: None,
        })
    }

    pub(crate) fn listener(&self) -> &TcpListener {
        &self.listener
    }

    /// The next connection that is handed out, and what was read from it.
    pub(crate) fn next(&mut self) -> io::Result<(TcpStream, Ahead)> {
        'turns: for _ in 0..u64::MAX {
            if let Some((stream, ahead)) = self.take_ready() {
                stream.set_nonblocking(false)?;
                return Ok((stream, ahead));
            }
            let wait = self.let_in()?;
            self.look(wait)?;
        }
        Err(io::Error::from(ErrorKind::TimedOut))
    }

    // The first of the ready connections, in the order in which they came. The host may still
    // report events of it, under a token that no waiting connection has.
    fn take_ready(&mut self) -> Option<(TcpStream, Ahead)> {
        let place = self.waiting.iter().position(|one| one.ready)?;
        if place >= self.waiting.len() {
            return None;
        }
        let Waiting { stream, ahead, .. } = self.waiting.remove(place);
        Some((stream, ahead))
    }

    // Lets one connection in, and returns how long to wait for events. If more connections may have
    // come, it doesn't wait. The host reports the port again only after the last of them was
    // accepted.
    fn let_in(&mut self) -> io::Result<Option<Duration>> {
        match self.listener.accept() {
            Ok((stream, _)) => {
                // If the host refuses to report its events, the connection is dropped.
                let _ = self.seat(stream);
                Ok(Some(Duration::ZERO))
            }
            Err(error) => match error.kind() {
                ErrorKind::WouldBlock => self.left(),
                ErrorKind::Interrupted | ErrorKind::ConnectionAborted => Ok(Some(Duration::ZERO)),
                _ => Err(error),
            },
        }
    }

    fn seat(&mut self, stream: TcpStream) -> io::Result<()> {
        if self.waiting.len() >= SEATS {
            if let Some(first) = self.waiting.first_mut() {
                first.end();
                self.let_go = self.let_go.saturating_add(1);
            }
        }
        self.token = self.token.wrapping_add(1);
        stream.set_nonblocking(true)?;
        let fd = stream.as_raw_fd();
        self.poll
            .registry()
            .register(&mut SourceFd(&fd), Token(self.token), Interest::READABLE)?;
        let since = Instant::now(&self.rt)?;
        self.waiting.push(Waiting {
            stream,
            ahead: Ahead::new(self.rt.alloc()),
            token: self.token,
            ready: false,
            since,
        })?;
        Ok(())
    }

    // How long to wait: until the time of the first connection is over, or, if there is none, until
    // a message is due.
    fn left(&mut self) -> io::Result<Option<Duration>> {
        let now = Instant::now(&self.rt)?;
        let untold = self.tell_let_go(now);
        let Some(first) = self.waiting.first_mut() else {
            return Ok(untold);
        };
        let left = time_left(now, first.since, WAIT_MILLIS);
        if left.is_zero() {
            first.end();
            self.let_go = self.let_go.saturating_add(1);
            let _ = self.tell_let_go(now);
        }
        Ok(Some(left))
    }

    // Prints how many connections were let go because their time was over. If it is too early for a
    // message, returns how long to wait for it.
    fn tell_let_go(&mut self, now: Instant) -> Option<Duration> {
        if self.let_go == 0 {
            return None;
        }
        if let Some(told) = self.told {
            let left = time_left(now, told, TELL_MILLIS);
            if !left.is_zero() {
                return Some(left);
            }
        }
        let count = self.let_go;
        let _ = eprintln!(self.rt; "jac: connections let go, without a request in time: {count}");
        self.told = Some(now);
        self.let_go = 0;
        None
    }

    // Waits until the host reports the port or connections, and reads from those connections.
    fn look(&mut self, wait: Option<Duration>) -> io::Result<()> {
        if let Err(error) = self.poll.poll(&mut self.events, wait) {
            return match error.kind() {
                ErrorKind::Interrupted => Ok(()),
                _ => Err(error),
            };
        }
        let events = &self.events;
        let waiting = &mut self.waiting;
        for event in events.iter() {
            let token = usize::from(event.token());
            for one in waiting.iter_mut() {
                if one.token == token && !one.ready {
                    one.look();
                }
            }
        }
        Ok(())
    }
}

// How much is left of so many milliseconds after `since`.
fn time_left(now: Instant, since: Instant, millis: u64) -> Duration {
    Duration::from_millis(millis).saturating_sub(now.duration_since(since))
}
