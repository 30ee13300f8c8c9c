ghost use Rattle.std.specs.Prelude.{◌≡◌, ◌≤◌, [], None};
ghost use Rattle.jac_host.specs.HandedLinks.{AreEnded};

use crate::ahead::Ahead;
use crate::calls::{listen, local_address};
use crate::faults::counted;
use crate::handed::Handed;
use crate::handed_link::HandedLink;
use crate::journal::Journal;
use crate::link::{HostLink, let_go, link_of};
use crate::outside::Outside;
use crate::room::Room;
use crate::told::tell;
use jac_io::{Door, Failed};
use std::io;
use std::io::ErrorKind;
use std::marker::PhantomData;
use std::net::{TcpListener, TcpStream};
use std::time::Instant;

/// A port of the host, for connections from the same machine. They are known as long as no more
/// connections came than are supposed. The door always waits for one more.
#[derive(Drop)]
pub struct HostDoor<'r, O: Outside> {
    rt: &'r HostRuntime,
    outside: PhantomData<O>,
    room: Option<Room>,
    journal: Journal,
    returned: Handed<HandedLink>,
    faults: u64,
}

impl<'r, O: Outside> HostDoor<'r, O> {
    pub fn new(rt: &'r HostRuntime) -> HostDoor<'r, O>
        ensures events { result.journal.events ≡ [] }
        ensures returned { result.returned.items ≡ [] }
        ensures faults { result.faults ≡ 0 }
    {
        HostDoor {
            rt,
            outside: PhantomData,
            room: None,
            journal: Journal::new(),
            returned: Handed::new(),
            faults: 0,
        }
    }

    /// A law: the input of each connection that was handed back ends for good.
    pub fn stand(&self)
        ensures { AreEnded self.now.returned.items }
    {}
}

impl<O: Outside> Door for HostDoor<'_, O> {
    ghost use Rattle.jac_host.specs.HandedLinks.{host_door_seen};

    type Line = HostLink<O>;

    ghost seen = { λ d. host_door_seen O.inputs d.journal.events d.returned.items d.faults };

    fn listen(&mut self, port: u16) -> Result<(), Failed> {
        match listen(self.rt, &mut self.journal, port) {
            Ok(room) => {
                tell_listening(self.rt, room.listener());
                self.room = Some(room);
                Ok(())
            }
            Err(error) => {
                tell(self.rt, &local_address(port), &error);
                Err(counted(&mut self.faults))
            }
        }
    }

    #[tactic(auto, using(crate::proofs::LinkLaws::next_comes))]
    fn next(&mut self) -> Result<Option<HostLink<O>>, Failed> {
        match next_stream(self.rt, &mut self.room) {
            Ok((stream, ahead, now)) => Ok(Some(link_of(
                self.rt,
                &mut self.journal,
                stream,
                ahead,
                now,
            ))),
            Err(error) => {
                tell(self.rt, &"the door", &error);
                Err(counted(&mut self.faults))
            }
        }
    }

    #[tactic(auto, using(crate::proofs::HandedLaws::one_more_handed))]
    fn close(&mut self, line: HostLink<O>) -> Result<(), Failed> {
        let left = let_go(line);
        self.returned = self.returned.and(&left);
        Ok(())
    }
}

// Prints to standard error the address on which the program listens.
fn tell_listening(rt: &HostRuntime, listener: &TcpListener) {
    if let Ok(address) = listener.local_addr() {
        let _ = eprintln!(rt; "listening on {address}");
    }
}

// The next connection, what was read from it, and when it was handed out. A reply is one write, so
// TCP needn't wait for more bytes to send with it. If the host refuses that setting, the connection
// works without it.
fn next_stream(
    rt: &HostRuntime,
    room: &mut Option<Room>,
) -> io::Result<(TcpStream, Ahead, Instant)> {
    let Some(room) = room else {
        return Err(io::Error::from(ErrorKind::NotConnected));
    };
    let (stream, ahead) = room.next()?;
    let _ = stream.set_nodelay(true);
    let now = Instant::now(rt)?;
    Ok((stream, ahead, now))
}
