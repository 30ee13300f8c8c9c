//! What the system was asked and what it answered, for contracts alone.
ghost use Rattle.std.specs.Prelude.{◌≡◌, List, []};
ghost use Rattle.std.specs.Borrow.{ftrue};
ghost use Rattle.jac_host.specs.Events.{Event};

use std::marker::Model;

/// The events so far, the newest first. It is ghost data and takes no bytes. So a note is true only
/// if the call that it notes is made beside it.
#[derive(Drop)]
pub struct Journal {
    pub ghost events: { List Event },
}

impl Model for Journal {
    ghost also_owns = { λ _. ftrue };
}

/// One request to the system, or one answer of it.
#[derive(Clone, Copy)]
pub enum Note<'a> {
    Asks(&'a str),
    Opened(&'a str),
    Gave(&'a [u8]),
    Took(&'a [u8]),
    Aimed(Option<&'a str>),
    Listens(u16),
    Came,
}

impl Journal {
    ghost use Rattle.jac_host.specs.Noted.{with_note};

    pub fn new() -> Journal
        ensures { result.events ≡ [] }
    {
        Journal {}
    }

    /// The journal with one more event.
    pub fn then(&self, _note: &Note<'_>) -> Journal
        ensures { result.events ≡ with_note self.now.events _note.now }
    {
        Journal {}
    }
}
