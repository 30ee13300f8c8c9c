ghost use Rattle.std.specs.Prelude.{◌≡◌, ◌++◌, [], IfOk, IfErr, OnOk, Ok};
ghost use Rattle.std.specs.Option.{option_and_then, option_copied};
ghost use Rattle.jac_lang.specs.Mirror.{application_of};
ghost use Rattle.jac_route.specs.Parameters.{viewer_of};
ghost use Rattle.jac_route.specs.Sessions.{Refuses, session_of, line_read, session_list, sessions_in, session_named, session_viewer};

use crate::viewer_id;
use crate::words::{atom_text, first_word};
use jac_lang::App;
use jac_value::{Id, Memory, Txt, first_part, is_session_token, read_viewer};
use std::alloc::Global;
use std::marker::Model;

/// A token, and the number of the viewer's record. A session without one has no viewer.
#[derive(Drop)]
pub struct Session {
    pub token: Txt,
    pub viewer: Option<u128>,
}

/// Sessions, in order.
#[derive(Drop)]
pub struct Sessions {
    sessions: Vec<Session>,
}

/// Why a sessions file can't be read.
#[derive(Clone, Copy, PartialEq, Eq)]
pub enum SessionFault {
    /// The number, from 1, of the first line that is neither empty nor a session.
    BadLine(u64),
    Memory,
}

impl From<Memory> for SessionFault {
    ghost use Rattle.std.specs.Prelude.{◌≡◌};
    ghost use Rattle.jac_route.specs.declared.sessions.SessionFault.TheVariants.{Memory as NoMemory};

    ghost from_gives = { λ _ e. e ≡ NoMemory };

    fn from(_: Memory) -> SessionFault {
        SessionFault::Memory
    }
}

impl Model for Sessions {
    ghost use Rattle.std.specs.Prelude.{List};
    ghost use Rattle.jac_route.specs.declared.sessions.Session.{Session as Item};

    ghost Value = { List Item };

    ghost view = { λ s. s.sessions.items };
}

impl Sessions {
    pub fn empty(alloc: Global) -> Sessions
        ensures { result ≡ [] }
    {
        Sessions {
            sessions: Vec::new(alloc),
        }
    }

    pub fn as_slice(&self) -> &[Session]
        ensures { result.now ≡ self.now }
    {
        self.sessions.as_slice()
    }
}

/// The sessions of a file with lines `TOKEN VIEWER`. Each ends with LF, which the last may lack.
pub fn sessions_of(alloc: Global, bytes: &[u8]) -> Result<Sessions, SessionFault>
    ensures ok { IfOk result (λ sessions. sessions_in bytes.now ≡ Ok sessions) }
    ensures bad_line { IfErr result (λ e. Refuses e (sessions_in bytes.now)) }
{
    let mut sessions = Vec::new(alloc);
    let mut left = Some(bytes);
    let mut number: u64 = 0;
    'lines: while let Some(rest) = left {
        let (line, after) = first_part(rest, b'\n');
        number += 1;
        match read_line(alloc, number, line) {
            Ok(session) => push_listed(session, &mut sessions)?,
            Err(fault) => return Err(fault),
        }
        left = after;
    }
    Ok(Sessions { sessions })
}

// The session of the line with this number. An empty line has none.
fn read_line(alloc: Global, number: u64, line: &[u8]) -> Result<Option<Session>, SessionFault>
    ensures ok { IfOk result (λ session. line_read number line.now ≡ Ok session) }
    ensures bad_line { IfErr result (λ e. Refuses e (line_read number line.now)) }
{
    if line.is_empty() {
        return Ok(None);
    }
    match read_session(alloc, line) {
        Ok(Some(session)) => Ok(Some(session)),
        Ok(None) => Err(SessionFault::BadLine(number)),
        Err(Memory) => Err(SessionFault::Memory),
    }
}

fn read_session(alloc: Global, line: &[u8]) -> Result<Option<Session>, Memory>
    ensures { IfOk result (λ session. session ≡ session_of line.now) }
{
    let Some((token, word)) = first_word(line) else {
        return Ok(None);
    };
    let Some(viewer) = read_viewer(word) else {
        return Ok(None);
    };
    if !is_session_token(token) {
        return Ok(None);
    }
    let token = atom_text(alloc, token)?;
    Ok(Some(Session { token, viewer }))
}

fn push_listed(session: Option<Session>, sessions: &mut Vec<Session>) -> Result<(), Memory>
    ensures { OnOk result (sessions.new.items ≡ sessions.old.items ++ session_list session) }
{
    match session {
        Some(session) => {
            sessions.push(session)?;
            Ok(())
        }
        None => Ok(()),
    }
}

/// The viewer's record for a token.
pub fn viewer_of(sessions: &Sessions, token: Option<&Txt>, app: &App) -> Option<Id>
    ensures { result ≡ session_viewer sessions.now (option_copied token.entry)
        (application_of app.now) }
{
    match token {
        Some(token) => match find_session(sessions.as_slice(), token) {
            Some(session) => viewer_in(session, app),
            None => None,
        },
        None => None,
    }
}

// The first session with the token.
fn find_session<'s>(sessions: &'s [Session], token: &Txt) -> Option<&'s Session>
    ensures { option_copied result ≡ session_named token.now sessions.now }
{
    let mut rest = sessions;
    'sessions: while let Some((session, more)) = rest.split_first() {
        if session.token == *token {
            return Some(session);
        }
        rest = more;
    }
    None
}

fn viewer_in(session: &Session, app: &App) -> Option<Id>
    ensures { result ≡ option_and_then (viewer_of (application_of app.now)) session.now.viewer }
{
    match session.viewer {
        Some(number) => viewer_id(number, app),
        None => None,
    }
}
