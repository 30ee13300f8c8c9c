ghost use Rattle.std.specs.Prelude.{◌≡◌, ◌++◌, codes, decimal, Result};
ghost use Rattle.std.specs.Option.{option_copied};
ghost use Rattle.jac_serve_events.specs.Outside.{IsPut, span};
ghost use Rattle.jac_cli.specs.Commands.{file_of, name_or_empty, name_of, limit_of, limit_text};
ghost use Rattle.jac_command_base.specs.ExitReason.{fault_line, event_fault_line, behind_role, status_of};

use crate::status::Status;
use itoa::Buffer;
use jac_cli::{Command, Role};
use jac_io::{Failed, Sink};
use jac_serve_events::{EventFault, put, put_five, put_three, put_two};
use jac_value::Txt;

/// Why the steps of a command ended early.
#[derive(Drop)]
pub enum ExitReason {
    ReadFault(Role),
    TooLong(Role),
    /// The line says why the application is refused.
    AppRefused(Txt),
    /// The line says why the application to upgrade to is refused.
    NewRefused(Txt),
    /// The line says what the second application lacks.
    UpgradeRefused(Txt),
    LineRefused(EventFault),
    /// The number, from 1, of the line of the sessions.
    SessionsRefused(u64),
    WriteFault,
    /// The store failed when it was attached or read.
    StoreFault,
    /// The door failed.
    DoorFault,
    /// The stored schema isn't that of the application.
    OtherStore { stored: Txt, wanted: Txt },
    Memory,
}

/// The number of bytes that the file may have.
pub fn limit(role: Role) -> usize
    ensures { result ≡ limit_of role }
{
    match role {
        Role::App | Role::New | Role::Sessions => 1_048_576,
        Role::Events => 16_777_216,
    }
}

// The file of the command with this role.
fn file(command: &Command, role: Role) -> Option<&Txt>
    ensures { option_copied result ≡ file_of command.now role }
{
    match role {
        Role::App => app_file(command),
        Role::New => new_file(command),
        Role::Sessions => sessions_file(command),
        Role::Events => events_file(command),
    }
}

fn app_file(command: &Command) -> Option<&Txt>
    ensures { option_copied result ≡ file_of command.now Role.App }
{
    match command {
        Command::Check(app) => Some(app),
        Command::Replay(replay) => Some(&replay.app),
        Command::Serve(serving) => Some(&serving.app),
        Command::Demo(_) => None,
        Command::Dump(dumping) => Some(&dumping.app),
        Command::Upgrade(upgrading) => Some(&upgrading.app),
        Command::Why(explaining) => Some(&explaining.app),
    }
}

fn new_file(command: &Command) -> Option<&Txt>
    ensures { option_copied result ≡ file_of command.now Role.New }
{
    match command {
        Command::Upgrade(upgrading) => Some(&upgrading.next),
        _ => None,
    }
}

fn sessions_file(command: &Command) -> Option<&Txt>
    ensures { option_copied result ≡ file_of command.now Role.Sessions }
{
    match command {
        Command::Replay(replay) => replay.sessions.as_ref(),
        Command::Serve(serving) => serving.sessions.as_ref(),
        _ => None,
    }
}

fn events_file(command: &Command) -> Option<&Txt>
    ensures { option_copied result ≡ file_of command.now Role.Events }
{
    match command {
        Command::Replay(replay) => Some(&replay.events),
        _ => None,
    }
}

fn name_bytes(role: Role, command: &Command) -> &[u8]
    ensures { result.now ≡ name_of command.now role }
{
    bytes_or_none(file(command, role))
}

fn bytes_or_none(name: Option<&Txt>) -> &[u8]
    ensures { result.now ≡ name_or_empty (option_copied name.entry) }
{
    match name {
        None => b"",
        Some(name) => name.as_bytes(),
    }
}

fn limit_bytes(role: Role) -> &'static [u8]
    ensures { result.now ≡ limit_text role }
{
    match role {
        Role::App | Role::New | Role::Sessions => b", limit 1048576\n",
        Role::Events => b", limit 16777216\n",
    }
}

/// Writes the line that says why a command ended. It needs no memory.
pub fn put_fault<O: Sink>(
    out: &mut O,
    command: &Command,
    exit_reason: &ExitReason,
) -> Result<(), Failed>
    ensures { IsPut (span (O.seen out.old) (O.seen out.new)) (fault_line command.now
        exit_reason.now)
        result }
{
    match exit_reason {
        ExitReason::ReadFault(role) => put_three(
            out,
            b"read fault: ",
            name_bytes(*role, command),
            b"\n",
        ),
        ExitReason::TooLong(role) => put_three(
            out,
            b"too long: ",
            name_bytes(*role, command),
            limit_bytes(*role),
        ),
        ExitReason::AppRefused(line) => put(out, line.as_bytes()),
        ExitReason::NewRefused(line) => put_two(out, b"new", behind_role(line.as_bytes())),
        ExitReason::UpgradeRefused(line) => put(out, line.as_bytes()),
        ExitReason::LineRefused(event_fault) => put_event_fault(out, *event_fault),
        ExitReason::SessionsRefused(line) => put_bad_line(out, *line),
        ExitReason::WriteFault => put(out, b"write fault\n"),
        ExitReason::StoreFault => put(out, b"store fault\n"),
        ExitReason::DoorFault => put(out, b"door fault\n"),
        ExitReason::OtherStore { stored, wanted } => put_five(
            out,
            b"other schema: ",
            stored.as_bytes(),
            b" | ",
            wanted.as_bytes(),
            b"\n",
        ),
        ExitReason::Memory => put(out, b"memory\n"),
    }
}

// What follows the three letters of a role's name.
fn behind_role(line: &[u8]) -> &[u8]
    ensures { result.now ≡ behind_role line.now }
{
    &line[line.len().min(3)..]
}

fn put_bad_line<O: Sink>(out: &mut O, line: u64) -> Result<(), Failed>
    ensures { IsPut (span (O.seen out.old) (O.seen out.new)) (codes "sessions: line " ++ decimal
        line ++ codes "\n") result }
{
    let mut buffer = Buffer::new();
    let digits = buffer.format(line);
    put_three(out, b"sessions: line ", digits.as_bytes(), b"\n")
}

fn put_event_fault<O: Sink>(out: &mut O, event_fault: EventFault) -> Result<(), Failed>
    ensures { IsPut (span (O.seen out.old) (O.seen out.new)) (event_fault_line event_fault) result }
{
    match event_fault {
        EventFault::NoForm { line } => put_formless(out, line),
        EventFault::NotOpen { line, conn } => put_conn_fault(out, line, conn, b" is not open\n"),
        EventFault::AlreadyOpen { line, conn } => put_conn_fault(out, line, conn, b" is open\n"),
    }
}

fn put_formless<O: Sink>(out: &mut O, line: u64) -> Result<(), Failed>
    ensures { IsPut (span (O.seen out.old) (O.seen out.new)) (codes "events: line " ++ decimal line
        ++ codes ": no form\n") result }
{
    let mut buffer = Buffer::new();
    let digits = buffer.format(line);
    put_three(out, b"events: line ", digits.as_bytes(), b": no form\n")
}

fn put_conn_fault<O: Sink>(out: &mut O, line: u64, conn: u32, fault: &[u8]) -> Result<(), Failed>
    ensures { IsPut (span (O.seen out.old) (O.seen out.new)) (codes "events: line " ++ decimal line
        ++ codes ": connection " ++ decimal conn ++ fault.now) result }
{
    let mut line_buffer = Buffer::new();
    let mut conn_buffer = Buffer::new();
    let line_digits = line_buffer.format(line);
    let conn_digits = conn_buffer.format(conn);
    put_five(
        out,
        b"events: line ",
        line_digits.as_bytes(),
        b": connection ",
        conn_digits.as_bytes(),
        fault,
    )
}

/// The status of a run that ended for this reason.
pub fn status_of(exit_reason: &ExitReason) -> Status
    ensures { result ≡ status_of exit_reason.now }
{
    match exit_reason {
        ExitReason::ReadFault(_) => Status::ReadFault,
        ExitReason::TooLong(_) => Status::TooLong,
        ExitReason::AppRefused(_) | ExitReason::NewRefused(_) => Status::AppRefused,
        ExitReason::UpgradeRefused(_) => Status::UpgradeRefused,
        ExitReason::LineRefused(_) | ExitReason::SessionsRefused(_) => Status::LineRefused,
        ExitReason::WriteFault => Status::WriteFault,
        ExitReason::StoreFault => Status::StoreFault,
        ExitReason::DoorFault => Status::DoorFault,
        ExitReason::OtherStore { .. } => Status::OtherStore,
        ExitReason::Memory => Status::Memory,
    }
}
