ghost use Rattle.std.specs.Prelude.{◌≡◌, ◌⊎◌, ◌≤◌, ◌∷◌, ◌++◌, [], length, option_to_list, IsTrue, IfOk, IfErr, Some, Ok};
ghost use Rattle.std.specs.Option.{option_copied};
ghost use Rattle.jac_io.specs.Seen.{FilesLast};
ghost use Rattle.jac_lang.specs.Mirror.{application_of};
ghost use Rattle.jac_route.specs.Sessions.{sessions_in};
ghost use Rattle.jac_app_load.specs.Application.{IsApplication};
ghost use Rattle.jac_app_load.specs.Refusal.{refusal_text};
ghost use Rattle.jac_serve_events.specs.Outside.{span};
ghost use Rattle.jac_cli.specs.Commands.{limit_of};
ghost use Rattle.jac_command_base.specs.Files.{HasSessions, IsAppless, IsSpelledIn, IsUnread, IsUnopened, IsNextUnopened, IsUnlisted, IsSessionless, of_next};

use crate::exit_reason::{ExitReason, limit};
use jac_app_load::{Refusal, Service, read_application, refusal_line};
use jac_cli::Role;
use jac_io::{FileFault, Files};
use jac_route::{SessionFault, Sessions, sessions_of};
use jac_value::{Bytes, Memory, Txt};
use std::alloc::Global;

pub fn read_file<F: Files>(
    alloc: Global,
    files: &mut F,
    name: &Txt,
    role: Role,
) -> Result<Bytes, ExitReason>
    ensures asked { (F.seen files.new).asked ≡ (F.seen files.old).asked ++ name.now ∷ [] }
    ensures lasts { FilesLast (F.seen files.old) (F.seen files.new) }
    ensures short { IfOk result (λ bytes. length bytes ≤ limit_of role) }
    ensures told { IsTrue (F.seen files.new).tells
        → IfOk result (λ bytes. (F.seen files.old).file name.now ≡ Some bytes) }
    ensures unread { IfErr result (IsUnread (span (F.seen files.old) (F.seen files.new)) name.now
        role) }
{
    match files.read_all(alloc, name, limit(role)) {
        Ok(bytes) => Ok(bytes),
        Err(FileFault::Failed) => Err(ExitReason::ReadFault(role)),
        Err(FileFault::TooLong) => Err(ExitReason::TooLong(role)),
        Err(FileFault::Memory) => Err(ExitReason::Memory),
    }
}

pub fn open_app(alloc: Global, bytes: &[u8]) -> Result<Service, ExitReason>
    requires { length bytes.now ≤ limit_of Role.App }
    ensures opened { IfOk result (λ service. IsApplication bytes.now (application_of service)) }
    ensures few { IfOk result (λ service. length (application_of service).models ≤ 64) }
    ensures unopened { IfErr result (λ exit_reason. IsUnopened bytes.now exit_reason) }
{
    match read_application(alloc, bytes) {
        Ok(service) => {
            let _app = service.app();
            Ok(service)
        }
        Err(refusal) => Err(refused(alloc, &refusal)),
    }
}

/// Reads the application from the file with this name.
pub fn read_app<F: Files>(alloc: Global, files: &mut F, name: &Txt) -> Result<Service, ExitReason>
    ensures asked { (F.seen files.new).asked ≡ (F.seen files.old).asked ++ name.now ∷ [] }
    ensures lasts { FilesLast (F.seen files.old) (F.seen files.new) }
    ensures spelled { IfOk result (λ service. IsSpelledIn
        (span (F.seen files.old) (F.seen files.new)) name.now (application_of service)) }
    ensures appless { IfErr result (IsAppless (span (F.seen files.old) (F.seen files.new))
        name.now) }
{
    let bytes = match read_file(alloc, files, name, Role::App) {
        Ok(bytes) => bytes,
        Err(exit_reason) => return Err(exit_reason),
    };
    let service = match open_app(alloc, bytes.as_slice()) {
        Ok(service) => service,
        Err(exit_reason) => return Err(exit_reason),
    };
    Ok(service)
}

/// Reads the application to upgrade to from these bytes.
pub fn open_next(alloc: Global, bytes: &[u8]) -> Result<Service, ExitReason>
    requires { length bytes.now ≤ limit_of Role.New }
    ensures opened { IfOk result (λ service. IsApplication bytes.now (application_of service)) }
    ensures few { IfOk result (λ service. length (application_of service).models ≤ 64) }
    ensures unopened { IfErr result (λ exit_reason. IsNextUnopened bytes.now exit_reason) }
{
    match open_app(alloc, bytes) {
        Ok(service) => Ok(service),
        Err(exit_reason) => Err(of_next(exit_reason)),
    }
}

fn of_next(exit_reason: ExitReason) -> ExitReason
    ensures { result ≡ of_next exit_reason }
{
    match exit_reason {
        ExitReason::AppRefused(line) => ExitReason::NewRefused(line),
        other => other,
    }
}

fn refused(alloc: Global, refusal: &Refusal) -> ExitReason
    ensures { ((¬ (refusal.now ≡ Refusal.Memory))
        × (result ≡ ExitReason.AppRefused (refusal_text refusal.now))) ⊎
        (result ≡ ExitReason.Memory) }
{
    match refusal_line(alloc, refusal) {
        Ok(line) => ExitReason::AppRefused(line),
        Err(Memory) => ExitReason::Memory,
    }
}

// Reads the sessions from the file with this name. Without a name, there are none.
pub fn read_sessions<F: Files>(
    alloc: Global,
    files: &mut F,
    name: Option<&Txt>,
) -> Result<Sessions, ExitReason>
    ensures asked { (F.seen files.new).asked ≡ (F.seen files.old).asked ++ option_to_list
        (option_copied name.entry) }
    ensures lasts { FilesLast (F.seen files.old) (F.seen files.new) }
    ensures had { IfOk result (HasSessions (span (F.seen files.old) (F.seen files.new))
        (option_copied name.entry)) }
    ensures sessionless { IfErr result (IsSessionless (span (F.seen files.old) (F.seen files.new))
        (option_copied name.entry)) }
{
    let name = match name {
        None => return Ok(Sessions::empty(alloc)),
        Some(name) => name,
    };
    match read_file(alloc, files, name, Role::Sessions) {
        Ok(bytes) => list_sessions(alloc, bytes.as_slice()),
        Err(exit_reason) => Err(exit_reason),
    }
}

fn list_sessions(alloc: Global, bytes: &[u8]) -> Result<Sessions, ExitReason>
    ensures listed { IfOk result (λ sessions. sessions_in bytes.now ≡ Ok sessions) }
    ensures unlisted { IfErr result (IsUnlisted bytes.now) }
{
    match sessions_of(alloc, bytes) {
        Ok(sessions) => Ok(sessions),
        Err(SessionFault::BadLine(line)) => Err(ExitReason::SessionsRefused(line)),
        Err(SessionFault::Memory) => Err(ExitReason::Memory),
    }
}
