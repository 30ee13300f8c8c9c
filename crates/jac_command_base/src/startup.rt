//! How a command that answers over a store begins.
ghost use Rattle.std.specs.Prelude.{◌≡◌, ◌++◌, option_to_list, IfErr, IfOk, IsOk, false};
ghost use Rattle.std.specs.Option.{option_copied};
ghost use Rattle.jac_io.specs.Seen.{FilesLast};
ghost use Rattle.jac_lang.specs.Mirror.{application_of};
ghost use Rattle.jac_plain.specs.Models.{shapes_of};
ghost use Rattle.jac_keep.specs.Schema.{IsSchema};
ghost use Rattle.jac_app_load.specs.Application.{schema_text};
ghost use Rattle.jac_serve_events.specs.Outside.{span};
ghost use Rattle.jac_cli.specs.Commands.{db_of, file_of, name_of};
ghost use Rattle.jac_command_base.specs.Files.{AsksForFiles, files_of};
ghost use Rattle.jac_command_base.specs.Startup.{command_in, AreFilesRead, BeginsAs, EndsAim, EndsAiming, EndsReading, HasEvents, IsEventless, OpensAs};

use crate::attachment::attach;
use crate::exit_reason::ExitReason;
use crate::files::{read_app, read_file, read_sessions};
use crate::names::named;
use jac_app_load::Service;
use jac_cli::{DumpArgs, Replay, Role, ServeArgs, WhyArgs};
use jac_io::{AuditSink, Failed, Files};
use jac_keep::Vault;
use jac_route::Sessions;
use jac_value::{Bytes, Memory, Txt, copy_name};
use std::alloc::Global;

/// A command that begins this way.
#[derive(Clone, Copy)]
pub enum StoreCommand<'c> {
    Replay(&'c Replay),
    Serve(&'c ServeArgs),
    Dump(&'c DumpArgs),
    Why(&'c WhyArgs),
}

/// An application whose store is attached. If the command names no file of sessions, or of events,
/// there are none.
#[derive(Drop)]
pub struct Opened {
    pub service: Service,
    pub sessions: Sessions,
    pub events: Bytes,
}

// The application's file.
fn app_file<'c>(opening: StoreCommand<'c>) -> &'c Txt
    ensures { result.now ≡ name_of (command_in opening.entry) Role.App }
{
    match opening {
        StoreCommand::Replay(replay) => &replay.app,
        StoreCommand::Serve(serving) => &serving.app,
        StoreCommand::Dump(dumping) => &dumping.app,
        StoreCommand::Why(explaining) => &explaining.app,
    }
}

fn sessions_file<'c>(opening: StoreCommand<'c>) -> Option<&'c Txt>
    ensures { option_copied result ≡ file_of (command_in opening.entry) Role.Sessions }
{
    match opening {
        StoreCommand::Replay(replay) => named(&replay.sessions),
        StoreCommand::Serve(serving) => named(&serving.sessions),
        StoreCommand::Dump(_) => None,
        StoreCommand::Why(_) => None,
    }
}

fn events_file<'c>(opening: StoreCommand<'c>) -> Option<&'c Txt>
    ensures { option_copied result ≡ file_of (command_in opening.entry) Role.Events }
{
    match opening {
        StoreCommand::Replay(replay) => Some(&replay.events),
        StoreCommand::Serve(_) => None,
        StoreCommand::Dump(_) => None,
        StoreCommand::Why(_) => None,
    }
}

// The name of the store, if there is one.
fn db_name<'c>(opening: StoreCommand<'c>) -> Option<&'c Txt>
    ensures { option_copied result ≡ db_of (command_in opening.entry) }
{
    match opening {
        StoreCommand::Replay(replay) => named(&replay.db),
        StoreCommand::Serve(serving) => named(&serving.db),
        StoreCommand::Dump(dumping) => named(&dumping.db),
        StoreCommand::Why(explaining) => named(&explaining.db),
    }
}

// Reads the events from the file with this name. Without a name, there are none.
fn read_events<F: Files>(
    alloc: Global,
    files: &mut F,
    name: Option<&Txt>,
) -> Result<Bytes, ExitReason>
    ensures asked { (F.seen files.new).asked ≡ (F.seen files.old).asked ++ option_to_list
        (option_copied name.entry) }
    ensures lasts { FilesLast (F.seen files.old) (F.seen files.new) }
    ensures had { IfOk result (HasEvents (span (F.seen files.old) (F.seen files.new))
        (option_copied name.entry)) }
    ensures eventless { IfErr result (IsEventless (span (F.seen files.old) (F.seen files.new))
        (option_copied name.entry)) }
{
    let name = match name {
        None => return Ok(Bytes::empty(alloc)),
        Some(name) => name,
    };
    match read_file(alloc, files, name, Role::Events) {
        Ok(bytes) => Ok(bytes),
        Err(exit_reason) => Err(exit_reason),
    }
}

// Reads the files that the command names.
fn open_files<F: Files>(
    alloc: Global,
    opening: StoreCommand<'_>,
    files: &mut F,
) -> Result<Opened, ExitReason>
    ensures asks { AsksForFiles (span (F.seen files.old) (F.seen files.new))
        (files_of (command_in opening.entry)) (IsOk result) }
    ensures read { IfOk result (λ opened. AreFilesRead (command_in opening.entry)
        (span (F.seen files.old) (F.seen files.new)) (application_of opened.service)
        opened.sessions opened.events) }
    ensures ends { IfErr result (EndsReading (command_in opening.entry)
        (span (F.seen files.old) (F.seen files.new))) }
{
    let service = match read_app(alloc, files, app_file(opening)) {
        Ok(service) => service,
        Err(exit_reason) => return Err(exit_reason),
    };
    let sessions = match read_sessions(alloc, files, sessions_file(opening)) {
        Ok(sessions) => sessions,
        Err(exit_reason) => return Err(exit_reason),
    };
    let events = match read_events(alloc, files, events_file(opening)) {
        Ok(events) => events,
        Err(exit_reason) => return Err(exit_reason),
    };
    Ok(Opened {
        service,
        sessions,
        events,
    })
}

// Aims the audit at the file with this name, or at none.
fn aim_at<U: AuditSink>(alloc: Global, name: Option<&Txt>, audit: &mut U) -> Result<(), ExitReason>
    ensures { EndsAim (option_copied name.entry) (span (U.seen audit.old) (U.seen audit.new))
        result }
{
    let aim = match copy_name(alloc, name) {
        Ok(aim) => aim,
        Err(Memory) => return Err(ExitReason::Memory),
    };
    match audit.aim(aim) {
        Ok(()) => Ok(()),
        Err(Failed) => Err(ExitReason::WriteFault),
    }
}

// Aims the audit, if the command serves.
fn aim_audit<U: AuditSink>(
    alloc: Global,
    opening: StoreCommand<'_>,
    audit: &mut U,
) -> Result<(), ExitReason>
    ensures { EndsAiming (command_in opening.entry) (span (U.seen audit.old) (U.seen audit.new))
        result }
{
    match opening {
        StoreCommand::Replay(replay) => aim_at(alloc, named(&replay.audit), audit),
        StoreCommand::Serve(serving) => aim_at(alloc, named(&serving.audit), audit),
        StoreCommand::Dump(_) => Ok(()),
        StoreCommand::Why(_) => Ok(()),
    }
}

// Aims the audit, and attaches the store.
fn begin<U: AuditSink, K: Vault>(
    alloc: Global,
    opening: StoreCommand<'_>,
    service: &Service,
    schema: Txt,
    audit: &mut U,
    vault: &mut K,
) -> Result<(), ExitReason>
    requires first { (K.seen vault.old).store.called ≡ false }
    requires own { schema ≡ schema_text (application_of service.now) }
    requires schema { IsSchema schema (shapes_of (application_of service.now)) }
    ensures { BeginsAs (command_in opening.entry) (application_of service.now)
        (span (U.seen audit.old) (U.seen audit.new)) (span (K.seen vault.old) (K.seen vault.new))
        result }
{
    match aim_audit(alloc, opening, audit) {
        Ok(()) => attach(alloc, service, db_name(opening), schema, vault),
        Err(exit_reason) => Err(exit_reason),
    }
}

/// The first steps of a command that works on a store. They read the application, the sessions and
/// the events that it names, aim its audit if it serves, and attach the store for the application.
pub fn open_store<F: Files, U: AuditSink, K: Vault>(
    alloc: Global,
    opening: StoreCommand<'_>,
    files: &mut F,
    audit: &mut U,
    vault: &mut K,
) -> Result<Opened, ExitReason>
    requires first { (K.seen vault.old).store.called ≡ false }
    ensures asks { AsksForFiles (span (F.seen files.old) (F.seen files.new))
        (files_of (command_in opening.entry)) (IsOk result) }
    ensures opens { OpensAs (command_in opening.entry) (span (F.seen files.old) (F.seen files.new))
        (span (U.seen audit.old) (U.seen audit.new)) (span (K.seen vault.old) (K.seen vault.new))
        result }
{
    let opened = match open_files(alloc, opening, files) {
        Ok(opened) => opened,
        Err(exit_reason) => return Err(exit_reason),
    };
    let schema = match opened.service.schema(alloc) {
        Ok(schema) => schema,
        Err(Memory) => return Err(ExitReason::Memory),
    };
    match begin(alloc, opening, &opened.service, schema, audit, vault) {
        Ok(()) => Ok(opened),
        Err(exit_reason) => Err(exit_reason),
    }
}
