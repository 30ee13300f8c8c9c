ghost use Rattle.std.specs.Prelude.{◌≡◌, ◌≤◌, ℕ, List, Option, Some, None, codes, false, Err, IfOk, IsErr};
ghost use Rattle.std.specs.Option.{option_copied};
ghost use Rattle.sqlite.specs.Files.{file_state, IsOpened};
ghost use Rattle.sqlite.specs.Held.{Held, IsNew, state};
ghost use Rattle.sqlite.specs.State.{HasCleanDisk};
ghost use Rattle.sqlite.specs.Steps.{over_memory, IsEmpty};
ghost use Rattle.sqlite_wal.specs.Files.{image_at};
ghost use Rattle.jac_io.specs.Faults.{Rose};
ghost use Rattle.jac_sqlkeep.specs.Opening.{OpensFile, IsFileGiven, GivesOne, one_or_none};

use crate::cause::stop_of;
use jac_keep::{AttachFault, Stop};
use jac_value::Txt;
use sqlite::{
    Alter, Connection, Error, ErrorCode, File, FileFrom, FileStore, MemStore, Start, Unknown,
};
use std::alloc::{AllocError, Global};
use std::{fs, io};

/// What opens a database.
pub trait Opener {
    /// Where the tables are stored: a file or memory.
    type Store: Alter + Drop;

    /// How often an opening failed. The count never falls, and it stops at 2^64 - 1.
    ghost faults: { Self → ℕ };

    /// How many connections it gave.
    ghost gave: { Self → ℕ };

    /// What is known of a connection with this name when it is given.
    ghost gives: { Option (List ℕ) → Held Self.Store → Type 0 };

    /// Opens the database of this name, or makes it.
    fn open(
        &mut self,
        alloc: Global,
        name: Option<&Txt>,
    ) -> Result<Connection<Self::Store>, AttachFault>
        ensures opens { OpensFile (faults self.old) (faults self.new) result }
        ensures counts { GivesOne (gave self.old) (gave self.new) result }
        ensures gives { IfOk result (gives (option_copied name.entry)) }
        ensures outside { IfOk result (λ c. c.in_transaction ≡ false) };
}

/// Why a file wasn't opened.
#[derive(Clone, Copy)]
pub enum OpenFault {
    /// The file doesn't exist, and it isn't to be made.
    Missing,
    /// Another program has it open.
    Held,
    /// The file doesn't hold a sound database.
    Unsound,
    Memory,
    Other,
}

// The result of opening the file: whether it was opened, the name of the log that was made, why the
// last opening failed, and how often an opening failed.
#[derive(Drop)]
struct Outcome {
    opened: bool,
    log: Option<Txt>,
    fault: Option<OpenFault>,
    faults: u64,
}

impl Outcome {
    fn none() -> Outcome
        ensures faults { result.faults ≡ 0 }
        ensures opened { result.opened ≡ false }
    {
        Outcome {
            opened: false,
            log: None,
            fault: None,
            faults: 0,
        }
    }

    fn fail(&mut self, fault: OpenFault) -> AttachFault
        ensures later { self.old.faults ≤ self.new.faults }
        ensures rose { Rose self.old.faults self.new.faults }
        ensures failed { result ≡ AttachFault.Failed }
        ensures same { self.new.opened ≡ self.old.opened }
    {
        self.fault = Some(fault);
        self.faults = self.faults.saturating_add(1);
        AttachFault::Failed
    }
}

/// Opens a file, once. The contents of the file are supposed: if the disk is clean, the database is
/// the one that these bytes of its log and its file represent.
#[derive(Drop)]
pub struct FileOpener<S: Start> {
    rt: HostRuntime,
    makes: bool,
    start: Option<S>,
    outcome: Outcome,
}

impl<S: Start> FileOpener<S> {
    /// An opener that makes the file if it doesn't exist, or one that fails then.
    pub fn new(rt: HostRuntime, makes: bool, start: S) -> FileOpener<S>
        ensures faults { result.outcome.faults ≡ 0 }
        ensures opened { result.outcome.opened ≡ false }
    {
        FileOpener {
            rt,
            makes,
            start: Some(start),
            outcome: Outcome::none(),
        }
    }

    /// If the file was opened, the name of the log that the opening made. It makes one if the file
    /// existed and had no log.
    pub fn new_log(&self) -> Option<&Txt> {
        self.outcome.log.as_ref()
    }

    /// Why the last opening failed.
    pub fn fault(&self) -> Option<OpenFault> {
        self.outcome.fault
    }

    pub fn runtime(&self) -> &HostRuntime {
        &self.rt
    }
}

impl<S: Start> Opener for FileOpener<S> {
    type Store = FileStore<FileFrom<S>>;

    ghost faults = { λ o. o.outcome.faults };

    ghost gave = { λ o. one_or_none o.outcome.opened };

    ghost gives = { λ name c. IsFileGiven (image_at S.Start) (file_state c) × IsNew c };

    /// Fails with `Failed` if there is no name, or if it opened a file before. No contract says
    /// that the file is the one with this name, because only the host knows that.
    fn open(
        &mut self,
        _: Global,
        name: Option<&Txt>,
    ) -> Result<Connection<FileStore<FileFrom<S>>>, AttachFault>
        ensures opens { OpensFile self.old.outcome.faults self.new.outcome.faults result }
        ensures counts { GivesOne (one_or_none self.old.outcome.opened)
            (one_or_none self.new.outcome.opened) result }
        ensures gives { IfOk result (λ c. IsFileGiven (image_at S.Start) (file_state c)
            × IsNew c) }
        ensures outside { IfOk result (λ c. c.in_transaction ≡ false) }
        ensures unnamed { option_copied name.entry ≡ None → IsErr result }
        ensures memory { option_copied name.entry ≡ Some (codes ":memory:") → IsErr result }
    {
        let start = self.start.take();
        open_once(&self.rt, self.makes, name, start, &mut self.outcome)
    }
}

/// Opens the file of a program, once. Nothing is supposed of the file. It opens as `FileOpener`
/// does, and has no type parameter.
#[derive(Drop)]
pub struct HostOpener {
    rt: HostRuntime,
    makes: bool,
    start: Option<Unknown>,
    outcome: Outcome,
}

impl HostOpener {
    /// An opener that makes the file if it doesn't exist, or one that fails then.
    pub fn new(rt: HostRuntime, makes: bool) -> HostOpener
        ensures faults { result.outcome.faults ≡ 0 }
        ensures opened { result.outcome.opened ≡ false }
    {
        HostOpener {
            rt,
            makes,
            start: Some(Unknown),
            outcome: Outcome::none(),
        }
    }

    /// If the file was opened, the name of the log that the opening made. It makes one if the file
    /// existed and had no log.
    pub fn new_log(&self) -> Option<&Txt> {
        self.outcome.log.as_ref()
    }

    /// Why the last opening failed.
    pub fn fault(&self) -> Option<OpenFault> {
        self.outcome.fault
    }

    pub fn runtime(&self) -> &HostRuntime {
        &self.rt
    }
}

impl Opener for HostOpener {
    type Store = FileStore<File>;

    ghost faults = { λ o. o.outcome.faults };

    ghost gave = { λ o. one_or_none o.outcome.opened };

    ghost gives = { λ name c. (HasCleanDisk (file_state c) → IsOpened c) × IsNew c };

    fn open(
        &mut self,
        _: Global,
        name: Option<&Txt>,
    ) -> Result<Connection<FileStore<File>>, AttachFault>
        ensures opens { OpensFile self.old.outcome.faults self.new.outcome.faults result }
        ensures counts { GivesOne (one_or_none self.old.outcome.opened)
            (one_or_none self.new.outcome.opened) result }
        ensures gives { IfOk result (λ c. (HasCleanDisk (file_state c) → IsOpened c) × IsNew c) }
        ensures outside { IfOk result (λ c. c.in_transaction ≡ false) }
        ensures unnamed { option_copied name.entry ≡ None → IsErr result }
        ensures memory { option_copied name.entry ≡ Some (codes ":memory:") → IsErr result }
    {
        let start = self.start.take();
        open_once(&self.rt, self.makes, name, start, &mut self.outcome)
    }
}

// Opens the file of this name, or makes it. If there is no `start`, a file was opened before.
fn open_once<S: Start>(
    rt: &HostRuntime,
    makes: bool,
    name: Option<&Txt>,
    start: Option<S>,
    outcome: &mut Outcome,
) -> Result<Connection<FileStore<FileFrom<S>>>, AttachFault>
    ensures opens { OpensFile outcome.old.faults outcome.new.faults result }
    ensures counts { GivesOne (one_or_none outcome.old.opened) (one_or_none outcome.new.opened)
        result }
    ensures gives { IfOk result (λ c. IsFileGiven (image_at S.Start) (file_state c) × IsNew c) }
    ensures plain { IfOk result (λ c. (HasCleanDisk (file_state c) → IsOpened c) × IsNew c) }
    ensures outside { IfOk result (λ c. c.in_transaction ≡ false) }
    ensures unnamed { option_copied name.entry ≡ None → IsErr result }
    ensures memory { option_copied name.entry ≡ Some (codes ":memory:") → IsErr result }
{
    if !makes && !is_there(rt, name) {
        return Err(outcome.fail(OpenFault::Missing));
    }
    let Some(start) = start else {
        return Err(outcome.fail(OpenFault::Other));
    };
    if outcome.opened {
        return Err(outcome.fail(OpenFault::Other));
    }
    let log = log_to_come(rt, name);
    match open_file(rt, name, log.as_ref(), start) {
        Ok(conn) => {
            outcome.opened = true;
            outcome.log = log;
            Ok(conn)
        }
        Err(error) => {
            outcome.fault = Some(fault_of(error));
            match stop_of(error, &mut outcome.faults) {
                Stop::Keeper => Err(AttachFault::Failed),
                Stop::Memory => Err(AttachFault::Memory),
            }
        }
    }
}

// Whether there is such a file and it can be read.
fn is_there(rt: &HostRuntime, name: Option<&Txt>) -> bool {
    match name {
        Some(name) => fs::File::open(rt, name.as_str()).is_ok(),
        None => false,
    }
}

fn fault_of(error: Error) -> OpenFault {
    match error {
        Error::SqliteFailure(ErrorCode::DatabaseBusy) => OpenFault::Held,
        Error::SqliteFailure(ErrorCode::NotADatabase | ErrorCode::DatabaseCorrupt) =>
            OpenFault::Unsound,
        Error::SqliteFailure(ErrorCode::OutOfMemory) => OpenFault::Memory,
        _ => OpenFault::Other,
    }
}

// If the file is refused, a log that was made for it is removed while the files are locked. So it
// is this opening's own log. A log that something was written to stays for the next opening.
fn open_file<S: Start>(
    rt: &HostRuntime,
    name: Option<&Txt>,
    log: Option<&Txt>,
    start: S,
) -> Result<Connection<FileStore<FileFrom<S>>>, Error>
    ensures gives { IfOk result (λ c. IsFileGiven (image_at S.Start) (file_state c) × IsNew c) }
    ensures plain { IfOk result (λ c. (HasCleanDisk (file_state c) → IsOpened c) × IsNew c) }
    ensures unnamed { option_copied name.entry ≡ None → IsErr result }
    ensures memory { option_copied name.entry ≡ Some (codes ":memory:") → IsErr result }
{
    let Some(name) = name else {
        return Err(Error::SqliteFailure(ErrorCode::CannotOpen));
    };
    match Connection::open_from(rt, name.as_str(), false, start) {
        Ok(conn) => Ok(conn),
        Err((error, left)) => {
            if left.is_some() {
                remove_if_empty(rt, log);
            }
            Err(error)
        }
    }
}

fn remove_if_empty(rt: &HostRuntime, log: Option<&Txt>) {
    let Some(log) = log else {
        return;
    };
    if is_empty(rt, log.as_str()) {
        let _ = fs::remove_file(rt, log.as_str());
    }
}

fn is_empty(rt: &HostRuntime, name: &str) -> bool {
    match fs::metadata(rt, name) {
        Ok(found) => found.len() == 0,
        Err(_) => false,
    }
}

// The name of the log beside an existing file that has no log yet. If the name is a link, the log
// is beside the file that the link leads to.
fn log_to_come(rt: &HostRuntime, name: Option<&Txt>) -> Option<Txt> {
    let name = name?;
    let Ok(real) = fs::canonicalize(rt, name.as_str()) else {
        return None;
    };
    let Ok(log) = log_beside(rt.alloc(), real.as_str()) else {
        return None;
    };
    match fs::symlink_metadata(rt, log.as_str()) {
        Err(error) if error.kind() == io::ErrorKind::NotFound => Some(log),
        _ => None,
    }
}

fn log_beside(alloc: Global, name: &str) -> Result<Txt, AllocError> {
    let mut log = String::from_str(alloc, name)?;
    log.push_str("-wal")?;
    Ok(Txt::from_string(log))
}

/// Opens a new database in memory, for any name.
#[derive(Drop)]
pub struct MemoryOpener {
    given: u64,
}

impl MemoryOpener {
    pub fn new() -> MemoryOpener
        ensures { result.given ≡ 0 }
    {
        MemoryOpener { given: 0 }
    }
}

impl Opener for MemoryOpener {
    type Store = MemStore;

    ghost faults = { λ _. 0 };

    ghost gave = { λ o. o.given };

    ghost gives = { λ name c. IsEmpty (state over_memory c) × IsNew c };

    /// The database has no tables. After 2^64 - 1 databases it gives none.
    fn open(&mut self, alloc: Global, _: Option<&Txt>) -> Result<Connection<MemStore>, AttachFault>
        ensures opens { OpensFile 0 0 result }
        ensures counts { GivesOne self.old.given self.new.given result }
        ensures gives { IfOk result (λ c. IsEmpty (state over_memory c) × IsNew c) }
        ensures outside { IfOk result (λ c. c.in_transaction ≡ false) }
    {
        let Some(given) = self.given.checked_add(1) else {
            return Err(AttachFault::Memory);
        };
        match Connection::open_in_memory(alloc) {
            Ok(conn) => {
                self.given = given;
                Ok(conn)
            }
            Err(_) => Err(AttachFault::Memory),
        }
    }
}
