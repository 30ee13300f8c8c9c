//! What bytes are written to. The bytes that writes took are known.
ghost use Rattle.std.specs.Prelude.{◌≡◌, ◌≤◌, [], ◌∷◌, ◌++◌, length, take, IfOk, OnOk, OnErr, MatchResult};
ghost use Rattle.jac_io.specs.Put.{AddsPrefix};
ghost use Rattle.jac_host.specs.Sinks.{took, aims, sink_seen};

use crate::calls::{aim_nowhere, drop_bytes, open_audit, write_once};
use crate::faults::counted;
use crate::journal::Journal;
use crate::told::tell;
use jac_io::{AuditSink, Failed, Sink};
use jac_value::Txt;
use std::fs::File;
use std::io;
use std::io::{ErrorKind, Write};

/// Standard output. Each put is written at once. The bytes that writes took are known.
#[derive(Drop)]
pub struct Stdout<'r> {
    rt: &'r HostRuntime,
    journal: Journal,
    faults: u64,
}

impl<'r> Stdout<'r> {
    pub fn new(rt: &'r HostRuntime) -> Stdout<'r>
        ensures events { result.journal.events ≡ [] }
        ensures faults { result.faults ≡ 0 }
    {
        Stdout {
            rt,
            journal: Journal::new(),
            faults: 0,
        }
    }
}

impl Sink for Stdout<'_> {
    ghost seen = { λ s. sink_seen s.journal.events s.faults };

    fn put(&mut self, bytes: &[u8]) -> Result<(), Failed> {
        match write_whole(&mut io::writer(self.rt), &mut self.journal, bytes) {
            Ok(()) => Ok(()),
            Err(error) => {
                tell(self.rt, &"standard output", &error);
                Err(counted(&mut self.faults))
            }
        }
    }
}

/// The audit's file. If it doesn't exist, aiming the audit makes it. Otherwise writes are appended
/// to it. An audit that is directed to no file takes its bytes and drops them. Each put is written
/// at once. Its aims and the bytes that it took are known.
#[derive(Drop)]
pub struct HostAudit<'r> {
    rt: &'r HostRuntime,
    file: Option<Named>,
    journal: Journal,
    faults: u64,
}

// An open file, and its name.
#[derive(Drop)]
struct Named {
    name: Txt,
    file: File,
}

impl<'r> HostAudit<'r> {
    pub fn new(rt: &'r HostRuntime) -> HostAudit<'r>
        ensures events { result.journal.events ≡ [] }
        ensures faults { result.faults ≡ 0 }
    {
        HostAudit {
            rt,
            file: None,
            journal: Journal::new(),
            faults: 0,
        }
    }
}

impl Sink for HostAudit<'_> {
    ghost seen = { λ s. sink_seen s.journal.events s.faults };

    fn put(&mut self, bytes: &[u8]) -> Result<(), Failed> {
        match write_to(self.rt, &mut self.file, &mut self.journal, bytes) {
            Ok(()) => Ok(()),
            Err(Failed) => Err(counted(&mut self.faults)),
        }
    }
}

impl AuditSink for HostAudit<'_> {
    fn aim(&mut self, name: Option<Txt>) -> Result<(), Failed> {
        match open_named(self.rt, &mut self.journal, name) {
            Ok(file) => {
                self.file = file;
                Ok(())
            }
            Err(Failed) => Err(counted(&mut self.faults)),
        }
    }
}

// Writes once. After a signal no bytes are written.
fn write_some<W: Write>(to: &mut W, journal: &mut Journal, bytes: &[u8]) -> io::Result<usize>
    ensures within { IfOk result (λ count. count ≤ length bytes.now) }
    ensures took { MatchResult result
        (λ count. took journal.new.events ≡ took journal.old.events ++ take count bytes.now)
        (λ _. took journal.new.events ≡ took journal.old.events) }
    ensures aims { aims journal.new.events ≡ aims journal.old.events }
{
    match write_once(to, journal, bytes) {
        Ok(0) => Err(io::Error::from(ErrorKind::WriteZero)),
        Ok(count) => Ok(count),
        Err(error) => match error.kind() {
            ErrorKind::Interrupted => Ok(0),
            _ => Err(error),
        },
    }
}

// Writes all the bytes, in as many writes as necessary.
#[tactic(auto, using(crate::proofs::SinkLaws::front_put, crate::proofs::SinkLaws::more_put))]
fn write_whole<W: Write>(to: &mut W, journal: &mut Journal, bytes: &[u8]) -> io::Result<()>
    ensures ok { OnOk result (took journal.new.events ≡ took journal.old.events ++ bytes.now) }
    ensures err { OnErr result (AddsPrefix (took journal.old.events) (took journal.new.events)
        bytes.now) }
    ensures aims { aims journal.new.events ≡ aims journal.old.events }
{
    let mut done = 0;
    'writes: for _ in 0..u64::MAX {
        if done == bytes.len() {
            return Ok(());
        }
        match write_some(to, journal, &bytes[done..]) {
            Ok(count) => done += count,
            Err(error) => return Err(error),
        }
    }
    Err(io::Error::from(ErrorKind::WriteZero))
}

// An audit that is directed to no file takes all bytes and drops them.
fn write_to(
    rt: &HostRuntime,
    file: &mut Option<Named>,
    journal: &mut Journal,
    bytes: &[u8],
) -> Result<(), Failed>
    ensures ok { OnOk result (took journal.new.events ≡ took journal.old.events ++ bytes.now) }
    ensures err { OnErr result (AddsPrefix (took journal.old.events) (took journal.new.events)
        bytes.now) }
    ensures aims { aims journal.new.events ≡ aims journal.old.events }
{
    match file {
        None => {
            drop_bytes(journal, bytes);
            Ok(())
        }
        Some(named) => match write_whole(&mut named.file, journal, bytes) {
            Ok(()) => Ok(()),
            Err(error) => {
                tell(rt, &named.name.as_str(), &error);
                Err(Failed)
            }
        },
    }
}

// Opens the file, and notes that the audit is directed to it.
fn open_named(
    rt: &HostRuntime,
    journal: &mut Journal,
    name: Option<Txt>,
) -> Result<Option<Named>, Failed>
    ensures took { took journal.new.events ≡ took journal.old.events }
    ensures ok { OnOk result (aims journal.new.events ≡ aims journal.old.events ++ (
      name,
      length
          (took journal.old.events),
    ) ∷ []) }
    ensures err { OnErr result (aims journal.new.events ≡ aims journal.old.events) }
{
    match name {
        None => {
            aim_nowhere(journal);
            Ok(None)
        }
        Some(name) => {
            match open_audit(rt, journal, name.as_str()) {
                Ok(file) => Ok(Some(Named { name, file })),
                Err(error) => {
                    tell(rt, &name.as_str(), &error);
                    Err(Failed)
                }
            }
        }
    }
}
