ghost use Rattle.std.specs.Prelude.{◌≡◌, ◌≤◌, ◌<◌, [], ◌∷◌, ◌++◌, Some, Err, length, IfOk, IsTrue, IsSomeAnd, vec_len};
ghost use Rattle.jac_host.specs.Gave.{agrees, asked_in, files_seen};

use crate::calls::{open_file, read_once};
use crate::faults::counted;
use crate::journal::Journal;
use crate::outside::Outside;
use crate::told::tell;
use jac_io::{Failed, FileFault, Files};
use jac_value::{Bytes, Txt};
use std::alloc::Global;
use std::fs::File;
use std::io;
use std::io::ErrorKind;
use std::marker::PhantomData;

const CHUNK: usize = 65536;

/// The files of the host. Their contents are known as long as each read agreed with what is
/// supposed.
#[derive(Drop)]
pub struct HostFiles<'r, O: Outside> {
    rt: &'r HostRuntime,
    outside: PhantomData<O>,
    journal: Journal,
    faults: u64,
}

impl<'r, O: Outside> HostFiles<'r, O> {
    pub fn new(rt: &'r HostRuntime) -> HostFiles<'r, O>
        ensures events { result.journal.events ≡ [] }
        ensures faults { result.faults ≡ 0 }
    {
        HostFiles {
            rt,
            outside: PhantomData,
            journal: Journal::new(),
            faults: 0,
        }
    }
}

impl<O: Outside> Files for HostFiles<'_, O> {
    ghost seen = { λ f. files_seen O.file f.journal.events f.faults };

    fn read_all(&mut self, alloc: Global, name: &Txt, limit: usize) -> Result<Bytes, FileFault> {
        match read_file::<O>(self.rt, &mut self.journal, alloc, name.as_str(), limit) {
            Ok(bytes) => Ok(Bytes::from_vec(bytes)),
            Err(Unread::Failed(error)) => {
                tell(self.rt, &name.as_str(), &error);
                let Failed = counted(&mut self.faults);
                Err(FileFault::Failed)
            }
            Err(Unread::TooLong) => Err(FileFault::TooLong),
            Err(Unread::Memory) => Err(FileFault::Memory),
        }
    }
}

// Why a file wasn't read, and what the host reported.
#[derive(Drop)]
enum Unread {
    Failed(io::Error),
    TooLong,
    Memory,
}

fn read_file<O: Outside>(
    rt: &HostRuntime,
    journal: &mut Journal,
    alloc: Global,
    name: &str,
    limit: usize,
) -> Result<Vec<u8>, Unread>
    ensures asked { asked_in journal.new.events ≡ asked_in journal.old.events ++ name.now ∷ [] }
    ensures within { IfOk result (λ v. vec_len v ≤ limit) }
    ensures told { IsTrue (agrees O.file journal.new.events) → IsTrue (agrees O.file
        journal.old.events) }
    ensures exact { IsTrue (agrees O.file journal.new.events) → IfOk result
        (λ v. O.file name.now ≡ Some v.items) }
    ensures too_long { IsTrue (agrees O.file journal.new.events) → result ≡ Err Unread.TooLong →
        IsSomeAnd (O.file name.now) (λ bytes. limit < length bytes) }
{
    let mut bytes = Vec::new(alloc);
    let mut file = match open_file(rt, journal, name) {
        Ok(file) => file,
        Err(error) => return Err(Unread::Failed(error)),
    };
    let mut chunk = [0u8; CHUNK];
    'chunks: for _ in 0..u64::MAX {
        let count = match read_once(&mut file, journal, &mut chunk) {
            Ok(count) => count,
            Err(error) => return Err(Unread::Failed(error)),
        };
        if count == 0 {
            return Ok(bytes);
        }
        if count > limit - bytes.len() {
            return Err(Unread::TooLong);
        }
        if bytes.extend_from_slice(&chunk[..count]).is_err() {
            return Err(Unread::Memory);
        }
    }
    Err(Unread::Failed(io::Error::from(ErrorKind::Other)))
}
