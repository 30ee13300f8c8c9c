ghost use Rattle.std.specs.Prelude.{◌≡◌, ◌↔◌, [], true, IsTrue, IsErrOf};
ghost use Rattle.jac_io.specs.Seen.{ReadsFile};

use crate::asked::Asked;
use crate::{Calls, FileFault, Files, NamedFiles};
use jac_value::{Bytes, Txt};
use std::alloc::Global;
use std::marker::Model;

/// Files in memory. A read fails if its number is listed, or if there is no file of this name.
#[derive(Debug, Drop)]
pub struct MemoryFiles {
    files: NamedFiles,
    fails: Calls,
    calls: u64,
    faults: u64,
    asked: Asked,
}

impl Model for MemoryFiles {
    ghost use Rattle.jac_io.specs.FilesState.{FilesState};

    ghost Value = { FilesState };

    ghost view = { λ m. record { files = m.files; fails = m.fails; calls = m.calls; faults = m.faults; asked = m.asked.names } };
}

impl MemoryFiles {
    pub fn new(files: NamedFiles, fails: Calls) -> MemoryFiles
        ensures { result ≡ record {
          files = files;
          fails = fails;
          calls = 0;
          faults = 0;
          asked = [];
        } }
    {
        MemoryFiles {
            files,
            fails,
            calls: 0,
            faults: 0,
            asked: Asked::new(),
        }
    }
}

impl Files for MemoryFiles {
    ghost use Rattle.jac_io.specs.FilesState.{file_read_fails, files_after_read, seen_files};

    ghost seen = { seen_files };

    fn read_all(&mut self, alloc: Global, name: &Txt, limit: usize) -> Result<Bytes, FileFault>
        ensures left { self.new ≡ files_after_read self.old name.now }
        ensures failed { IsErrOf result FileFault.Failed ↔ IsTrue
            (file_read_fails self.old name.now) }
        ensures reads { ReadsFile (seen_files self.old) (seen_files self.new) name.now limit
            result }
    {
        self.asked = self.asked.with(name);
        self.calls = self.calls.saturating_add(1);
        let listed = self.fails.lists(self.calls);
        if listed {
            self.faults = self.faults.saturating_add(1);
            return Err(FileFault::Failed);
        }
        let found = self.files.find(name);
        let Some(bytes) = found else {
            self.faults = self.faults.saturating_add(1);
            return Err(FileFault::Failed);
        };
        if bytes.as_slice().len() > limit {
            return Err(FileFault::TooLong);
        }
        let bytes = bytes.copy(alloc)?;
        Ok(bytes)
    }
}
