ghost use Rattle.std.specs.Prelude.{◌≡◌, [], IfOk};
ghost use Rattle.std.specs.Option.{option_copied};
ghost use Rattle.jac_io.specs.NamedFiles.{file_named};

use jac_value::{Bytes, Txt};
use std::alloc::Global;
use std::marker::Model;

/// Files by their names. If two files have one name, the first is read.
#[derive(Debug, Drop)]
pub struct NamedFiles {
    files: Vec<(Txt, Bytes)>,
}

impl Model for NamedFiles {
    ghost use Rattle.std.specs.Prelude.{List, ℕ};

    ghost Value = { List (List ℕ × List ℕ) };

    ghost view = { λ f. f.files.items };
}

impl NamedFiles {
    pub fn empty(alloc: Global) -> NamedFiles
        ensures { result ≡ [] }
    {
        NamedFiles {
            files: Vec::new(alloc),
        }
    }

    pub fn from_vec(files: Vec<(Txt, Bytes)>) -> NamedFiles
        ensures { result ≡ files.items }
    {
        NamedFiles { files }
    }

    pub fn into_vec(self) -> Vec<(Txt, Bytes)>
        ensures { result.items ≡ self }
    {
        self.files
    }

    pub fn as_slice(&self) -> &[(Txt, Bytes)]
        ensures { result.now ≡ self.now }
    {
        self.files.as_slice()
    }

    /// The bytes of the file of this name, if there is one.
    pub fn find(&self, name: &Txt) -> Option<&Bytes>
        ensures { option_copied result ≡ file_named self.now name.now }
    {
        let files = self.files.as_slice();
        'files: for file in files {
            if file.0.as_bytes() == name.as_bytes() {
                return Some(&file.1);
            }
        }
        None
    }
}
