//! What opens a store's file, and what is supposed of that file, for contracts alone.
ghost use Rattle.std.specs.Prelude.{◌≡◌, ◌≤◌, [], None, false, ℕ, List, Option, IsTrue};
ghost use Rattle.sqlite.specs.Held.{Held, state};
ghost use Rattle.sqlite.specs.State.{HasCleanDisk};
ghost use Rattle.sqlite_wal.specs.Files.{image_at};
ghost use Rattle.jac_reopen.specs.Reopened.{Supposed};
ghost use Rattle.jac_host_vault.specs.Content.{StandFor, HoldsSupposed};

use crate::told::tell_refusal;
use jac_sqlkeep::{FileOpener, HostOpener, Opener, Unfit};
use jac_value::Txt;
use sqlite::{File, FileFrom, FileStore, Start};
use std::fs::remove_file;

/// The bytes that a store's log and file hold when they are opened, and the store that they
/// represent. No code can read either, so a function over `C: FileContent` is proved for all files
/// that hold a store or nothing.
pub trait FileContent: Start {
    /// Whether anything is supposed, and the store: its schema, or none if nothing is stored, and
    /// its state. If nothing is stored, the state is the one with the number 1.
    ghost holds: { Supposed };

    fn new() -> Self;

    /// A law: the bytes represent the store.
    fn stand()
        ensures { StandFor (image_at Self.Start) holds };
}

/// What opens a store's file once, and closes it. A function with a type `F: MakesOpeners` gets an
/// `F::Opens` only from it.
pub trait FileOpens: Opener + Drop {
    /// What is supposed of the store in the file.
    ghost holds: { Supposed };

    /// A law: if something is supposed, a database that a clean disk gives holds it.
    fn stand()
        ensures { IsTrue holds.known → (name : Option (List ℕ)) (given : Held Self.Store)
            → Self.Opener.gives name given → HasCleanDisk (state Self.Store.Store given)
            → HoldsSupposed holds (state Self.Store.Store given).now };

    /// A law: it gives at most one connection.
    fn gives_once(&self)
        ensures { Self.Opener.gave self.now ≤ 1 };

    /// Prints to standard error why the file of this name wasn't attached.
    fn tell_refusal(&self, name: &Txt, unfit: Option<Unfit>);

    /// Closes the file. If it was refused, a log that the opening made is removed.
    fn close(&self, store: Self::Store, refused: bool);
}

impl<C: FileContent> FileOpens for FileOpener<C> {
    ghost holds = { C.holds };

    fn stand() {
        C::stand();
    }

    #[tactic(auto, using(crate::proofs::Left::one_at_most))]
    fn gives_once(&self) {}

    fn tell_refusal(&self, name: &Txt, unfit: Option<Unfit>) {
        tell_refusal(self.runtime(), name, self.fault(), unfit);
    }

    /// What can't be copied from the log into the file stays in the log beside it, where the next
    /// opening finds it. A log that a refused opening made is copied whole and then removed while
    /// the files are still locked, so no other program has it.
    fn close(&self, store: FileStore<FileFrom<C>>, refused: bool) {
        let log = if refused { self.new_log() } else { None };
        close_store(self.runtime(), store, log);
    }
}

/// The opener that `main` names. Nothing is supposed of the file.
impl FileOpens for HostOpener {
    ghost holds = { record {
      known = false;
      schema = None;
      state = record { tables = []; number = 1 };
    } };

    fn stand() {}

    #[tactic(auto, using(crate::proofs::Left::one_at_most))]
    fn gives_once(&self) {}

    fn tell_refusal(&self, name: &Txt, unfit: Option<Unfit>) {
        tell_refusal(self.runtime(), name, self.fault(), unfit);
    }

    fn close(&self, store: FileStore<File>, refused: bool) {
        let log = if refused { self.new_log() } else { None };
        close_store(self.runtime(), store, log);
    }
}

// Copies the log into the file, closes both, and removes the log of this name while both are still
// locked.
fn close_store<S: Start>(rt: &HostRuntime, store: FileStore<FileFrom<S>>, log: Option<&Txt>) {
    let mut store = store;
    if store.checkpoint().is_ok() {
        let _files = store.close();
        remove_log(rt, log);
    }
}

// Removes the log of this name, if there is one.
fn remove_log(rt: &HostRuntime, log: Option<&Txt>) {
    if let Some(log) = log {
        let _ = remove_file(rt, log.as_str());
    }
}
