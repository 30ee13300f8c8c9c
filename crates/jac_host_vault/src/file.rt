ghost use Rattle.std.specs.Prelude.{◌≡◌, ◌≤◌, ℕ, List, Err, OnOk, IsSomeAnd, false};
ghost use Rattle.std.specs.Option.{option_copied};
ghost use Rattle.jac_rows.specs.Good.{ModelShape};
ghost use Rattle.jac_keep.specs.Attaching.{Attaches};
ghost use Rattle.jac_keep.specs.Schema.{IsSchema};
ghost use Rattle.jac_keep.specs.declared.vault.AttachFault.TheVariants.{Other};
ghost use Rattle.jac_sqlkeep.specs.Kept.{seen_kept, HasStore, HasStandingDatabase, KnowsSchema, IsLeftAs, LearnsSchema};
ghost use Rattle.jac_host_vault.specs.Content.{IsFileOf, IsFound};

use crate::FileOpens;
use crate::told::words_of_error;
use jac_keep::{AttachFault, Change, Keeper, Stop, Vault};
use jac_rows::Rows;
use jac_sqlkeep::SqlKeeper;
use jac_value::{Id, Txt, Value};
use std::alloc::Global;
use std::marker::Model;

/// A keeper in a file. Its state is known after it is attached, as long as its connection is open,
/// because what the file held was read and tested. When the keeper is dropped, the file is closed.
pub struct FileKeeper<O: FileOpens> {
    keeper: SqlKeeper<O>,
}

impl<O: FileOpens> Model for FileKeeper<O> {
    ghost use Rattle.std.specs.Coded.{codes};
    ghost use Rattle.sqlite_schema.specs.contracts.schema.Schema as tables;
    ghost use Rattle.jac_sqlkeep.specs.Kept.{Kept};

    ghost Value = { Kept };

    ghost coded = { Prim.hlevel (codes, tables.the_row.coded) };

    ghost view = { λ k. k.keeper };
}

// Written out, so that a caller doesn't prove again how each part is dropped.
impl<O: FileOpens> Drop for FileKeeper<O> {
    fn drop(self) {
        let FileKeeper { keeper } = self;
        let refused = !keeper.is_attached();
        let (opener, conn) = keeper.into_parts();
        if let Some(conn) = conn {
            opener.close(conn.into_store(), refused);
        }
    }
}

impl<O: FileOpens> FileKeeper<O> {
    ghost use Rattle.jac_sqlkeep.specs.Kept.{untouched_keeper};

    /// A keeper that isn't attached yet, of the file that the opener opens.
    pub fn new(opener: O) -> FileKeeper<O>
        ensures { result ≡ untouched_keeper (O.Opener.faults opener) (O.Opener.gave opener) }
    {
        FileKeeper {
            keeper: SqlKeeper::new(opener),
        }
    }

    /// How often the keeper failed.
    pub fn faults(&self) -> u64
        ensures { result ≡ self.now.faults }
    {
        self.keeper.faults()
    }

    /// Makes the state unknown from then on.
    pub fn doubt(&mut self)
        ensures untold { (seen_kept self.new).tells ≡ false }
        ensures same_store { self.new.store ≡ self.old.store }
        ensures same_faults { self.new.faults ≡ self.old.faults }
    {
        self.keeper.doubt();
    }

    /// A law: as long as its state is known, the database of its file is well formed and committed.
    pub fn rows_stand(&self)
        ensures { HasStandingDatabase self.now }
    {
        self.keeper.rows_stand();
    }

    /// A law: as long as its state is known, its schema is the text in its file.
    pub fn schema_stands(&self)
        ensures { KnowsSchema self.now }
    {
        self.keeper.schema_stands();
    }

    /// A law: its opener gave at most one connection.
    pub fn gave_once(&self)
        ensures { self.now.given ≤ 1 }
    {
        self.keeper.opener().gives_once();
    }

    /// Prints to standard error why the file of this name wasn't attached.
    pub(crate) fn tell_refusal(&self, name: &Txt) {
        self.keeper.opener().tell_refusal(name, self.keeper.unfit());
    }

    /// Why the last call failed.
    pub(crate) fn words_of_fault(&self) -> &'static str {
        match self.keeper.error() {
            Some(error) => words_of_error(error),
            None => "the store can't be opened again",
        }
    }
}

impl<O: FileOpens> Keeper for FileKeeper<O> {
    ghost seen = { seen_kept };

    ghost goes = { ⟦<SqlKeeper<O> as Keeper>⟧.goes };

    fn number(&mut self) -> Result<u64, Stop> {
        self.keeper.number()
    }

    fn rows(&mut self, alloc: Global, model: u8) -> Result<Rows, Stop> {
        self.keeper.rows(alloc, model)
    }

    fn one(&mut self, alloc: Global, id: Id) -> Result<Rows, Stop> {
        self.keeper.one(alloc, id)
    }

    fn rows_with(
        &mut self,
        alloc: Global,
        model: u8,
        field: u8,
        value: &Value,
    ) -> Result<Rows, Stop> {
        self.keeper.rows_with(alloc, model, field, value)
    }

    fn apply(&mut self, alloc: Global, change: &Change) -> Result<(), Stop> {
        self.keeper.apply(alloc, change)
    }
}

impl<O: FileOpens> Vault for FileKeeper<O> {
    /// What is attached is what was supposed of the file, as long as its state is known. A file
    /// that isn't attached is left as it was opened.
    #[tactic(auto, using(crate::proofs::Attached::file_placed, crate::proofs::Found::file_found))]
    fn attach(&mut self, alloc: Global, name: Option<&Txt>, schema: &Txt) -> Result<(), AttachFault>
        requires first { self.old.store.called ≡ false }
        requires schema { (shapes : List ModelShape) × IsSchema schema.now shapes }
        ensures attaches { Attaches (seen_kept self.old) (seen_kept self.new)
            (option_copied name.entry) schema.now result }
        ensures begins { OnOk result (IsFileOf schema.now self.new) }
        ensures found { OnOk result (IsFound O.holds schema.now self.new) }
        ensures other_stored { (stored : List ℕ) → result ≡ Err (Other stored)
            → IsSomeAnd self.new.refused (HasStore stored) }
        ensures left { IsLeftAs O.Store.Store (O.Opener.gives (option_copied name.entry)) self.old
            self.new result }
        ensures learns { LearnsSchema self.old self.new result }
    {
        O::stand();
        self.keeper.attach(alloc, name, schema)
    }

    fn reshape(&mut self, alloc: Global, change: &Change, schema: &Txt) -> Result<(), Stop> {
        self.keeper.reshape(alloc, change, schema)
    }
}
