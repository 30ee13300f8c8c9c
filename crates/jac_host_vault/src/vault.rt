ghost use Rattle.std.specs.Prelude.{◌≡◌, None, [], List, OnOk, OnErr, true, false};
ghost use Rattle.std.specs.Option.{option_copied};
ghost use Rattle.jac_rows.specs.Good.{ModelShape};
ghost use Rattle.jac_keep.specs.Attaching.{Attaches};
ghost use Rattle.jac_keep.specs.KeeperState.{IsStored, unattached_store};
ghost use Rattle.jac_keep.specs.Schema.{IsSchema};
ghost use Rattle.jac_host_vault.specs.HostSeen.{IsStorePlaced, IsStoreLeft, LeavesFile, HasOneVault, KeepsRows};

use jac_io::Calls;
use jac_keep::{AttachFault, Change, Keeper, MemoryKeeper, Place, Stop, Vault};
use jac_reopen::{ReopeningKeeper, VaultMaker};
use jac_rows::{Row, Rows, State};
use jac_value::{Id, Txt, Value};
use std::alloc::Global;
use std::marker::Model;

/// The program's store: in memory, or in a file that the maker opens. Tables that were read from a
/// file are held in memory, and each change is made there too. If a fault of the disk closed the
/// file, the next call opens it again, and the state isn't known from then on.
#[derive(Drop)]
pub struct HostVault<M: VaultMaker> {
    maker: Option<M>,
    alone: bool,
    misnamed: bool,
    memory: MemoryKeeper,
    file: Option<ReopeningKeeper<M>>,
}

impl<M: VaultMaker> Model for HostVault<M> {
    ghost use Rattle.std.specs.Prelude.{is_some};
    ghost use Rattle.jac_host_vault.specs.HostSeen.{HostSeen, IsHost};

    ghost Value = { HostSeen M.Vault };

    ghost view = { λ h. record {
      memory = h.memory;
      file = h.file;
      waits = is_some h.maker;
      alone = h.alone;
      misnamed = h.misnamed;
    } };

    ghost invariant = { λ h. IsHost M.Vault.Keeper.seen (record {
      memory = h.memory;
      file = h.file;
      waits = is_some h.maker;
      alone = h.alone;
      misnamed = h.misnamed;
    }) };
}

impl<M: VaultMaker> HostVault<M> {
    /// A vault that isn't attached yet and whose file this maker opens. Before it is attached, its
    /// state is what the maker supposes of the file. It refuses to attach without a name. `state`
    /// is the state of its memory, which isn't used.
    pub fn in_file(alloc: Global, state: State, maker: M) -> HostVault<M>
        requires { IsStored None state }
        ensures { result ≡ record {
          memory = record {
            state = state;
            store = unattached_store None;
            fail_reads = [];
            fail_applies = [];
            reads = 0;
            applies = 0;
            faults = 0;
          };
          file = None;
          waits = true;
          alone = false;
          misnamed = false;
        } }
    {
        HostVault {
            maker: Some(maker),
            alone: false,
            misnamed: false,
            memory: MemoryKeeper::new(state, None, Calls::empty(alloc), Calls::empty(alloc)),
            file: None,
        }
    }

    /// A vault with memory alone. From now on its state is known, and it is `state`. It refuses
    /// each name.
    pub fn in_memory(alloc: Global, state: State) -> HostVault<M>
        requires { IsStored None state }
        ensures { result ≡ record {
          memory = record {
            state = state;
            store = unattached_store None;
            fail_reads = [];
            fail_applies = [];
            reads = 0;
            applies = 0;
            faults = 0;
          };
          file = None;
          waits = false;
          alone = true;
          misnamed = false;
        } }
    {
        HostVault {
            maker: None,
            alone: true,
            misnamed: false,
            memory: MemoryKeeper::new(state, None, Calls::empty(alloc), Calls::empty(alloc)),
            file: None,
        }
    }

    /// A law: a file that isn't attached is left as its maker says, or no file was requested.
    #[tactic(auto, using(crate::proofs::Attached::unopened_by))]
    pub fn stand(&self)
        ensures { LeavesFile M.Vault.Keeper.seen M.leaves self.now }
    {
        if let Some(file) = &self.file {
            file.stand();
        }
    }

    /// A law: as long as its file wasn't opened again, its maker opened one vault.
    pub fn made_once(&self)
        ensures { HasOneVault self.now }
    {
        if let Some(file) = &self.file {
            file.made_once();
        }
    }

    /// A law: its file is as its maker says.
    pub fn rows_stand(&self)
        ensures { KeepsRows M.stands self.now }
    {
        if let Some(file) = &self.file {
            file.rows_stand();
        }
    }
}

impl<M: VaultMaker> Keeper for HostVault<M> {
    ghost use Rattle.jac_host_vault.specs.HostSeen.{seen_host};
    ghost use Rattle.jac_host_vault.specs.GoesOn.{host_goes_on};

    ghost seen = { seen_host M.supposes M.Vault.Keeper.seen };

    ghost goes = { host_goes_on M.Vault.Keeper.seen M.Vault.Keeper.goes };

    #[tactic(auto, using(crate::proofs::Attached::memory_reads))]
    fn number(&mut self) -> Result<u64, Stop> {
        match &mut self.file {
            Some(file) => file.number(),
            None => self.memory.number(),
        }
    }

    #[tactic(auto, using(crate::proofs::Attached::memory_reads))]
    fn rows(&mut self, alloc: Global, model: u8) -> Result<Rows, Stop> {
        match &mut self.file {
            Some(file) => file.rows(alloc, model),
            None => self.memory.rows(alloc, model),
        }
    }

    #[tactic(auto, using(crate::proofs::Attached::memory_reads))]
    fn one(&mut self, alloc: Global, id: Id) -> Result<Rows, Stop> {
        match &mut self.file {
            Some(file) => file.one(alloc, id),
            None => self.memory.one(alloc, id),
        }
    }

    #[tactic(auto, using(crate::proofs::Attached::memory_reads))]
    fn rows_with(
        &mut self,
        alloc: Global,
        model: u8,
        field: u8,
        value: &Value,
    ) -> Result<Rows, Stop> {
        match &mut self.file {
            Some(file) => file.rows_with(alloc, model, field, value),
            None => self.memory.rows_with(alloc, model, field, value),
        }
    }

    #[tactic(auto, using(crate::proofs::Attached::memory_looks))]
    fn find(&mut self, id: Id) -> Result<Option<Place>, Stop> {
        match &mut self.file {
            Some(file) => file.find(id),
            None => self.memory.find(id),
        }
    }

    /// Memory lends rows only if there is memory alone.
    fn held(&self, id: Id, near: Place) -> Option<&[Row]> {
        match &self.file {
            Some(file) => file.held(id, near),
            None if self.alone => self.memory.held(id, near),
            None => None,
        }
    }

    #[tactic(auto, using(crate::proofs::Attached::memory_looks))]
    fn find_rows(&mut self, alloc: Global, model: u8) -> Result<bool, Stop> {
        match &mut self.file {
            Some(file) => file.find_rows(alloc, model),
            None => self.memory.find_rows(alloc, model),
        }
    }

    fn held_rows(&self, model: u8) -> Option<&[Row]> {
        match &self.file {
            Some(file) => file.held_rows(model),
            None if self.alone => self.memory.held_rows(model),
            None => None,
        }
    }

    #[tactic(auto, using(crate::proofs::Attached::memory_keeps, crate::proofs::Attached::sound_in_memory))]
    fn apply(&mut self, alloc: Global, change: &Change) -> Result<(), Stop> {
        match &mut self.file {
            Some(file) => file.apply(alloc, change),
            None => self.memory.apply(alloc, change),
        }
    }
}

impl<M: VaultMaker> Vault for HostVault<M> {
    ghost use Rattle.jac_host_vault.specs.HostSeen.{seen_host};

    /// A store with a name is a file, and a store without a name is in memory. If the vault has
    /// only the other kind, it fails.
    #[tactic(auto, using(crate::proofs::Attached::memory_first, crate::proofs::Attached::file_attached, crate::proofs::Attached::memory_attached, crate::proofs::Attached::host_of_memory, crate::proofs::Attached::name_refused, crate::proofs::Attached::placed_in, crate::proofs::Attached::memory_placed, crate::proofs::Attached::waits_first, crate::proofs::Attached::name_left, crate::proofs::Attached::unnamed_left, crate::proofs::Attached::memory_left, crate::proofs::Left::left_in))]
    fn attach(&mut self, alloc: Global, name: Option<&Txt>, schema: &Txt) -> Result<(), AttachFault>
        requires first { (seen_host M.supposes M.Vault.Keeper.seen self.old).store.called ≡ false }
        requires schema { (shapes : List ModelShape) × IsSchema schema.now shapes }
        ensures attaches { Attaches (seen_host M.supposes M.Vault.Keeper.seen self.old)
            (seen_host M.supposes M.Vault.Keeper.seen self.new)
            (option_copied name.entry) schema.now result }
        ensures placed { OnOk result (IsStorePlaced M.supposes M.Vault.Keeper.seen M.begins
            (option_copied name.entry) schema.now self.new) }
        ensures left { OnErr result (IsStoreLeft M.leaves (option_copied name.entry) self.new) }
        ensures same { self.new.alone ≡ self.old.alone }
    {
        match name {
            Some(name) => {
                if self.alone {
                    self.misnamed = true;
                    return Err(AttachFault::Failed);
                }
                let Some(maker) = self.maker.take() else {
                    unreachable!()
                };
                let (file, attached) = ReopeningKeeper::attach(alloc, maker, Some(name), schema);
                self.file = Some(file);
                attached
            }
            None => {
                if !self.alone {
                    self.misnamed = true;
                    return Err(AttachFault::Failed);
                }
                self.memory.attach(alloc, None, schema)
            }
        }
    }

    #[tactic(auto, using(crate::proofs::Attached::memory_reshapes, crate::proofs::Attached::fit_in_memory))]
    fn reshape(&mut self, alloc: Global, change: &Change, schema: &Txt) -> Result<(), Stop> {
        match &mut self.file {
            Some(file) => file.reshape(alloc, change, schema),
            None => self.memory.reshape(alloc, change, schema),
        }
    }
}
