ghost use Rattle.std.specs.Prelude.{◌≡◌, List};

use crate::{FileKeeper, MakesOpeners};
use jac_keep::{AttachFault, Stop, Vault};
use jac_reopen::{KnownStore, VaultMaker};
use jac_table_cache::CachedKeeper;
use jac_value::Txt;
use std::alloc::Global;

/// Opens a file. Its tables are held in memory after they are read.
#[derive(Drop)]
pub struct FileMaker<F: MakesOpeners> {
    makes: bool,
    openers: F,
}

impl<F: MakesOpeners> FileMaker<F> {
    /// A maker that makes the file if it doesn't exist, or one that refuses it.
    pub fn new(makes: bool, openers: F) -> FileMaker<F> {
        FileMaker { makes, openers }
    }
}

impl<F: MakesOpeners> VaultMaker for FileMaker<F> {
    ghost use Rattle.jac_host_vault.specs.Left.{IsOnlyFile, IsFileLeft};
    ghost use Rattle.jac_host_vault.specs.Standing.{IsStandingFile};

    type Vault = CachedKeeper<FileKeeper<F::Opens>>;

    type Spare = F::Others;

    ghost supposes = { F.Opens.holds };

    ghost begins = { IsOnlyFile };

    ghost leaves = { λ name k. IsFileLeft F.Opens.Store.Store (F.Opens.Opener.gives name) k };

    ghost stands = { IsStandingFile };

    ghost made = { F.made };

    #[tactic(auto, using(crate::proofs::Standing::standing_file))]
    fn rows_stand(vault: &CachedKeeper<FileKeeper<F::Opens>>) {
        let file = vault.keeper();
        file.rows_stand();
        file.schema_stands();
        file.gave_once();
    }

    /// Reports on standard error why a file is refused.
    fn attach(
        self,
        alloc: Global,
        name: Option<&Txt>,
        schema: &Txt,
    ) -> (
        CachedKeeper<FileKeeper<F::Opens>>,
        F::Others,
        Result<(), AttachFault>,
    ) {
        let FileMaker { makes, openers } = self;
        let (opener, others) = openers.first(makes);
        let mut file = FileKeeper::new(opener);
        let attached = file.attach(alloc, name, schema);
        if attached.is_err() {
            if let Some(name) = name {
                file.tell_refusal(name);
            }
        }
        (CachedKeeper::new(alloc, file), others, attached)
    }

    fn attach_again(
        others: &mut F::Others,
        alloc: Global,
        store: &KnownStore,
    ) -> Result<CachedKeeper<FileKeeper<F::Opens>>, Stop> {
        let opener = F::another(others);
        let mut file = FileKeeper::new(opener);
        match file.attach(alloc, store.name(), store.schema()) {
            Ok(()) => {
                file.doubt();
                Ok(CachedKeeper::new(alloc, file))
            }
            Err(AttachFault::Memory) => Err(Stop::Memory),
            Err(AttachFault::Failed | AttachFault::Other(_)) => {
                tell::<F>(others, store, "the store can't be opened again");
                Err(Stop::Keeper)
            }
        }
    }

    fn tell_fault(
        others: &mut F::Others,
        vault: &CachedKeeper<FileKeeper<F::Opens>>,
        store: &KnownStore,
    ) {
        tell::<F>(others, store, vault.keeper().words_of_fault());
    }

    fn faults(vault: &CachedKeeper<FileKeeper<F::Opens>>) -> u64 {
        vault.keeper().faults()
    }
}

fn tell<F: MakesOpeners>(others: &mut F::Others, store: &KnownStore, what: &str)
    ensures { F.made others.new ≡ F.made others.old }
{
    if let Some(name) = store.name() {
        F::tell(others, name, what);
    }
}
