ghost use Rattle.jac_sqlkeep.specs.Kept.{Kept};
ghost use Rattle.jac_host_vault.specs.HostSeen.{HostSeen};
ghost use Rattle.jac_host_vault.specs.Telling.{IsOpenFile, TellsOrFailed};

use crate::{FileMaker, HostVault, MakesOpeners};
use jac_keep::Keeper;

/// A law: if a file's connection is open and its state is known, its state is also known after any
/// number of calls, or a count of faults, the store's or its disk's, rose or is at its maximum, or
/// the disk returned something else than what was written.
pub fn file_goes_on_telling<F: MakesOpeners>()
    ensures { (old new : HostSeen Kept)
        → ⟦<HostVault<FileMaker<F>> as Keeper>⟧.goes.holds old new → IsOpenFile old
        → TellsOrFailed F.Opens.holds old new }
{}
