ghost use Rattle.std.specs.Prelude.{◌≡◌, IsTrue, OnOk, false};
ghost use Rattle.std.specs.Option.{option_copied};
ghost use Rattle.jac_lang.specs.Mirror.{application_of};
ghost use Rattle.jac_plain.specs.Models.{shapes_of};
ghost use Rattle.jac_keep.specs.Schema.{IsSchema};
ghost use Rattle.jac_serve_events.specs.Outside.{span};
ghost use Rattle.jac_app_load.specs.Application.{schema_text};
ghost use Rattle.jac_command_base.specs.Attached.{AttachesAs};

use crate::exit_reason::ExitReason;
use jac_app_load::Service;
use jac_keep::{AttachFault, Vault};
use jac_value::Txt;
use std::alloc::Global;

/// Attaches the store with this name for the application, which has this schema.
pub fn attach<K: Vault>(
    alloc: Global,
    service: &Service,
    db: Option<&Txt>,
    schema: Txt,
    vault: &mut K,
) -> Result<(), ExitReason>
    requires first { (K.seen vault.old).store.called ≡ false }
    requires own { schema ≡ schema_text (application_of service.now) }
    requires schema { IsSchema schema (shapes_of (application_of service.now)) }
    ensures attaches { AttachesAs (option_copied db.entry) (application_of service.now)
        (span (K.seen vault.old) (K.seen vault.new)) result }
    ensures attached { OnOk result (IsTrue (K.seen vault.new).store.attached) }
{
    match vault.attach(alloc, db, &schema) {
        Ok(()) => Ok(()),
        Err(AttachFault::Failed) => Err(ExitReason::StoreFault),
        Err(AttachFault::Memory) => Err(ExitReason::Memory),
        Err(AttachFault::Other(stored)) => Err(ExitReason::OtherStore {
            stored,
            wanted: schema,
        }),
    }
}
