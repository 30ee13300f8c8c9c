ghost use Rattle.std.specs.Prelude.{◌≡◌, IsTrue, OnOk, false};
ghost use Rattle.std.specs.Option.{option_copied};
ghost use Rattle.jac_lang.specs.Mirror.{application_of};
ghost use Rattle.jac_plain.specs.Models.{shapes_of};
ghost use Rattle.jac_keep.specs.Schema.{IsSchema};
ghost use Rattle.jac_engine.specs.Start.{IsStart};
ghost use Rattle.jac_serve_events.specs.Outside.{span};
ghost use Rattle.jac_app_load.specs.Application.{schema_text};
ghost use Rattle.jac_command_base.specs.Attached.{AttachesAs};

use jac_app_load::Service;
use jac_command_base::ExitReason;
use jac_keep::Vault;
use jac_value::Txt;
use std::alloc::Global;

/// Attaches the store with this name for the application, which has this schema, so that its
/// requests may be answered.
pub fn attach<K: Vault>(
    alloc: Global,
    service: &Service,
    db: Option<&Txt>,
    schema: Txt,
    vault: &mut K,
) -> Result<(), ExitReason>
    requires first { (K.seen vault.old).store.called ≡ false }
    requires own { schema ≡ schema_text (application_of service.now) }
    requires schema { IsSchema schema (shapes_of (application_of service.now)) }
    ensures attaches { AttachesAs (option_copied db.entry) (application_of service.now)
        (span (K.seen vault.old) (K.seen vault.new)) result }
    ensures attached { OnOk result (IsTrue (K.seen vault.new).store.attached) }
    ensures start { IsTrue (K.seen vault.new).tells
        → OnOk result (IsStart (application_of service.now) (K.seen vault.new).state) }
{
    jac_command_base::attach(alloc, service, db, schema, vault)
}
