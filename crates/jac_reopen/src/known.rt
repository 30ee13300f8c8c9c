ghost use Rattle.std.specs.Prelude.{◌≡◌, IfOk};
ghost use Rattle.std.specs.Option.{option_copied};

use jac_value::{Memory, Txt, copy_name};
use std::alloc::Global;
use std::marker::Model;

/// A store's name, and the schema that it was attached with.
#[derive(Drop)]
pub struct KnownStore {
    name: Option<Txt>,
    schema: Txt,
}

impl Model for KnownStore {
    ghost use Rattle.jac_reopen.specs.Reopened.{KnownSeen};

    ghost Value = { KnownSeen };

    ghost view = { λ k. record { name = k.name; schema = k.schema } };
}

impl KnownStore {
    pub fn new(alloc: Global, name: Option<&Txt>, schema: &Txt) -> Result<KnownStore, Memory>
        ensures { IfOk result (λ k. k ≡ record {
          name = option_copied name.entry;
          schema =
              schema.now;
        }) }
    {
        let name = copy_name(alloc, name)?;
        let schema = schema.copy(alloc)?;
        Ok(KnownStore { name, schema })
    }

    pub fn name(&self) -> Option<&Txt>
        ensures { option_copied result ≡ self.now.name }
    {
        self.name.as_ref()
    }

    pub fn schema(&self) -> &Txt
        ensures { result.now ≡ self.now.schema }
    {
        &self.schema
    }
}
