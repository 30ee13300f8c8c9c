ghost use Rattle.std.specs.Prelude.{◌≡◌, ◌∷◌, []};
ghost use Rattle.sqlite.specs.Values.{bound};
ghost use Rattle.jac_sql_spec.specs.Transaction.{Inside};

use sqlite::types::ValueRef;
use sqlite::{Alter, Error, Transaction};

/// Runs one statement inside a transaction.
#[tactic(auto, using(crate::proofs::Steps::one_ran, crate::proofs::Steps::one_failed))]
pub fn run<S: Alter>(
    tx: &mut Transaction<'_, S>,
    text: &str,
    params: &[ValueRef<'_>],
) -> Result<(), Error>
    ensures same { tx.new.conn.ghost_name ≡ tx.old.conn.ghost_name }
    ensures inside { Inside S.Store (record { text = text.now; params = bound params.now } ∷ [])
        tx.old.conn.now tx.new.conn.now result }
{
    tx.execute(text, params)?;
    Ok(())
}
