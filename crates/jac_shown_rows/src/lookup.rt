//! A record that is read several times in a row is looked up once.
ghost use Rattle.std.specs.Prelude.{◌≡◌, ℕ, Option, IsTrue};
ghost use Rattle.jac_keep.specs.WorkState.{ReadsWork};
ghost use Rattle.jac_shown_rows.specs.Consulted.{Grows};
ghost use Rattle.jac_shown_rows.specs.Own.{IsOwn};

use crate::Support;
use jac_keep::{Keeper, Place, Stop, Work};
use jac_value::Id;

/// Where the alternatives of the record stand, if they are in memory. If the record is the last one
/// of its model that was looked up, it isn't looked up again.
pub fn look_once<K: Keeper>(
    work: &mut Work<'_, K>,
    id: Id,
    support: &mut Support,
) -> Result<Option<Place>, Stop>
    requires { IsTrue (K.seen work.old.keeper.now).store.attached }
    ensures reads { ReadsWork K.seen work.old work.new result }
    ensures grows { Grows support.old support.new }
    ensures own { (this : Option ℕ) → IsOwn this support.old → IsOwn this support.new }
{
    if let Some(place) = support.place_of(id) {
        return Ok(Some(place));
    }
    let found = work.look(id)?;
    keep_if_found(id, found, support);
    Ok(found)
}

fn keep_if_found(id: Id, found: Option<Place>, support: &mut Support)
    ensures { support.new ≡ support.old }
{
    if let Some(place) = found {
        support.keep_place(id, place);
    }
}
