ghost use Rattle.std.specs.Prelude.{◌≡◌, IfOk};
ghost use Rattle.jac_demo.specs.Calendar.{calendar_text};

use jac_value::{Bytes, Memory};
use std::alloc::Global;

/// The text of an application: a shared calendar. Only the host of an event sees its title, unless
/// the event is open.
pub fn demo_app(alloc: Global) -> Result<Bytes, Memory>
    ensures { IfOk result (λ text. text ≡ calendar_text) }
{
    Bytes::from_slice(alloc, calendar_text())
}

#[tactic(auto, unfolding(crate::specs::Calendar::calendar_text))]
fn calendar_text() -> &'static [u8]
    ensures { result.now ≡ calendar_text }
{
    CALENDAR
}

const CALENDAR: &[u8] = b"(app (viewer User)
 (model User (fields (name text)))
 (model Event (fields (title text) (host (ref User)) (open bool))
  (group (guards (title \"private\"))
   (policy (or (get Event open this) (eq (get Event host this) viewer)))))
 (view post \"/join\" (params (name text))
  (create u User (set (name name)) (put u)))
 (view post \"/add\" (params (title text) (open bool))
  (create e Event (set (title title) (host viewer) (open open)) (put e)))
 (view get \"/list\" (params)
  (for (from ((e Event)) true key) (put (get Event title e)) (put \";\"))))
";
