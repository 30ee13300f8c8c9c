ghost use Rattle.std.specs.Prelude.{◌≡◌};
ghost use Rattle.jac_hub.specs.Channel.{fixed_500, sent_closes};

use jac_http::Fixed;
use jac_value::{Bytes, Id};

/// What is sent for what was heard.
#[derive(Drop)]
pub enum Sent {
    /// A reply that was made, its audit line, and whether the connection is closed after it.
    Made {
        line: Bytes,
        audit: Bytes,
        close: bool,
    },
    /// A constant reply, after which the connection is closed.
    Still {
        status: Fixed,
        head: bool,
        viewer: Option<Id>,
    },
}

/// Whether the connection is closed after what was sent.
pub fn closes(sent: &Sent) -> bool
    ensures { result ≡ sent_closes sent.now }
{
    match sent {
        Sent::Made { close, .. } => *close,
        Sent::Still { .. } => true,
    }
}

/// The reply when memory runs out.
pub fn fixed_500() -> Sent
    ensures { result ≡ fixed_500 }
{
    Sent::Still {
        status: Fixed::Memory500,
        head: false,
        viewer: None,
    }
}
