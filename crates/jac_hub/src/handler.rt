ghost use Rattle.std.specs.Prelude.{ℕ};
ghost use Rattle.jac_hub.specs.Refusals.{MayBeHeard};
ghost use Rattle.jac_hub.specs.declared.handler.Heard.{Heard as HeardSeen};
ghost use Rattle.jac_hub.specs.declared.sent.Sent.{Sent as SentSeen};

use crate::Sent;
use jac_http::Request;

/// What is heard from a connection.
#[derive(Drop)]
pub enum Heard {
    Whole(Request),
    /// The status of a refusal.
    Refused(u16),
}

/// Answers what is heard from connections.
pub trait Handler {
    /// The condition for a call.
    ghost ready: { Self → Type 0 };

    /// Relates the handler before a call, the connection, what was heard, what was sent, and the
    /// handler after the call.
    ghost handles: { Self → ℕ → HeardSeen → SentSeen → Self → Type 0 };

    /// The answer to what was heard.
    fn handle(&mut self, conn: u32, heard: &Heard) -> Sent
        requires ready { ready self.old }
        requires refusal { MayBeHeard heard.now }
        ensures handled { handles self.old conn heard.now result self.new }
        ensures ready { ready self.new };
}
