ghost use Rattle.std.specs.Prelude.{◌≡◌, ◌∷◌, ◌++◌, ℕ, List, Result};
ghost use Rattle.jac_events.specs.declared.event.Event.{Event};
ghost use Rattle.jac_events.specs.declared.event.Event.TheVariants.{Piece};
ghost use Rattle.jac_http.specs.declared.taken.Request.{Request};
ghost use Rattle.jac_http.specs.Requests.{IsTaken};
ghost use Rattle.jac_hub.specs.declared.hub.HubFault.{HubFault};
ghost use Rattle.jac_hub.specs.declared.hub.HubOut.{HubOut};
ghost use Rattle.jac_hub.specs.declared.hub.Turn.TheVariants.{Idle};
ghost use Rattle.jac_hub.specs.declared.sent.Sent.{Sent};
ghost use Rattle.jac_hub.specs.Alike.{IsHeardAlike};
ghost use Rattle.jac_hub.specs.Hearing.{Entry};
ghost use Rattle.jac_hub.specs.Heard.{Connections, no_connections, IsHeard};
ghost use Rattle.jac_hub.specs.Channel.{fixed_500};
ghost use Rattle.jac_hub.specs.Hub.{HubSeen, new_hub, Steps};
ghost use Rattle.jac_hub.specs.Served.{AreLike, IsEmptied, IsGiven, IsLost, IsBrought, IsServedInPart, RunsHub, AreServed, plain_hearing, sends};

use crate::Handler;
use jac_http::requests_are_read;

/// A law: if a hub agrees with the definition of what is heard, it puts out for an event exactly
/// what the definition brings, and agrees with it afterwards. The only event that it may lose is a
/// `Begin` for which memory ran out.
pub fn events_are_heard<H: Handler>()
    ensures { (n : ℕ) (event : Event) (known : Connections Request) (result : Result (Unit {0})
        HubFault) (old stepped new : HubSeen) (outs : List HubOut) (before after : H)
        → old.turn ≡ Idle → AreLike plain_hearing old.channels known
        → Steps old event result stepped → (IsLost event result → ⊥)
        → IsEmptied IsTaken H.handles stepped outs new before after
        → IsBrought plain_hearing (sends H.handles) fixed_500 n event known outs new before after }
{
    requests_are_read();
}

/// A law: what a new hub puts out for a run of events answers a log that the definition brings,
/// with one reply for each of its entries, in order.
pub fn runs_are_heard<H: Handler>()
    ensures { (events : List Event) (outs : List HubOut) (new : HubSeen) (before after : H)
        → RunsHub IsTaken H.handles new_hub events outs new before after
        → (log : List (Entry Request Sent)) × IsHeard plain_hearing events log
        × AreServed plain_hearing (sends H.handles) fixed_500 no_connections 0 events log outs
        before after }
{
    requests_are_read();
}

/// A law: before `next` returns none, what the hub has put out is the beginning of what the event
/// brings.
pub fn events_are_heard_in_part<H: Handler>()
    ensures { (n : ℕ) (event : Event) (known : Connections Request) (result : Result (Unit {0})
        HubFault) (old stepped new : HubSeen) (outs : List HubOut) (before after : H)
        → old.turn ≡ Idle → AreLike plain_hearing old.channels known
        → Steps old event result stepped → IsGiven IsTaken H.handles stepped outs new before after
        → IsServedInPart plain_hearing (sends H.handles) fixed_500 n event known outs before after }
{
    requests_are_read();
}

/// A law: two pieces in a row of one connection bring what the joined piece brings, wherever they
/// are among the events. So bytes may be cut anywhere.
pub fn any_cutting_is_heard()
    ensures { (c : ℕ) (xs ys : List ℕ) (front events : List Event) (log : List (Entry Request Sent))
        → IsHeard plain_hearing (front ++ Piece c xs ∷ (Piece c ys ∷ events)) log
        → IsHeardAlike plain_hearing no_connections 0 (front ++ Piece c (xs ++ ys) ∷ events) log }
{
    requests_are_read();
}
