ghost use Rattle.std.specs.Prelude.{◌≡◌, ◌<◌, ℕ, Option, List, None, IfSome};
ghost use Rattle.jac_http.specs.Requests.{IsTaken};
ghost use Rattle.jac_hub.specs.Hub.{hub_seen, Nexts, puts_left};
ghost use Rattle.jac_hub.specs.declared.hub.Turn.TheVariants.{Idle};
ghost use Rattle.jac_serve_events.specs.AnswerSpec.{AnswerSpec, IsAnswerSpec};
ghost use Rattle.jac_serve_events.specs.Dispatcher.{DispatcherSeen, MayServe, KeepsDispatcher, kept};
ghost use Rattle.jac_serve_events.specs.Serve.{IsAsked, Handles};

use jac_hub::{Hub, HubOut};
use jac_keep::Stop;
use jac_replies::Spelling;
use jac_value::{Bytes, Id, Txt};
use std::alloc::Global;

/// The outcome of the request of an `ask` line.
#[derive(Drop)]
pub enum AskOutcome {
    /// The line of its reply, and the audit line without its number.
    Answered { reply: Bytes, audit: Txt },
    /// Why it wasn't answered, and the viewer.
    Unanswered { stop: Stop, viewer: Option<Id> },
}

/// Answers requests for an application over a keeper.
pub trait Dispatch {
    /// What distinguishes one dispatcher from another.
    ghost Of: { Type 0 };

    /// How its application answers.
    ghost answer_spec: { Of → AnswerSpec };

    ghost seen: { Self → DispatcherSeen Of };

    fn alloc(&self) -> Global;

    /// The next output of a hub. Its replies are spelled this way.
    fn next_out(&mut self, spelling: Spelling, hub: &mut Hub) -> Option<HubOut>
        requires { MayServe answer_spec (seen self.old) }
        ensures next { Nexts IsTaken (Handles spelling (answer_spec (seen self.old).of))
            (hub_seen hub.old) (hub_seen hub.old).turn result (hub_seen hub.new)
            (seen self.old).run_seen (seen self.new).run_seen }
        ensures idle { result ≡ None → (hub_seen hub.new).turn ≡ Idle }
        ensures nearer { IfSome result (λ out. puts_left (hub_seen hub.new) < puts_left
            (hub_seen hub.old)) }
        ensures keeps { KeepsDispatcher answer_spec (seen self.old) (seen self.new) };

    /// Answers the request of an `ask` line.
    fn ask(
        &mut self,
        viewer: Option<u128>,
        method: &Txt,
        path: &Txt,
        query: &Bytes,
        body: &Bytes,
    ) -> AskOutcome
        requires { MayServe answer_spec (seen self.old) }
        ensures asked { IsAsked (answer_spec (seen self.old).of)
            (kept (seen self.old) (seen self.new)) ((answer_spec (seen self.old).of).asks viewer
            method.now path.now query.now body.now) result }
        ensures keeps { KeepsDispatcher answer_spec (seen self.old) (seen self.new) };

    /// A law: how the application answers has the properties on which serving depends.
    fn lawful(&self)
        ensures { IsAnswerSpec (answer_spec (seen self.now).of) };
}
