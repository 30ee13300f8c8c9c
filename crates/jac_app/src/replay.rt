ghost use Rattle.std.specs.Prelude.{◌≡◌, ◌<◌, ◌^◌, length, IsOk, IsTrue, false};
ghost use Rattle.jac_lang.specs.Mirror.{application_of};
ghost use Rattle.jac_engine.specs.Start.{IsStart};
ghost use Rattle.jac_serve_events.specs.Dispatcher.{MayServe, KeepsDispatcher, kept};
ghost use Rattle.jac_serve_events.specs.RunSeen.{run_counts, run_seen_of};
ghost use Rattle.jac_dispatch.specs.Answered.{answer_spec, answer_spec_of};
ghost use Rattle.jac_dispatch.specs.Seen.{dispatcher_seen};
ghost use Rattle.jac_serve_events.specs.Outside.{WentAimed, WentWith, span, sinks};
ghost use Rattle.jac_cli.specs.declared.words.Command.TheVariants as commands;
ghost use Rattle.jac_serve_events.specs.Script.{script_of};
ghost use Rattle.jac_command_base.specs.ExitReason.{exit_reason_of};
ghost use Rattle.jac_command_base.specs.Files.{AsksForFiles, files_of, sight};
ghost use Rattle.jac_app.specs.Replay.{EndsServed, EndsServedLeaving, EndsReplay};

use crate::counts::Counts;
use jac_cli::Replay;
use jac_command_base::{ExitReason, Opened, StoreCommand, open_store};
use jac_dispatch::AppDispatcher;
use jac_io::{AuditSink, Files, Sink};
use jac_keep::Vault;
use jac_replies::{LabelTexts, Spelling};
use jac_serve_events::{ReplayError, serve_events};
use jac_value::Bytes;
use jac_viewer_caches::ViewerCaches;
use jac_world::Steps;
use std::alloc::Global;
use std::sync::ledger::Ledger;

fn exit_reason_of(stopped: ReplayError) -> ExitReason
    ensures { result ≡ exit_reason_of stopped }
{
    match stopped {
        ReplayError::Refused(event_fault) => ExitReason::LineRefused(event_fault),
        ReplayError::Write => ExitReason::WriteFault,
        ReplayError::Memory => ExitReason::Memory,
    }
}

// Serves the events over a store that is attached.
fn serve_script<O: Sink, U: AuditSink, K: Vault, L: Ledger, M: Ledger>(
    dispatcher: &mut AppDispatcher<'_, '_, '_, '_, '_, '_, K, L, M>,
    events: &Bytes,
    out: &mut O,
    audit: &mut U,
) -> Result<(), ExitReason>
    requires short { length events.now < 2 ^ 32 }
    requires dispatcher { MayServe answer_spec (dispatcher_seen K.seen dispatcher.old) }
    ensures served { WentWith (sinks (O.seen out.old) (O.seen out.new) (U.seen audit.old)
        (U.seen audit.new))
        (EndsServed (answer_spec_of dispatcher.old.lazy (application_of dispatcher.old.service.now)
        dispatcher.old.sessions.now) (kept (dispatcher_seen K.seen dispatcher.old)
        (dispatcher_seen K.seen dispatcher.new))
        (script_of events.now) result) }
    ensures keeps { KeepsDispatcher answer_spec (dispatcher_seen K.seen dispatcher.old)
        (dispatcher_seen K.seen dispatcher.new) }
{
    match serve_events(dispatcher, events.as_slice(), out, audit) {
        Ok(()) => Ok(()),
        Err(stopped) => Err(exit_reason_of(stopped)),
    }
}

// What was opened, and how it is served.
#[derive(Clone, Copy)]
struct Served<'o> {
    alloc: Global,
    opened: &'o Opened,
    lazy: bool,
}

// The same, with a dispatcher that ends after the events.
fn serve_over<O: Sink, U: AuditSink, K: Vault, L: Ledger, M: Ledger>(
    served: &Served<'_>,
    out: &mut O,
    audit: &mut U,
    vault: &mut K,
    splits: &mut Steps<L>,
    evaluations: &mut Steps<M>,
) -> Result<(), ExitReason>
    requires short { length served.now.opened.now.events < 2 ^ 32 }
    requires attached { IsTrue (K.seen vault.old).store.attached }
    requires start { IsTrue (K.seen vault.old).tells
        → IsStart (application_of served.now.opened.now.service) (K.seen vault.old).state }
    ensures served { WentWith (sinks (O.seen out.old) (O.seen out.new) (U.seen audit.old)
        (U.seen audit.new))
        (EndsServedLeaving (answer_spec_of served.now.lazy
        (application_of served.now.opened.now.service) served.now.opened.now.sessions)
        (span (run_seen_of (K.seen vault.old) (run_counts splits.old evaluations.old))
        (run_seen_of (K.seen vault.new) (run_counts splits.new evaluations.new)))
        (script_of served.now.opened.now.events) result) }
    ensures store { (K.seen vault.new).store ≡ (K.seen vault.old).store }
{
    let mut viewer_caches = ViewerCaches::none(served.alloc);
    let mut label_texts = LabelTexts::none(served.alloc);
    let mut dispatcher = AppDispatcher {
        keeper: vault,
        splits,
        evaluations,
        alloc: served.alloc,
        spelling: Spelling::Quoted,
        service: &served.opened.service,
        sessions: &served.opened.sessions,
        viewer_caches: &mut viewer_caches,
        lazy: served.lazy,
        label_texts: &mut label_texts,
    };
    serve_script(&mut dispatcher, &served.opened.events, out, audit)
}

/// The steps of a replay. They read the application, the sessions and the events, aim the audit,
/// attach the store, and serve each event.
pub fn replay<F: Files, O: Sink, U: AuditSink, K: Vault, L: Ledger, M: Ledger>(
    command: &Replay,
    files: &mut F,
    out: &mut O,
    audit: &mut U,
    vault: &mut K,
    counts: &mut Counts<'_, '_, L, M>,
) -> Result<(), ExitReason>
    requires first { (K.seen vault.old).store.called ≡ false }
    ensures asks { AsksForFiles (span (F.seen files.old) (F.seen files.new))
        (files_of (commands.Replay command.now)) (IsOk result) }
    ensures ends { WentAimed (sinks (O.seen out.old) (O.seen out.new) (U.seen audit.old)
        (U.seen audit.new))
        (EndsReplay (sight (F.seen files.old) (F.seen files.new) (O.seen out.old) (O.seen out.new)
        (U.seen audit.old) (U.seen audit.new) (K.seen vault.old) (K.seen vault.new))
        (span (run_counts counts.old.splits.now counts.old.evaluations.now)
        (run_counts counts.new.splits.now counts.new.evaluations.now))
        (commands.Replay command.now) result) }
    ensures same_splits { counts.new.splits.ghost_name ≡ counts.old.splits.ghost_name }
    ensures same_evaluations { counts.new.evaluations.ghost_name
        ≡ counts.old.evaluations.ghost_name }
{
    let opening = StoreCommand::Replay(command);
    let opened = match open_store(counts.alloc, opening, files, audit, vault) {
        Ok(opened) => opened,
        Err(exit_reason) => return Err(exit_reason),
    };
    let served = Served {
        alloc: counts.alloc,
        opened: &opened,
        lazy: command.lazy,
    };
    serve_over(
        &served,
        out,
        audit,
        vault,
        counts.splits,
        counts.evaluations,
    )
}
