//! `serve`: serves an application on a port, to one connection after another.
ghost use Rattle.std.specs.Prelude.{◌≡◌, IsOk, IsTrue, false};
ghost use Rattle.jac_io.specs.Linked.{DoorLasts};
ghost use Rattle.jac_lang.specs.Mirror.{application_of};
ghost use Rattle.jac_engine.specs.Start.{IsStart};
ghost use Rattle.jac_serve_events.specs.Dispatcher.{MayServe, KeepsDispatcher, kept};
ghost use Rattle.jac_dispatch.specs.Answered.{answer_spec, answer_spec_of};
ghost use Rattle.jac_dispatch.specs.Seen.{dispatcher_seen};
ghost use Rattle.jac_serve_events.specs.RunSeen.{run_counts, run_seen_of};
ghost use Rattle.jac_cli.specs.declared.words.Command.TheVariants as commands;
ghost use Rattle.jac_serve_events.specs.Outside.{IsPut, WentAimed, WentWith, span, sinks};
ghost use Rattle.jac_command_base.specs.Files.{AsksForFiles, files_of, sight};
ghost use Rattle.jac_app.specs.Server.{served_line, exit_reason_of_halt, EndsConnections, EndsDoor, EndsDoorLeaving, EndsServer};

use crate::counts::Counts;
use itoa::Buffer;
use jac_cli::ServeArgs;
use jac_command_base::{ExitReason, Opened, StoreCommand, open_store};
use jac_connections::{DoorHalt, Tally, serve_links};
use jac_dispatch::AppDispatcher;
use jac_io::{AuditSink, Door, Failed, Files, Sink};
use jac_keep::{Keeper, Vault};
use jac_replies::{LabelTexts, Spelling};
use jac_serve_events::put_five;
use jac_viewer_caches::ViewerCaches;
use jac_world::Steps;
use std::alloc::Global;
use std::sync::ledger::Ledger;

fn halted(halt: DoorHalt) -> ExitReason
    ensures { result ≡ exit_reason_of_halt halt }
{
    match halt {
        DoorHalt::Door => ExitReason::DoorFault,
        DoorHalt::Write => ExitReason::WriteFault,
        DoorHalt::Memory => ExitReason::Memory,
    }
}

// Puts the numbers of connections and of replies. It needs no memory.
fn put_served<O: Sink>(out: &mut O, tally: Tally) -> Result<(), Failed>
    ensures { IsPut (span (O.seen out.old) (O.seen out.new)) (served_line tally) result }
{
    let mut connections = Buffer::new();
    let mut replies = Buffer::new();
    let connection_digits = connections.format(tally.connections);
    let reply_digits = replies.format(tally.replies);
    put_five(
        out,
        b"served ",
        connection_digits.as_bytes(),
        b" connections, ",
        reply_digits.as_bytes(),
        b" replies\n",
    )
}

// Serves the door's connections, and puts their number.
fn serve_connections<O: Sink, U: AuditSink, K: Keeper, D: Door, L: Ledger, M: Ledger>(
    dispatcher: &mut AppDispatcher<'_, '_, '_, '_, '_, '_, K, L, M>,
    serving: &ServeArgs,
    out: &mut O,
    audit: &mut U,
    door: &mut D,
) -> Result<(), ExitReason>
    requires dispatcher { MayServe answer_spec (dispatcher_seen K.seen dispatcher.old) }
    ensures served { WentWith (sinks (O.seen out.old) (O.seen out.new) (U.seen audit.old)
        (U.seen audit.new))
        (EndsConnections D.Line.seen (answer_spec_of dispatcher.old.lazy
        (application_of dispatcher.old.service.now) dispatcher.old.sessions.now) serving.now.count
        (span (D.seen door.old) (D.seen door.new))
        (kept (dispatcher_seen K.seen dispatcher.old) (dispatcher_seen K.seen dispatcher.new))
        result) }
    ensures lasts { DoorLasts (D.seen door.old) (D.seen door.new) }
    ensures same_port { IsTrue (D.seen door.new).tells → (D.seen door.new).port
        ≡ (D.seen door.old).port }
    ensures keeps { KeepsDispatcher answer_spec (dispatcher_seen K.seen dispatcher.old)
        (dispatcher_seen K.seen dispatcher.new) }
{
    match serve_links(dispatcher, serving.count, door, audit) {
        Ok(tally) => match put_served(out, tally) {
            Ok(()) => Ok(()),
            Err(Failed) => Err(ExitReason::WriteFault),
        },
        Err(halt) => Err(halted(halt)),
    }
}

// Lets the door listen, and serves its connections.
fn serve_door<O: Sink, U: AuditSink, K: Keeper, D: Door, L: Ledger, M: Ledger>(
    dispatcher: &mut AppDispatcher<'_, '_, '_, '_, '_, '_, K, L, M>,
    serving: &ServeArgs,
    out: &mut O,
    audit: &mut U,
    door: &mut D,
) -> Result<(), ExitReason>
    requires dispatcher { MayServe answer_spec (dispatcher_seen K.seen dispatcher.old) }
    requires lazy { dispatcher.old.lazy ≡ serving.now.lazy }
    ensures served { WentWith (sinks (O.seen out.old) (O.seen out.new) (U.seen audit.old)
        (U.seen audit.new))
        (EndsDoor D.Line.seen (application_of dispatcher.old.service.now)
        dispatcher.old.sessions.now
        serving.now (span (D.seen door.old) (D.seen door.new))
        (kept (dispatcher_seen K.seen dispatcher.old) (dispatcher_seen K.seen dispatcher.new))
        result) }
    ensures lasts { DoorLasts (D.seen door.old) (D.seen door.new) }
    ensures keeps { KeepsDispatcher answer_spec (dispatcher_seen K.seen dispatcher.old)
        (dispatcher_seen K.seen dispatcher.new) }
{
    match door.listen(serving.port) {
        Ok(()) => serve_connections(dispatcher, serving, out, audit, door),
        Err(Failed) => Err(ExitReason::DoorFault),
    }
}

// What was opened, and how it is served.
#[derive(Clone, Copy)]
struct Served<'o> {
    alloc: Global,
    opened: &'o Opened,
    serving: &'o ServeArgs,
}

// The request of an `ask` line is answered. Its audit line is put whole, with this tally, or only a
// prefix of it is put.
fn serve_over<O: Sink, U: AuditSink, K: Vault, D: Door, L: Ledger, M: Ledger>(
    served: &Served<'_>,
    out: &mut O,
    audit: &mut U,
    vault: &mut K,
    door: &mut D,
    splits: &mut Steps<L>,
    evaluations: &mut Steps<M>,
) -> Result<(), ExitReason>
    requires attached { IsTrue (K.seen vault.old).store.attached }
    requires start { IsTrue (K.seen vault.old).tells
        → IsStart (application_of served.now.opened.now.service) (K.seen vault.old).state }
    ensures served { WentWith (sinks (O.seen out.old) (O.seen out.new) (U.seen audit.old)
        (U.seen audit.new))
        (EndsDoorLeaving D.Line.seen (application_of served.now.opened.now.service)
        served.now.opened.now.sessions served.now.serving.now
        (span (D.seen door.old) (D.seen door.new))
        (span (run_seen_of (K.seen vault.old) (run_counts splits.old evaluations.old))
        (run_seen_of (K.seen vault.new) (run_counts splits.new evaluations.new)))
        result) }
    ensures lasts { DoorLasts (D.seen door.old) (D.seen door.new) }
    ensures store { (K.seen vault.new).store ≡ (K.seen vault.old).store }
{
    let serving = served.serving;
    let mut viewer_caches = ViewerCaches::none(served.alloc);
    let mut label_texts = LabelTexts::none(served.alloc);
    let mut dispatcher = AppDispatcher {
        keeper: vault,
        splits,
        evaluations,
        alloc: served.alloc,
        spelling: Spelling::Raw,
        service: &served.opened.service,
        sessions: &served.opened.sessions,
        viewer_caches: &mut viewer_caches,
        lazy: serving.lazy,
        label_texts: &mut label_texts,
    };
    serve_door(&mut dispatcher, serving, out, audit, door)
}

/// The first events were served, and only a prefix of the last audit line was put.
pub fn serve<F: Files, O: Sink, U: AuditSink, K: Vault, D: Door, L: Ledger, M: Ledger>(
    serving: &ServeArgs,
    files: &mut F,
    out: &mut O,
    audit: &mut U,
    vault: &mut K,
    door: &mut D,
    counts: &mut Counts<'_, '_, L, M>,
) -> Result<(), ExitReason>
    requires first { (K.seen vault.old).store.called ≡ false }
    ensures asks { AsksForFiles (span (F.seen files.old) (F.seen files.new))
        (files_of (commands.Serve serving.now)) (IsOk result) }
    ensures ends { WentAimed (sinks (O.seen out.old) (O.seen out.new) (U.seen audit.old)
        (U.seen audit.new))
        (EndsServer D.Line.seen (sight (F.seen files.old) (F.seen files.new) (O.seen out.old)
        (O.seen out.new) (U.seen audit.old) (U.seen audit.new) (K.seen vault.old)
        (K.seen vault.new))
        (span (D.seen door.old) (D.seen door.new))
        (span (run_counts counts.old.splits.now counts.old.evaluations.now)
        (run_counts counts.new.splits.now counts.new.evaluations.now)) serving.now result) }
    ensures lasts { DoorLasts (D.seen door.old) (D.seen door.new) }
    ensures same_splits { counts.new.splits.ghost_name ≡ counts.old.splits.ghost_name }
    ensures same_evaluations { counts.new.evaluations.ghost_name
        ≡ counts.old.evaluations.ghost_name }
{
    let opening = StoreCommand::Serve(serving);
    let opened = match open_store(counts.alloc, opening, files, audit, vault) {
        Ok(opened) => opened,
        Err(exit_reason) => return Err(exit_reason),
    };
    let served = Served {
        alloc: counts.alloc,
        opened: &opened,
        serving,
    };
    serve_over(
        &served,
        out,
        audit,
        vault,
        door,
        counts.splits,
        counts.evaluations,
    )
}
