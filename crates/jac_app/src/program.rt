ghost use Rattle.std.specs.Prelude.{◌≡◌, IsTrue, IfOk, IfSome, IsOk, codes, false};
ghost use Rattle.jac_serve_events.specs.Outside.{WentAimed, span, sinks};
ghost use Rattle.jac_serve_events.specs.RunSeen.{run_counts};
ghost use Rattle.jac_cli.specs.Commands.{HasCount};
ghost use Rattle.jac_cli.specs.Words.{command_of};
ghost use Rattle.jac_command_base.specs.Files.{AsksForFiles, files_of, files_named, sight};
ghost use Rattle.jac_command_base.specs.ExitReason.{Closed, Closes, Finishes};
ghost use Rattle.jac_app.specs.Run.{Ends, Runs, IsRun, usage_line};
ghost use Rattle.jac_io.specs.Linked.{DoorLasts};

use crate::check::check;
use crate::counts::Counts;
use crate::demo::demo;
use crate::replay::replay;
use crate::server::serve;
use jac_admin::{dump, explain, upgrade};
use jac_cli::{Command, command_of};
use jac_command_base::{ExitReason, Status, put_fault, status_of};
use jac_io::{AuditSink, Door, Failed, Files, Sink};
use jac_keep::Vault;
use jac_serve_events::put;
use jac_value::{Memory, Txt};
use jac_world::Steps;
use std::alloc::Global;
use std::sync::ledger::Ledger;

// Puts the last line, if the command ended early.
fn finish<O: Sink>(out: &mut O, command: &Command, ended: Result<(), ExitReason>) -> Status
    ensures { Closed (span (O.seen out.old) (O.seen out.new))
        (λ put. Finishes (span (O.seen out.old) (O.seen out.new)) command.now ended put result) }
{
    match ended {
        Ok(()) => Status::Done,
        Err(exit_reason) => match put_fault(out, command, &exit_reason) {
            Ok(()) => status_of(&exit_reason),
            Err(Failed) => Status::WriteFault,
        },
    }
}

const USAGE: &[u8] =
    b"usage: jac check APP, replay APP EVENTS, serve APP PORT COUNT, demo N, dump APP LABELS, upgrade OLD NEW, why APP VIEWER; options --db FILE --sessions FILE --audit FILE --lazy\n";

fn refuse_words<O: Sink>(out: &mut O) -> Status
    ensures { Closed (span (O.seen out.old) (O.seen out.new))
        (λ put. Closes (span (O.seen out.old) (O.seen out.new)) usage_line Status.Usage put
        result) }
{
    match put(out, USAGE) {
        Ok(()) => Status::Usage,
        Err(Failed) => Status::WriteFault,
    }
}

fn run_out<O: Sink>(out: &mut O) -> Status
    ensures { Closed (span (O.seen out.old) (O.seen out.new))
        (λ put. Closes (span (O.seen out.old) (O.seen out.new)) (codes "memory\n") Status.Memory put
        result) }
{
    match put(out, b"memory\n") {
        Ok(()) => Status::Memory,
        Err(Failed) => Status::WriteFault,
    }
}

// Runs the steps of the command.
fn take_steps<F: Files, O: Sink, U: AuditSink, K: Vault, D: Door, L: Ledger, M: Ledger>(
    command: &Command,
    files: &mut F,
    out: &mut O,
    audit: &mut U,
    vault: &mut K,
    door: &mut D,
    counts: &mut Counts<'_, '_, L, M>,
) -> Result<(), ExitReason>
    requires count { HasCount command.now }
    requires first { (K.seen vault.old).store.called ≡ false }
    ensures asks { AsksForFiles (span (F.seen files.old) (F.seen files.new))
        (files_of command.now) (IsOk result) }
    ensures ends { WentAimed (sinks (O.seen out.old) (O.seen out.new) (U.seen audit.old)
        (U.seen audit.new))
        (Ends D.Line.seen (sight (F.seen files.old) (F.seen files.new) (O.seen out.old)
        (O.seen out.new) (U.seen audit.old) (U.seen audit.new) (K.seen vault.old)
        (K.seen vault.new))
        (span (D.seen door.old) (D.seen door.new))
        (span (run_counts counts.old.splits.now counts.old.evaluations.now)
        (run_counts counts.new.splits.now counts.new.evaluations.now)) command.now result) }
    ensures lasts { DoorLasts (D.seen door.old) (D.seen door.new) }
    ensures same_splits { counts.new.splits.ghost_name ≡ counts.old.splits.ghost_name }
    ensures same_evaluations { counts.new.evaluations.ghost_name
        ≡ counts.old.evaluations.ghost_name }
{
    match command {
        Command::Check(app) => check(counts.alloc, app, files, out, audit, vault),
        Command::Replay(replaying) => replay(replaying, files, out, audit, vault, counts),
        Command::Serve(serving) => serve(serving, files, out, audit, vault, door, counts),
        Command::Demo(count) => demo(*count, out, audit, vault, counts),
        Command::Dump(dumping) => dump(counts.alloc, dumping, files, out, audit, vault),
        Command::Upgrade(upgrading) => upgrade(
            counts.alloc,
            upgrading,
            files,
            out,
            audit,
            vault,
            counts.splits,
        ),
        Command::Why(explaining) => explain(
            counts.alloc,
            explaining,
            files,
            out,
            audit,
            vault,
            counts.evaluations,
        ),
    }
}

// Runs the words. The contract is one statement on all that is put.
fn run_words<F: Files, O: Sink, U: AuditSink, K: Vault, D: Door, L: Ledger, M: Ledger>(
    words: &[Txt],
    files: &mut F,
    out: &mut O,
    audit: &mut U,
    vault: &mut K,
    door: &mut D,
    counts: &mut Counts<'_, '_, L, M>,
) -> Status
    requires first { (K.seen vault.old).store.called ≡ false }
    ensures asks { AsksForFiles (span (F.seen files.old) (F.seen files.new))
        (files_named (command_of words.now)) (result ≡ Status.Done) }
    ensures ran { WentAimed (sinks (O.seen out.old) (O.seen out.new) (U.seen audit.old)
        (U.seen audit.new))
        (Runs D.Line.seen (sight (F.seen files.old) (F.seen files.new) (O.seen out.old)
        (O.seen out.new) (U.seen audit.old) (U.seen audit.new) (K.seen vault.old)
        (K.seen vault.new))
        (span (D.seen door.old) (D.seen door.new))
        (span (run_counts counts.old.splits.now counts.old.evaluations.now)
        (run_counts counts.new.splits.now counts.new.evaluations.now)) words.now result) }
    ensures lasts { DoorLasts (D.seen door.old) (D.seen door.new) }
    ensures same_splits { counts.new.splits.ghost_name ≡ counts.old.splits.ghost_name }
    ensures same_evaluations { counts.new.evaluations.ghost_name
        ≡ counts.old.evaluations.ghost_name }
{
    match command_of(counts.alloc, words) {
        Ok(Some(command)) => {
            let ended = take_steps(&command, files, out, audit, vault, door, counts);
            finish(out, &command, ended)
        }
        Ok(None) => refuse_words(out),
        Err(Memory) => run_out(out),
    }
}

// The same. The contract also has the cause of each status.
fn run_counted<F: Files, O: Sink, U: AuditSink, K: Vault, D: Door, L: Ledger, M: Ledger>(
    words: &[Txt],
    files: &mut F,
    out: &mut O,
    audit: &mut U,
    vault: &mut K,
    door: &mut D,
    counts: &mut Counts<'_, '_, L, M>,
) -> Status
    requires first { (K.seen vault.old).store.called ≡ false }
    ensures run { IsRun D.Line.seen (sight (F.seen files.old) (F.seen files.new) (O.seen out.old)
        (O.seen out.new) (U.seen audit.old) (U.seen audit.new) (K.seen vault.old)
        (K.seen vault.new))
        (span (D.seen door.old) (D.seen door.new))
        (span (run_counts counts.old.splits.now counts.old.evaluations.now)
        (run_counts counts.new.splits.now counts.new.evaluations.now)) words.now result }
    ensures same_splits { counts.new.splits.ghost_name ≡ counts.old.splits.ghost_name }
    ensures same_evaluations { counts.new.evaluations.ghost_name
        ≡ counts.old.evaluations.ghost_name }
{
    run_words(words, files, out, audit, vault, door, counts)
}

/// Runs the command that the words give. It puts replies on `out` and audit lines on `audit`. The
/// words are those after the program's name.
///
/// - `check APP` reads the application from a file, and puts the numbers of its models and views.
/// - `replay APP EVENTS` serves the events of a file, one after another, with the application of
///   another file. The store is that of `--db FILE`, or a new one that lasts as long as the
///   program. With `--audit FILE` the audit goes to that file, and without it nowhere. With
///   `--sessions FILE` a token has the viewer that its line in that file gives it, and without it
///   no token has a viewer. With `--lazy` a page of a `GET` is made after only those labels are
///   settled that it consults.
/// - `serve APP PORT COUNT` serves the application of a file on a port, to COUNT connections one
///   after another, or to fewer if no more come. It has the same options as `replay`. It puts one
///   line that counts them: `served C connections, K replies`. A connection that fails ends alone.
/// - `demo N` serves N generated requests to a calendar on a new store, without their replies, and
///   puts one line that counts them: `asks N posts P gets G bytes B labels L`.
/// - `dump APP LABELS` puts a line for each record that is visible if these labels are shown, and
///   the number of the next request. The store is that of `--db FILE`, or a new one.
/// - `upgrade OLD NEW` upgrades the records of the store of `--db FILE` from one application to the
///   next, which extends it, all or nothing, and puts how many they are: `upgraded R records`.
/// - `why APP VIEWER` puts the labels that the viewer is shown, and for each other live label the
///   policy that prevents it. The store is that of `--db FILE`, or a new one.
///
/// If the status isn't `Done`, its line is the last one on `out`.
pub fn run<F: Files, O: Sink, U: AuditSink, K: Vault, D: Door, L: Ledger, M: Ledger>(
    alloc: Global,
    words: &[Txt],
    files: &mut F,
    out: &mut O,
    audit: &mut U,
    vault: &mut K,
    door: &mut D,
    splits: &mut Steps<L>,
    evaluations: &mut Steps<M>,
) -> Status
    // The vault wasn't called yet: the run attaches the store.
    requires first { (K.seen vault.old).store.called ≡ false }

    // By the status: every byte that is put, every page, and the state at the end. Also the files
    // that are asked for, and the cause of each status.
    ensures { IsRun D.Line.seen (sight (F.seen files.old) (F.seen files.new) (O.seen out.old)
        (O.seen out.new) (U.seen audit.old) (U.seen audit.new) (K.seen vault.old)
        (K.seen vault.new))
        (span (D.seen door.old) (D.seen door.new))
        (span (run_counts splits.old evaluations.old) (run_counts splits.new evaluations.new))
        words.now result }
{
    let mut counts = Counts {
        splits,
        evaluations,
        alloc,
    };
    run_counted(words, files, out, audit, vault, door, &mut counts)
}
