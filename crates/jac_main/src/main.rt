//! The program `jac`: `jac_app` over the host's files, its audit, standard output and stores.
#![tactic(auto)]

ghost use Rattle.std.specs.Prelude.{◌≡◌, ◌<◌, IfOk, false, []};
ghost use Rattle.jac_host.specs.Gave.{files_seen};
ghost use Rattle.jac_host.specs.HandedLinks.{AreEnded};
ghost use Rattle.jac_host.specs.Sinks.{sink_seen};
ghost use Rattle.jac_host.specs.Links.{door_seen};
ghost use Rattle.jac_serve_events.specs.Outside.{span};
ghost use Rattle.jac_command_base.specs.Files.{sight};
ghost use Rattle.jac_sqlkeep.specs.Kept.{seen_kept};
ghost use Rattle.jac_host_vault.specs.HostSeen.{LeavesFile};
ghost use Rattle.jac_host_vault.specs.Left.{IsFileLeft};
ghost use Rattle.jac_host_vault.specs.Standing.{IsStoreStanding, IsOpenedOnce, IsOtherStore};
ghost use Rattle.jac_main.specs.Promise.{KeepsPromise, top_run};
ghost use Rattle.jac_main.specs.Start.{BeginsSupposed, has_file};

use jac_app::{Status, run};
use jac_cli::{Command, command_of};
use jac_host::{HostAudit, HostDoor, HostFiles, HostLink, Outside, Stdout, Unknown};
use jac_host_vault::{FileMaker, HostOpeners, HostVault, MakesOpeners};
use jac_io::{Door, Failed, Files, Link, Sink};
use jac_keep::Keeper;
use jac_rows::{State, Tables};
use jac_value::{Memory, Txt};
use jac_world::Steps;
use std::alloc::Global;
use std::marker::Brand;
use std::process::ExitCode;
use std::sync::ledger::{Blank, Ledger};
use std::{env, io};

fn main(rt: HostRuntime) -> ExitCode {
    let ran = run_words::<Brand, Brand, Unknown, HostOpeners>(
        &rt,
        HostOpeners::new(rt),
        Blank::new(1),
        Blank::new(1),
    );
    let status = match ran {
        Ok(status) => status,
        Err(Memory) => run_out(&rt),
    };
    ExitCode::from(status.number())
}

// Memory ran out before the words were read.
fn run_out(rt: &HostRuntime) -> Status {
    match Stdout::new(rt).put(b"memory\n") {
        Ok(()) => Status::Memory,
        Err(Failed) => Status::WriteFault,
    }
}

fn run_words<L: Ledger, M: Ledger, O: Outside, F: MakesOpeners>(
    rt: &HostRuntime,
    openers: F,
    blank: Blank,
    second: Blank,
) -> Result<Status, Memory>
    requires name { blank.name ≡ L.name }
    requires parts { blank.parts ≡ L.parts }
    requires some { 0 < blank.parts }
    requires second_name { second.name ≡ M.name }
    requires second_parts { second.parts ≡ M.parts }
    requires second_some { 0 < second.parts }
{
    let alloc = rt.alloc();
    let words = words_of(rt)?;
    let mut vault = vault_for(rt, openers, words.as_slice())?;
    let mut host: Host<'_, O> = Host {
        files: HostFiles::new(rt),
        out: Stdout::new(rt),
        audit: HostAudit::new(rt),
        door: HostDoor::new(rt),
    };
    let mut splits: Steps<L> = Steps::new(blank);
    let mut evaluations: Steps<M> = Steps::new(second);
    let status = run_host(
        alloc,
        words.as_slice(),
        &mut host,
        &mut vault,
        &mut splits,
        &mut evaluations,
    );
    Ok(status)
}

// What the program uses of the machine, except for its store.
#[derive(Drop)]
struct Host<'h, O: Outside> {
    files: HostFiles<'h, O>,
    out: Stdout<'h>,
    audit: HostAudit<'h>,
    door: HostDoor<'h, O>,
}

// The run over the host, before anything was asked of it. It reaches the machine only by these
// arguments. `O` is what is supposed of the outside: if the files that were read and the input that
// was taken are as `O` says, each clause holds of the bytes that writes took. `F` makes what opens
// the store's file, and supposes what it holds: if its bytes are as `F` says, each clause about
// what was stored holds of the store that they represent. A file that isn't attached at the end is
// left as it was opened. If the status is 9, that file is a store with another schema, unless it
// was supposed to have this schema. If a file is attached and its state is known at the end, its
// database is well formed and committed, with the store's schema text. `F` makes one opener,
// unless a fault closed the store. The input of each connection that was handed back ends for
// good, so some input agrees with all that was read from it.
fn run_host<O: Outside, F: MakesOpeners, L: Ledger, M: Ledger>(
    alloc: Global,
    words: &[Txt],
    host: &mut Host<'_, O>,
    vault: &mut HostVault<FileMaker<F>>,
    splits: &mut Steps<L>,
    evaluations: &mut Steps<M>,
) -> Status
    requires files { ⟦<HostFiles<'static, O> as Files>⟧.seen host.old.files
        ≡ files_seen O.file [] 0 }
    requires out { ⟦<Stdout<'static> as Sink>⟧.seen host.old.out ≡ sink_seen [] 0 }
    requires audit { ⟦<HostAudit<'static> as Sink>⟧.seen host.old.audit ≡ sink_seen [] 0 }
    requires door { ⟦<HostDoor<'static, O> as Door>⟧.seen host.old.door
        ≡ door_seen O.inputs [] [] 0 }
    requires first { (⟦<HostVault<FileMaker<F>> as Keeper>⟧.seen vault.old).store.called
        ≡ false }
    requires begins { BeginsSupposed F.Opens.holds words.now
        (⟦<HostVault<FileMaker<F>> as Keeper>⟧.seen vault.old) }
    ensures promise { KeepsPromise F.Opens.holds words.now (top_run ⟦<HostLink<O> as Link>⟧.seen
        (sight (files_seen O.file [] 0) (⟦<HostFiles<'static, O> as Files>⟧.seen host.new.files)
        (sink_seen [] 0) (⟦<Stdout<'static> as Sink>⟧.seen host.new.out)
        (sink_seen [] 0) (⟦<HostAudit<'static> as Sink>⟧.seen host.new.audit)
        (⟦<HostVault<FileMaker<F>> as Keeper>⟧.seen vault.old)
        (⟦<HostVault<FileMaker<F>> as Keeper>⟧.seen vault.new))
        (span (door_seen O.inputs [] [] 0) (⟦<HostDoor<'static, O> as Door>⟧.seen host.new.door))
        (span splits.old splits.new) (span evaluations.old evaluations.new) result) }
    ensures left { LeavesFile seen_kept
        (λ name. IsFileLeft F.Opens.Store.Store (F.Opens.Opener.gives name)) vault.new }
    ensures other { result ≡ Status.OtherStore → IsOtherStore F.Opens.holds F.Opens.Store.Store
        F.Opens.Opener.gives vault.new }
    ensures stands { IsStoreStanding F.Opens.holds vault.new }
    ensures once { IsOpenedOnce vault.new }
    ensures ended { AreEnded host.new.door.returned.items }
{
    let status = run(
        alloc,
        words,
        &mut host.files,
        &mut host.out,
        &mut host.audit,
        vault,
        &mut host.door,
        splits,
        evaluations,
    );
    vault.stand();
    vault.rows_stand();
    vault.made_once();
    host.door.stand();
    status
}

// The store that these words ask for. Unless their command names a file, it is in memory and empty,
// and its state is known from now on.
fn vault_for<F: MakesOpeners>(
    rt: &HostRuntime,
    openers: F,
    words: &[Txt],
) -> Result<HostVault<FileMaker<F>>, Memory>
    ensures first { IfOk result (λ vault.
        (⟦<HostVault<FileMaker<F>> as Keeper>⟧.seen vault).store.called ≡ false) }
    ensures begins { IfOk result (λ vault. BeginsSupposed F.Opens.holds words.now
        (⟦<HostVault<FileMaker<F>> as Keeper>⟧.seen vault)) }
{
    let alloc = rt.alloc();
    let command = command_of(alloc, words)?;
    let state = State {
        tables: Tables::empty(alloc),
        number: 1,
    };
    if names_file(&command) {
        let maker = FileMaker::new(makes_file(&command), openers);
        return Ok(HostVault::in_file(alloc, state, maker));
    }
    Ok(HostVault::in_memory(alloc, state))
}

// Whether the command names the file of a store.
fn names_file(command: &Option<Command>) -> bool
    ensures { result ≡ has_file command.now }
{
    match command {
        Some(Command::Replay(replay)) => replay.db.is_some(),
        Some(Command::Serve(serving)) => serving.db.is_some(),
        Some(Command::Dump(dumping)) => dumping.db.is_some(),
        Some(Command::Upgrade(_)) => true,
        Some(Command::Why(explaining)) => explaining.db.is_some(),
        Some(Command::Check(_)) => false,
        Some(Command::Demo(_)) => false,
        None => false,
    }
}

// Whether the command makes a store that doesn't exist. A dump, an upgrade and a why need an
// existing store.
fn makes_file(command: &Option<Command>) -> bool {
    match command {
        Some(Command::Dump(_) | Command::Upgrade(_) | Command::Why(_)) => false,
        _ => true,
    }
}

// The words after the program's name. Words that aren't UTF-8 are no command, so they count as
// none.
fn words_of(rt: &HostRuntime) -> Result<Vec<Txt>, Memory> {
    let mut words = Vec::new(rt.alloc());
    match env::args(rt) {
        Ok(arguments) => {
            for argument in arguments.skip(1) {
                words.push(Txt::from_string(argument))?;
            }
            Ok(words)
        }
        Err(error) => {
            if error.kind() == io::ErrorKind::OutOfMemory {
                Err(Memory)
            } else {
                Ok(words)
            }
        }
    }
}
