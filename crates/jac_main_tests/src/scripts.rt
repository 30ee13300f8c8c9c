//! The program's top call over files, sinks, a keeper and a door in memory, which may fail at
//! chosen calls.
ghost use Rattle.std.specs.Prelude.{◌≡◌, ◌<◌, ◌≤◌, ◌^◌, IfOk, false};

use jac_app::{Status, run};
use jac_io::{Calls, Links, MemoryDoor, MemoryFiles, MemoryLink, MemorySink, NamedFiles, Pieces};
use jac_keep::{MemoryKeeper, Vault};
use jac_rows::{State, Tables};
use jac_value::{Bytes, Memory, Txt};
use jac_world::Steps;
use std::alloc::Global;
use std::marker::Brand;
use std::sync::ledger::{Blank, Ledger};
use std::test::Fail;

pub(crate) const HELLO: &str = "(app (view get \"/\" (params) (put \"hello\")))";

pub(crate) const CALENDAR: &str = "(app (viewer User)
 (model User (fields (name text)))
 (model Event (fields (title text) (host (ref User)) (open bool))
  (group (guards (title \"private\"))
   (policy (or (get Event open this) (eq (get Event host this) viewer)))))
 (view post \"/join\" (params (name text))
  (create u User (set (name name)) (put u)))
 (view post \"/add\" (params (title text) (open bool))
  (create e Event (set (title title) (host viewer) (open open)) (put e)))
 (view get \"/list\" (params)
  (for (from ((e Event)) true key) (put (get Event title e)) (put \";\")))
 (view get \"/hidden\" (params)
  (put (count (from ((e Event)) (eq (get Event title e) \"private\") key)))))";

const PEOPLE: &str = "(app (model User (fields (name text)))
 (view post \"/join\" (params (name text)) (create u User (set (name name)) (put u)))
 (view get \"/all\" (params)
  (for (from ((u User)) true key) (put (get User name u)) (put \";\"))))";

const PEOPLE_WITH_NOTES: &[u8] = b"(app (model User (fields (name text) (mail text)))
 (model Note (fields (body text))))";

/// The words of a replay.
pub(crate) const REPLAY: [&str; 3] = ["replay", "app", "events"];

/// How many bytes a sink takes.
const SINK_ROOM: usize = 65_536;

/// How many bytes a link takes.
const LINK_ROOM: usize = 4096;

/// The numbers of the calls that fail.
#[derive(Clone, Copy)]
pub(crate) struct Fails<'f> {
    pub(crate) files: &'f [u64],
    pub(crate) out: &'f [u64],
    pub(crate) audit: &'f [u64],
    pub(crate) reads: &'f [u64],
    pub(crate) applies: &'f [u64],
    pub(crate) door: &'f [u64],
}

pub(crate) const NO_FAILS: Fails<'static> = Fails {
    files: &[],
    out: &[],
    audit: &[],
    reads: &[],
    applies: &[],
    door: &[],
};

/// The pieces that a link gives, and the numbers of its calls that fail.
#[derive(Clone, Copy)]
pub(crate) struct Line<'l> {
    pub(crate) pieces: &'l [&'l [u8]],
    pub(crate) fails: &'l [u64],
}

/// A run: its words, its two files, the links of its door, and the calls that fail.
#[derive(Clone, Copy)]
pub(crate) struct Script<'s> {
    pub(crate) words: &'s [&'s str],
    pub(crate) app: &'s str,
    pub(crate) events: &'s [u8],
    pub(crate) lines: &'s [Line<'s>],
    pub(crate) fails: Fails<'s>,
}

/// What a run must leave.
#[derive(Clone, Copy)]
pub(crate) struct Wanted<'w> {
    pub(crate) status: Status,
    pub(crate) out: &'w [u8],
    pub(crate) audit: &'w [u8],
    pub(crate) number: u64,
}

/// What is around a run, without its keeper.
#[derive(Drop)]
pub(crate) struct Around {
    files: MemoryFiles,
    out: MemorySink,
    audit: MemorySink,
    door: MemoryDoor,
}

/// How a run ended, what it wrote, and its door.
#[derive(Drop)]
pub(crate) struct Ran {
    pub(crate) status: Status,
    pub(crate) out: MemorySink,
    pub(crate) audit: MemorySink,
    pub(crate) door: MemoryDoor,
}

/// What a run over a keeper in memory leaves.
#[derive(Drop)]
pub(crate) struct Left {
    pub(crate) ran: Ran,
    pub(crate) keeper: MemoryKeeper,
}

fn calls_of(alloc: Global, numbers: &[u64]) -> Result<Calls, Memory> {
    let numbers = Vec::from_slice(alloc, numbers)?;
    Ok(Calls::from_vec(numbers))
}

pub(crate) fn words_of(alloc: Global, words: &[&str]) -> Result<Vec<Txt>, Memory> {
    let mut all = Vec::new(alloc);
    for word in words {
        let word = Txt::from_str(alloc, word)?;
        all.push(word)?;
    }
    Ok(all)
}

fn file_of(alloc: Global, name: &str, bytes: &[u8]) -> Result<(Txt, Bytes), Memory> {
    let name = Txt::from_str(alloc, name)?;
    let bytes = Bytes::from_slice(alloc, bytes)?;
    Ok((name, bytes))
}

fn files_of(alloc: Global, script: &Script) -> Result<MemoryFiles, Memory> {
    let mut files = Vec::new(alloc);
    files.push(file_of(alloc, "app", script.app.as_bytes())?)?;
    files.push(file_of(alloc, "events", script.events)?)?;
    let fails = calls_of(alloc, script.fails.files)?;
    Ok(MemoryFiles::new(NamedFiles::from_vec(files), fails))
}

fn sink_of(alloc: Global, fails: &[u64]) -> Result<MemorySink, Memory> {
    let fails = calls_of(alloc, fails)?;
    MemorySink::new(alloc, SINK_ROOM, fails)
}

pub(crate) fn link_of(alloc: Global, line: &Line) -> Result<MemoryLink, Memory> {
    let mut pieces = Vec::new(alloc);
    for piece in line.pieces {
        pieces.push(Bytes::from_slice(alloc, piece)?)?;
    }
    let fails = calls_of(alloc, line.fails)?;
    MemoryLink::new(alloc, Pieces::from_vec(pieces), LINK_ROOM, fails)
}

fn door_of(alloc: Global, script: &Script) -> Result<MemoryDoor, Memory> {
    let mut links = Vec::new(alloc);
    for line in script.lines {
        links.push(link_of(alloc, line)?)?;
    }
    let fails = calls_of(alloc, script.fails.door)?;
    MemoryDoor::new(alloc, Links::from_vec(links), fails)
}

pub(crate) fn around_of(alloc: Global, script: &Script) -> Result<Around, Memory> {
    let files = files_of(alloc, script)?;
    let out = sink_of(alloc, script.fails.out)?;
    let audit = sink_of(alloc, script.fails.audit)?;
    let door = door_of(alloc, script)?;
    Ok(Around {
        files,
        out,
        audit,
        door,
    })
}

// An empty keeper with this next number.
fn keeper_at(alloc: Global, number: u64, fails: Fails) -> Result<MemoryKeeper, Memory>
    requires from_one { 1 ≤ number }
    requires in_range { number ≤ 2 ^ 40 }
    ensures { IfOk result (λ k. k.store.called ≡ false) }
{
    let reads = calls_of(alloc, fails.reads)?;
    let applies = calls_of(alloc, fails.applies)?;
    let state = State {
        tables: Tables::empty(alloc),
        number,
    };
    Ok(MemoryKeeper::new(state, None, reads, applies))
}

/// Runs the words over a keeper that was never attached.
pub(crate) fn run_over<K: Vault, L: Ledger, M: Ledger>(
    alloc: Global,
    words: &[Txt],
    around: Around,
    keeper: &mut K,
    blank: Blank,
    second: Blank,
) -> Ran
    requires first { (K.seen keeper.old).store.called ≡ false }
    requires name { blank.name ≡ L.name }
    requires parts { blank.parts ≡ L.parts }
    requires some { 0 < blank.parts }
    requires second_name { second.name ≡ M.name }
    requires second_parts { second.parts ≡ M.parts }
    requires second_some { 0 < second.parts }
{
    let mut files = around.files;
    let mut out = around.out;
    let mut audit = around.audit;
    let mut door = around.door;
    let mut splits: Steps<L> = Steps::new(blank);
    let mut evaluations: Steps<M> = Steps::new(second);
    let status = run(
        alloc,
        words,
        &mut files,
        &mut out,
        &mut audit,
        keeper,
        &mut door,
        &mut splits,
        &mut evaluations,
    );
    Ran {
        status,
        out,
        audit,
        door,
    }
}

/// Runs a script over a new store with this next number.
pub(crate) fn run_script(alloc: Global, script: &Script, number: u64) -> Result<Left, Memory>
    requires from_one { 1 ≤ number }
    requires in_range { number ≤ 2 ^ 40 }
{
    let words = words_of(alloc, script.words)?;
    let around = around_of(alloc, script)?;
    let mut keeper = keeper_at(alloc, number, script.fails)?;
    let ran = run_over::<MemoryKeeper, Brand, Brand>(
        alloc,
        words.as_slice(),
        around,
        &mut keeper,
        Blank::new(1),
        Blank::new(1),
    );
    Ok(Left { ran, keeper })
}

pub(crate) fn is_left(left: &Left, wanted: &Wanted) -> bool {
    left.ran.status == wanted.status
        && left.ran.out.taken() == wanted.out
        && left.ran.audit.taken() == wanted.audit
        && left.keeper.state().number == wanted.number
}

/// Whether a run over a new store with this next number leaves what is wanted.
pub(crate) fn leaves(
    alloc: Global,
    script: &Script,
    number: u64,
    wanted: &Wanted,
) -> Result<bool, Memory>
    requires from_one { 1 ≤ number }
    requires in_range { number ≤ 2 ^ 40 }
{
    let left = run_script(alloc, script, number)?;
    Ok(is_left(&left, wanted))
}

const AT_THE_END: Script<'static> = Script {
    words: &REPLAY,
    app: CALENDAR,
    events: b"ask - POST \"/join\" \"name=Ann\"
ask - POST \"/join\" \"name=Bob\"
ask - GET \"/list\" \"\"
",
    lines: &[],
    fails: NO_FAILS,
};

const LEFT_AT_THE_END: Wanted<'static> = Wanted {
    status: Status::Done,
    out: b"reply 200 \"\" \"4503599627366400\"
reply 507 \"\" \"507 Insufficient Storage\\n\"
reply 200 \"\" \"\"
",
    audit: b"1 200 - -\n2 507 - nopage\n3 200 - -\n",
    number: 1_099_511_627_776,
};

#[test]
fn a_post_past_the_last_number_is_refused(rt: HostRuntime) -> Result<(), Fail> {
    let last: u64 = 1_099_511_627_775;
    assert!(rt; leaves(rt.alloc(), &AT_THE_END, last, &LEFT_AT_THE_END)?);
    Ok(())
}

/// How many tables the store has after an upgrade. None if the upgrade doesn't leave what is
/// wanted.
fn upgraded(alloc: Global, fails: Fails, wanted: &Wanted) -> Result<Option<usize>, Memory> {
    let script = Script {
        words: &["upgrade", "app", "events", "--db", "store"],
        app: PEOPLE,
        events: PEOPLE_WITH_NOTES,
        lines: &[],
        fails,
    };
    let left = run_script(alloc, &script, 3)?;
    if !is_left(&left, wanted) {
        return Ok(None);
    }
    Ok(Some(left.keeper.state().tables.as_slice().len()))
}

const UPGRADED: Wanted<'static> = Wanted {
    status: Status::Done,
    out: b"upgraded 0 records\n",
    audit: b"",
    number: 3,
};

const NOT_UPGRADED: Wanted<'static> = Wanted {
    status: Status::StoreFault,
    out: b"store fault\n",
    audit: b"",
    number: 3,
};

const TO_LESS: Script<'static> = Script {
    words: &["upgrade", "app", "events", "--db", "store"],
    app: "(app (model User (fields (name text))) (model Note (fields (body text))))",
    events: b"(app (model User (fields (name text))))",
    lines: &[],
    fails: NO_FAILS,
};

const REFUSED: Wanted<'static> = Wanted {
    status: Status::UpgradeRefused,
    out: b"upgrade: model Note\n",
    audit: b"",
    number: 1,
};

#[test]
fn an_upgrade_is_applied_or_leaves_the_store(rt: HostRuntime) -> Result<(), Fail> {
    let alloc = rt.alloc();
    assert_eq!(rt; upgraded(alloc, NO_FAILS, &UPGRADED)?, Some(2));
    let fails = Fails {
        applies: &[1],
        ..NO_FAILS
    };
    assert_eq!(rt; upgraded(alloc, fails, &NOT_UPGRADED)?, Some(1));
    assert!(rt; leaves(alloc, &TO_LESS, 1, &REFUSED)?);
    Ok(())
}
