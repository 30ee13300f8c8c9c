//! Messages on standard error that say why a file isn't attached. If standard error takes nothing,
//! the program continues without them.

use jac_sqlkeep::{OpenFault, Unfit};
use jac_value::Txt;
use sqlite::{Error, ErrorCode};
use std::time::{Duration, Instant};

/// Prints to standard error why the file of this name wasn't attached, unless the reason is
/// reported elsewhere, as another schema is.
pub(crate) fn tell_refusal(
    rt: &HostRuntime,
    name: &Txt,
    fault: Option<OpenFault>,
    unfit: Option<Unfit>,
) {
    if let Some(fault) = fault {
        say(rt, name, words_of_fault(fault));
        return;
    }
    match unfit {
        Some(Unfit::Row(at)) => say_row(rt, name, at),
        Some(unfit) => say(rt, name, words_of(unfit)),
        None => {}
    }
}

fn say(rt: &HostRuntime, name: &Txt, what: &str) {
    let name = name.as_str();
    let _ = eprintln!(rt; "jac: {name}: {what}");
}

// Rows are counted from 1.
fn say_row(rt: &HostRuntime, name: &Txt, at: usize) {
    let name = name.as_str();
    let row = at.saturating_add(1);
    let _ = eprintln!(rt;
        "jac: {name}: row {row} of rec, by model, jid and alt, can't stand there"
    );
}

fn words_of_fault(fault: OpenFault) -> &'static str {
    match fault {
        OpenFault::Missing => "there is no such file",
        OpenFault::Held => "another program has the file open",
        OpenFault::Unsound => "the file is no sound database",
        OpenFault::Memory => "no memory is left",
        OpenFault::Other => "the file can't be opened",
    }
}

/// Why a call over an attached store failed.
pub(crate) fn words_of_error(error: Error) -> &'static str {
    match error {
        Error::SqliteFailure(ErrorCode::DiskFull) => "the disk takes no more",
        Error::SqliteFailure(ErrorCode::SystemIoFailure) => "the disk failed",
        Error::SqliteFailure(ErrorCode::Closed) => "the store is closed after a fault of the disk",
        Error::SqliteFailure(ErrorCode::DatabaseCorrupt) =>
            "the store holds what can't stand there",
        _ => "a statement was refused",
    }
}

/// Reports faults of a store on standard error, at most one per second.
#[derive(Drop)]
pub(crate) struct FaultLog {
    rt: HostRuntime,
    since: Option<Instant>,
    untold: u64,
}

impl FaultLog {
    pub(crate) fn new(rt: HostRuntime) -> FaultLog {
        FaultLog {
            rt,
            since: None,
            untold: 0,
        }
    }

    /// Reports a fault of the store of this name, or counts it for the next line.
    pub(crate) fn tell(&mut self, name: &str, what: &str) {
        if self.is_early() {
            self.untold = self.untold.saturating_add(1);
            return;
        }
        let more = self.untold;
        let _ = if more == 0 {
            eprintln!(self.rt; "jac: {name}: {what}")
        } else {
            eprintln!(self.rt; "jac: {name}: {what}; {more} more faults since the last line")
        };
        self.untold = 0;
    }

    // Whether less than a second has passed since the last line. Without a clock it is false.
    fn is_early(&mut self) -> bool {
        let Ok(now) = Instant::now(&self.rt) else {
            return false;
        };
        if let Some(since) = self.since {
            if now.duration_since(since) < Duration::from_secs(1) {
                return true;
            }
        }
        self.since = Some(now);
        false
    }
}

fn words_of(unfit: Unfit) -> &'static str {
    match unfit {
        Unfit::Form => "the database has other tables than a store's",
        Unfit::Meta => "the table meta hasn't its one row",
        Unfit::Refused(_) | Unfit::Row(_) => "the store can't be read",
    }
}
