//! Each call of a link and of its door fails in turn, and calls of the audit and the keeper fail
//! meanwhile.
use crate::scripts::{
    CALENDAR, Fails, HELLO, Left, Line, NO_FAILS, Script, Wanted, is_left, run_script,
};
use jac_app::Status;
use jac_value::Memory;
use std::alloc::Global;
use std::test::Fail;

const KEPT: &[u8] =
    b"HTTP/1.1 200 OK\r\nContent-Type: text/html; charset=utf-8\r\nContent-Length: 5\r\n\r\nhello";

const CLOSED: &[u8] =
    b"HTTP/1.1 200 OK\r\nContent-Type: text/html; charset=utf-8\r\nContent-Length: 5\r\n\
Connection: close\r\n\r\nhello";

const BOTH: &[u8] =
    b"HTTP/1.1 200 OK\r\nContent-Type: text/html; charset=utf-8\r\nContent-Length: 5\r\n\r\nhello\
HTTP/1.1 200 OK\r\nContent-Type: text/html; charset=utf-8\r\nContent-Length: 5\r\n\
Connection: close\r\n\r\nhello";

const UNAVAILABLE: &[u8] =
    b"HTTP/1.1 503 Service Unavailable\r\nContent-Type: text/plain; charset=utf-8\r\n\
Content-Length: 24\r\nConnection: close\r\n\r\n503 Service Unavailable\n";

const LAST: &[u8] = b"GET / HTTP/1.0\r\n\r\n";

/// A request in two pieces, and one that is the last of its connection. The calls are two takes, a
/// put, a take and a put.
const TWO: [&[u8]; 3] = [b"GET / HTT", b"P/1.1\r\nHost: a\r\n\r\n", LAST];

const ONE: [&[u8]; 1] = [LAST];

// Serves two links. These calls of the first one fail.
fn serve_two(alloc: Global, calls: &[u64], fails: Fails) -> Result<Left, Memory> {
    let lines = [
        Line {
            pieces: &TWO,
            fails: calls,
        },
        Line {
            pieces: &ONE,
            fails: &[],
        },
    ];
    let script = Script {
        words: &["serve", "app", "8080", "2"],
        app: HELLO,
        events: b"",
        lines: &lines,
        fails,
    };
    run_script(alloc, &script, 1)
}

/// The call of the first link that fails, and what both links leave.
struct LinkFault {
    call: u64,
    first: &'static [u8],
    out: &'static [u8],
    audit: &'static [u8],
}

const LINK_FAULTS: [LinkFault; 6] = [
    LinkFault {
        call: 1,
        first: b"",
        out: b"served 2 connections, 1 replies\n",
        audit: b"1 200 - -\n",
    },
    LinkFault {
        call: 2,
        first: b"",
        out: b"served 2 connections, 1 replies\n",
        audit: b"1 200 - -\n",
    },
    LinkFault {
        call: 3,
        first: b"",
        out: b"served 2 connections, 2 replies\n",
        audit: b"1 200 - -\n2 200 - -\n",
    },
    LinkFault {
        call: 4,
        first: KEPT,
        out: b"served 2 connections, 2 replies\n",
        audit: b"1 200 - -\n2 200 - -\n",
    },
    LinkFault {
        call: 5,
        first: KEPT,
        out: b"served 2 connections, 3 replies\n",
        audit: b"1 200 - -\n2 200 - -\n3 200 - -\n",
    },
    LinkFault {
        call: 6,
        first: BOTH,
        out: b"served 2 connections, 3 replies\n",
        audit: b"1 200 - -\n2 200 - -\n3 200 - -\n",
    },
];

fn ends_alone(alloc: Global, fault: &LinkFault) -> Result<bool, Memory> {
    let left = serve_two(alloc, &[fault.call], NO_FAILS)?;
    let wanted = Wanted {
        status: Status::Done,
        out: fault.out,
        audit: fault.audit,
        number: 1,
    };
    let handed = match left.ran.door.lines() {
        [first, second] => first.taken() == fault.first && second.taken() == CLOSED,
        _ => false,
    };
    Ok(handed && is_left(&left, &wanted))
}

#[test]
fn a_link_that_fails_ends_alone(rt: HostRuntime) -> Result<(), Fail> {
    for fault in &LINK_FAULTS {
        assert!(rt; ends_alone(rt.alloc(), fault)?);
    }
    Ok(())
}

/// The call of the door, or of the audit, that fails while two links are served, and what is left:
/// how the run ended, how many links were handed back, and the audit. The first call of the door
/// makes it listen. Then two calls follow for each link: one that gives the link, and one that
/// takes it back.
struct RunFault {
    door: u64,
    audit: u64,
    status: Status,
    out: &'static [u8],
    handed: usize,
    lines: &'static [u8],
}

const RUN_FAULTS: [RunFault; 11] = [
    RunFault {
        door: 1,
        audit: 0,
        status: Status::DoorFault,
        out: b"door fault\n",
        handed: 0,
        lines: b"",
    },
    RunFault {
        door: 2,
        audit: 0,
        status: Status::DoorFault,
        out: b"door fault\n",
        handed: 0,
        lines: b"",
    },
    RunFault {
        door: 3,
        audit: 0,
        status: Status::DoorFault,
        out: b"door fault\n",
        handed: 0,
        lines: b"1 200 - -\n2 200 - -\n",
    },
    RunFault {
        door: 4,
        audit: 0,
        status: Status::DoorFault,
        out: b"door fault\n",
        handed: 1,
        lines: b"1 200 - -\n2 200 - -\n",
    },
    RunFault {
        door: 5,
        audit: 0,
        status: Status::DoorFault,
        out: b"door fault\n",
        handed: 1,
        lines: b"1 200 - -\n2 200 - -\n3 200 - -\n",
    },
    RunFault {
        door: 0,
        audit: 1,
        status: Status::WriteFault,
        out: b"write fault\n",
        handed: 0,
        lines: b"",
    },
    RunFault {
        door: 0,
        audit: 2,
        status: Status::WriteFault,
        out: b"write fault\n",
        handed: 1,
        lines: b"",
    },
    RunFault {
        door: 0,
        audit: 3,
        status: Status::WriteFault,
        out: b"write fault\n",
        handed: 1,
        lines: b"1",
    },
    RunFault {
        door: 0,
        audit: 4,
        status: Status::WriteFault,
        out: b"write fault\n",
        handed: 1,
        lines: b"1 200 - -\n",
    },
    RunFault {
        door: 0,
        audit: 6,
        status: Status::WriteFault,
        out: b"write fault\n",
        handed: 2,
        lines: b"1 200 - -\n2 200 - -\n",
    },
    RunFault {
        door: 0,
        audit: 7,
        status: Status::WriteFault,
        out: b"write fault\n",
        handed: 2,
        lines: b"1 200 - -\n2 200 - -\n3",
    },
];

fn ends_the_run(alloc: Global, fault: &RunFault) -> Result<bool, Memory> {
    let fails = Fails {
        door: &[fault.door],
        audit: &[fault.audit],
        ..NO_FAILS
    };
    let left = serve_two(alloc, &[], fails)?;
    let wanted = Wanted {
        status: fault.status,
        out: fault.out,
        audit: fault.lines,
        number: 1,
    };
    Ok(left.ran.door.lines().len() == fault.handed && is_left(&left, &wanted))
}

#[test]
fn a_door_or_an_audit_that_fails_ends_the_run(rt: HostRuntime) -> Result<(), Fail> {
    for fault in &RUN_FAULTS {
        assert!(rt; ends_the_run(rt.alloc(), fault)?);
    }
    Ok(())
}

const LIST: Line<'static> = Line {
    pieces: &[b"GET /list HTTP/1.1\r\nHost: a\r\n\r\n"],
    fails: &[],
};

fn is_unavailable(alloc: Global, fails: Fails) -> Result<bool, Memory> {
    let script = Script {
        words: &["serve", "app", "8080", "1"],
        app: CALENDAR,
        events: b"",
        lines: &[LIST],
        fails,
    };
    let wanted = Wanted {
        status: Status::Done,
        out: b"served 1 connections, 1 replies\n",
        audit: b"1 503 - nopage\n",
        number: 1,
    };
    let left = run_script(alloc, &script, 1)?;
    let handed = match left.ran.door.lines() {
        [line] => line.taken() == UNAVAILABLE,
        _ => false,
    };
    Ok(handed && is_left(&left, &wanted))
}

#[test]
fn a_fault_of_the_keeper_is_told_on_a_link(rt: HostRuntime) -> Result<(), Fail> {
    let fails = Fails {
        reads: &[1],
        ..NO_FAILS
    };
    assert!(rt; is_unavailable(rt.alloc(), fails)?);
    Ok(())
}
