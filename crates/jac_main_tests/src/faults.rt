//! Each call of the files and sinks around a run fails in turn, and so does each call of its
//! keeper.
use crate::scripts::{CALENDAR, Fails, Left, NO_FAILS, REPLAY, Script, Wanted, leaves, run_script};
use jac_app::Status;
use jac_value::Memory;
use std::alloc::Global;
use std::test::Fail;

const STORY: &[u8] = b"ask - POST \"/join\" \"name=Ann\"
ask - POST \"/join\" \"name=Bob\"
ask 4096 POST \"/add\" \"title=raid&open=0\"
";

/// The part that fails.
#[derive(Clone, Copy)]
enum Part {
    Files,
    Out,
    Audit,
}

/// Calls of one part that fail, and what a run of the story leaves then. The first call of the
/// audit aims it at its file. After it come two calls for each line: the number, and the rest of
/// the line.
struct Fault {
    part: Part,
    calls: &'static [u64],
    status: Status,
    out: &'static [u8],
    audit: &'static [u8],
    number: u64,
}

const FAULTS: [Fault; 13] = [
    Fault {
        part: Part::Files,
        calls: &[1],
        status: Status::ReadFault,
        out: b"read fault: app\n",
        audit: b"",
        number: 1,
    },
    Fault {
        part: Part::Files,
        calls: &[2],
        status: Status::ReadFault,
        out: b"read fault: events\n",
        audit: b"",
        number: 1,
    },
    Fault {
        part: Part::Audit,
        calls: &[1],
        status: Status::WriteFault,
        out: b"write fault\n",
        audit: b"",
        number: 1,
    },
    Fault {
        part: Part::Audit,
        calls: &[2],
        status: Status::WriteFault,
        out: b"write fault\n",
        audit: b"",
        number: 2,
    },
    Fault {
        part: Part::Audit,
        calls: &[3],
        status: Status::WriteFault,
        out: b"write fault\n",
        audit: b"1",
        number: 2,
    },
    Fault {
        part: Part::Audit,
        calls: &[4],
        status: Status::WriteFault,
        out: b"reply 200 \"\" \"4096\"\nwrite fault\n",
        audit: b"1 200 - -\n",
        number: 3,
    },
    Fault {
        part: Part::Audit,
        calls: &[5],
        status: Status::WriteFault,
        out: b"reply 200 \"\" \"4096\"\nwrite fault\n",
        audit: b"1 200 - -\n2",
        number: 3,
    },
    Fault {
        part: Part::Audit,
        calls: &[6],
        status: Status::WriteFault,
        out: b"reply 200 \"\" \"4096\"\nreply 200 \"\" \"8192\"\nwrite fault\n",
        audit: b"1 200 - -\n2 200 - -\n",
        number: 4,
    },
    Fault {
        part: Part::Audit,
        calls: &[7],
        status: Status::WriteFault,
        out: b"reply 200 \"\" \"4096\"\nreply 200 \"\" \"8192\"\nwrite fault\n",
        audit: b"1 200 - -\n2 200 - -\n3",
        number: 4,
    },
    Fault {
        part: Part::Out,
        calls: &[1],
        status: Status::WriteFault,
        out: b"write fault\n",
        audit: b"1 200 - -\n",
        number: 2,
    },
    Fault {
        part: Part::Out,
        calls: &[2],
        status: Status::WriteFault,
        out: b"reply 200 \"\" \"4096\"\nwrite fault\n",
        audit: b"1 200 - -\n2 200 - -\n",
        number: 3,
    },
    Fault {
        part: Part::Out,
        calls: &[3],
        status: Status::WriteFault,
        out: b"reply 200 \"\" \"4096\"\nreply 200 \"\" \"8192\"\nwrite fault\n",
        audit: b"1 200 - -\n2 200 - -\n3 200 4096 98312\n",
        number: 4,
    },
    Fault {
        part: Part::Out,
        calls: &[1, 2, 3, 4],
        status: Status::WriteFault,
        out: b"",
        audit: b"1 200 - -\n",
        number: 2,
    },
];

fn fails_of(fault: &Fault) -> Fails<'static> {
    match fault.part {
        Part::Files => Fails {
            files: fault.calls,
            ..NO_FAILS
        },
        Part::Out => Fails {
            out: fault.calls,
            ..NO_FAILS
        },
        Part::Audit => Fails {
            audit: fault.calls,
            ..NO_FAILS
        },
    }
}

// The calendar's run of these events.
fn calendar<'s>(events: &'s [u8], fails: Fails<'s>) -> Script<'s> {
    Script {
        words: &REPLAY,
        app: CALENDAR,
        events,
        lines: &[],
        fails,
    }
}

fn leaves_as_told(alloc: Global, fault: &Fault) -> Result<bool, Memory> {
    let script = calendar(STORY, fails_of(fault));
    let wanted = Wanted {
        status: fault.status,
        out: fault.out,
        audit: fault.audit,
        number: fault.number,
    };
    leaves(alloc, &script, 1, &wanted)
}

#[test]
fn each_call_of_files_and_sinks_fails_in_turn(rt: HostRuntime) -> Result<(), Fail> {
    for fault in &FAULTS {
        assert!(rt; leaves_as_told(rt.alloc(), fault)?);
    }
    Ok(())
}

/// A run of the story in which the request at this place is refused, or no request if the place is
/// 4. The events are the story without this request. They leave the same records.
struct Refusal {
    place: u64,
    events: &'static [u8],
    out: &'static [u8],
    audit: &'static [u8],
}

const REFUSALS: [Refusal; 4] = [
    Refusal {
        place: 1,
        events: b"ask - POST \"/join\" \"name=Bob\"
ask 4096 POST \"/add\" \"title=raid&open=0\"
",
        out: b"reply 503 \"\" \"503 Service Unavailable\\n\"
reply 200 \"\" \"4096\"
reply 200 \"\" \"8193\"
",
        audit: b"1 503 - nopage\n2 200 - -\n3 200 4096 65544\n",
    },
    Refusal {
        place: 2,
        events: b"ask - POST \"/join\" \"name=Ann\"
ask 4096 POST \"/add\" \"title=raid&open=0\"
",
        out: b"reply 200 \"\" \"4096\"
reply 503 \"\" \"503 Service Unavailable\\n\"
reply 200 \"\" \"8193\"
",
        audit: b"1 200 - -\n2 503 - nopage\n3 200 4096 65544\n",
    },
    Refusal {
        place: 3,
        events: b"ask - POST \"/join\" \"name=Ann\"\nask - POST \"/join\" \"name=Bob\"\n",
        out: b"reply 200 \"\" \"4096\"
reply 200 \"\" \"8192\"
reply 503 \"\" \"503 Service Unavailable\\n\"
",
        audit: b"1 200 - -\n2 200 - -\n3 503 4096 nopage\n",
    },
    Refusal {
        place: 4,
        events: STORY,
        out: b"reply 200 \"\" \"4096\"\nreply 200 \"\" \"8192\"\nreply 200 \"\" \"12289\"\n",
        audit: b"1 200 - -\n2 200 - -\n3 200 4096 98312\n",
    },
];

// Whether a run of these events, in which nothing fails, leaves the same records and the same
// number.
fn leaves_the_same(alloc: Global, events: &[u8], left: &Left) -> Result<bool, Memory> {
    let other = run_script(alloc, &calendar(events, NO_FAILS), 1)?;
    let have = format!(in alloc; "{:?}", left.keeper.state())?;
    let want = format!(in alloc; "{:?}", other.keeper.state())?;
    Ok(have.as_bytes() == want.as_bytes())
}

// The place of the only request that was refused. 0 if the run is none of `REFUSALS`.
fn refused_in(alloc: Global, left: &Left) -> Result<u64, Memory> {
    for refusal in &REFUSALS {
        if left.ran.out.taken() == refusal.out && left.ran.audit.taken() == refusal.audit {
            let same = leaves_the_same(alloc, refusal.events, left)?;
            return Ok(if same { refusal.place } else { 0 });
        }
    }
    Ok(0)
}

// The same for a run of the story that ends well. 0 for any other run.
fn refused_by(alloc: Global, fails: Fails) -> Result<u64, Memory> {
    let left = run_script(alloc, &calendar(STORY, fails), 1)?;
    if left.ran.status != Status::Done {
        return Ok(0);
    }
    refused_in(alloc, &left)
}

const NOTHING_READ: Wanted<'static> = Wanted {
    status: Status::StoreFault,
    out: b"store fault\n",
    audit: b"",
    number: 1,
};

#[test]
fn each_call_of_the_keeper_fails_in_turn(rt: HostRuntime) -> Result<(), Fail> {
    let alloc = rt.alloc();
    let mut last = 1;
    for call in 1..61u64 {
        let reads = Fails {
            reads: &[call],
            ..NO_FAILS
        };
        let place = refused_by(alloc, reads)?;
        assert!(rt; last <= place);
        last = place;
    }
    assert_eq!(rt; last, 4);
    for call in 1..4u64 {
        let applies = Fails {
            applies: &[call],
            ..NO_FAILS
        };
        assert_eq!(rt; refused_by(alloc, applies)?, call);
    }
    let dump = Script {
        words: &["dump", "app", "-"],
        fails: Fails {
            reads: &[1],
            ..NO_FAILS
        },
        ..calendar(b"", NO_FAILS)
    };
    assert!(rt; leaves(alloc, &dump, 1, &NOTHING_READ)?);
    Ok(())
}

/// Two people join. The first makes sixty events that nobody else may see. Then each asks how many
/// are private.
fn sixty_events(alloc: Global) -> Result<Vec<u8>, Memory> {
    let mut events = Vec::from_slice(
        alloc,
        b"ask - POST \"/join\" \"name=Ann\"\nask - POST \"/join\" \"name=Bob\"\n",
    )?;
    for _event in 0..60 {
        events.extend_from_slice(b"ask 4096 POST \"/add\" \"title=raid&open=0\"\n")?;
    }
    events.extend_from_slice(b"ask 4096 GET \"/hidden\" \"\"\nask 8192 GET \"/hidden\" \"\"\n")?;
    Ok(events)
}

const LAST_REPLIES: &[u8] = b"
reply 200 \"\" \"253953\"
reply 200 \"\" \"0\"
reply 200 \"\" \"60\"
";

fn answers_sixty(alloc: Global, fails: Fails) -> Result<bool, Memory> {
    let events = sixty_events(alloc)?;
    let left = run_script(alloc, &calendar(events.as_slice(), fails), 1)?;
    Ok(left.ran.out.taken().ends_with(LAST_REPLIES) && left.keeper.state().number == 63)
}

// If the policies of sixty events were evaluated again at each try, this would take more than
// 37,000 evaluations, each of which reads the keeper.
#[test]
fn policies_are_asked_where_what_they_read_is_new(rt: HostRuntime) -> Result<(), Fail> {
    let fails = Fails {
        reads: &[30_000],
        ..NO_FAILS
    };
    assert!(rt; answers_sixty(rt.alloc(), fails)?);
    Ok(())
}
