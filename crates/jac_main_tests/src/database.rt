//! Requests are answered over a database in memory, and the stored records are found there.
ghost use Rattle.std.specs.Prelude.{◌≡◌, ◌<◌, ◌≤◌, length, IsTrue};

use crate::scripts::{
    CALENDAR, Line, NO_FAILS, REPLAY, Script, around_of, link_of, run_over, words_of,
};
use jac_app::{Status, attach_store, serve_link};
use jac_app_load::{Service, read_application};
use jac_io::{Calls, MemoryLink, MemorySink};
use jac_keep::Keeper;
use jac_route::{Sessions, sessions_of};
use jac_rows::Row;
use jac_sqlkeep::{MemoryOpener, SqlKeeper};
use jac_value::{Id, Memory, Txt, Value};
use jac_world::Steps;
use std::alloc::Global;
use std::marker::Brand;
use std::sync::ledger::{Blank, Ledger};
use std::test::Fail;

const EVENTS: &[u8] = b"ask - POST \"/join\" \"name=Ann\"
ask - POST \"/join\" \"name=Bob\"
ask 4096 POST \"/add\" \"title=raid&open=0\"
ask 4096 GET \"/list\" \"\"
ask 8192 GET \"/list\" \"\"
ask - GET \"/list\" \"\"
";

const REPLIES: &[u8] = b"reply 200 \"\" \"4096\"
reply 200 \"\" \"8192\"
reply 200 \"\" \"12289\"
reply 200 \"\" \"raid;\"
reply 200 \"\" \"private;\"
reply 200 \"\" \"private;\"
";

const AUDIT: &[u8] =
    b"1 200 - -\n2 200 - -\n3 200 4096 98312\n4 200 4096 98312\n5 200 8192 -\n6 200 - -\n";

const SCRIPT: Script<'static> = Script {
    words: &REPLAY,
    app: CALENDAR,
    events: EVENTS,
    lines: &[],
    fails: NO_FAILS,
};

fn is_served(alloc: Global) -> Result<bool, Memory> {
    let words = words_of(alloc, &REPLAY)?;
    let around = around_of(alloc, &SCRIPT)?;
    let mut keeper = SqlKeeper::new(MemoryOpener::new());
    let ran = run_over::<SqlKeeper<MemoryOpener>, Brand, Brand>(
        alloc,
        words.as_slice(),
        around,
        &mut keeper,
        Blank::new(1),
        Blank::new(1),
    );
    let done = ran.status == Status::Done;
    Ok(done && ran.out.taken() == REPLIES && ran.audit.taken() == AUDIT)
}

#[test]
fn events_are_served_over_a_database(rt: HostRuntime) -> Result<(), Fail> {
    assert!(rt; is_served(rt.alloc())?);
    Ok(())
}

/// The same requests over a connection.
const REQUESTS: &[u8] = b"POST /join HTTP/1.1\r\nHost: a\r\nContent-Length: 8\r\n\r\nname=Ann\
POST /join HTTP/1.1\r\nHost: a\r\nContent-Length: 8\r\n\r\nname=Bob\
POST /add HTTP/1.1\r\nHost: a\r\nCookie: session=ann\r\nContent-Length: 17\r\n\r\ntitle=raid&open=0\
GET /list HTTP/1.1\r\nHost: a\r\nCookie: session=ann\r\n\r\n\
GET /list HTTP/1.1\r\nHost: a\r\nCookie: session=bob\r\n\r\n\
GET /list HTTP/1.1\r\nHost: a\r\n\r\n";

const SESSIONS: &[u8] = b"ann 4096\nbob 8192\n";

const SENT: &[u8] =
    b"HTTP/1.1 200 OK\r\nContent-Type: text/html; charset=utf-8\r\nContent-Length: 4\r\n\r\n4096\
HTTP/1.1 200 OK\r\nContent-Type: text/html; charset=utf-8\r\nContent-Length: 4\r\n\r\n8192\
HTTP/1.1 200 OK\r\nContent-Type: text/html; charset=utf-8\r\nContent-Length: 5\r\n\r\n12289\
HTTP/1.1 200 OK\r\nContent-Type: text/html; charset=utf-8\r\nContent-Length: 5\r\n\r\nraid;\
HTTP/1.1 200 OK\r\nContent-Type: text/html; charset=utf-8\r\nContent-Length: 8\r\n\r\nprivate;\
HTTP/1.1 200 OK\r\nContent-Type: text/html; charset=utf-8\r\nContent-Length: 8\r\n\r\nprivate;";

const LINE: Line<'static> = Line {
    pieces: &[REQUESTS],
    fails: &[],
};

/// Whether one of the record's alternatives has this title.
fn has_title(rows: &[Row], title: &str) -> bool {
    for row in rows {
        if let Some(Value::Text(text)) = row.cells.as_slice().first() {
            if row.id == Id(12289) && text.as_str() == title {
                return true;
            }
        }
    }
    false
}

/// Whether both alternatives of the record are found by the title that its host sees.
fn is_found(alloc: Global, keeper: &mut SqlKeeper<MemoryOpener>) -> Result<bool, Memory>
    requires { IsTrue keeper.old.store.attached }
{
    let raid = Value::Text(Txt::from_str(alloc, "raid")?);
    let Ok(found) = keeper.rows_with(alloc, 1, 0, &raid) else {
        return Ok(false);
    };
    let rows = found.as_slice();
    Ok(rows.len() == 2 && has_title(rows, "raid") && has_title(rows, "private"))
}

/// Attaches a new database in memory, serves a connection, and looks for the records of the raid.
fn serves_and_finds<L: Ledger, M: Ledger>(
    alloc: Global,
    service: &Service,
    sessions: &Sessions,
    link: &mut MemoryLink,
    audit: &mut MemorySink,
    blank: Blank,
    second: Blank,
) -> Result<bool, Memory>
    requires name { blank.name ≡ L.name }
    requires parts { blank.parts ≡ L.parts }
    requires some { 0 < blank.parts }
    requires second_name { second.name ≡ M.name }
    requires second_parts { second.parts ≡ M.parts }
    requires second_some { 0 < second.parts }
{
    let schema = service.schema(alloc)?;
    let mut splits: Steps<L> = Steps::new(blank);
    let mut evaluations: Steps<M> = Steps::new(second);
    let mut keeper = SqlKeeper::new(MemoryOpener::new());
    match attach_store(alloc, service, None, schema, &mut keeper) {
        Ok(()) => {
            let served = serve_link(
                alloc,
                service,
                sessions,
                1,
                0,
                false,
                link,
                audit,
                &mut keeper,
                &mut splits,
                &mut evaluations,
            );
            let found = is_found(alloc, &mut keeper)?;
            Ok(found && served == Ok(6))
        }
        Err(_) => Ok(false),
    }
}

/// Whether the application answers the requests over a connection, and the stored records are
/// found.
fn is_link_served(alloc: Global, app: &[u8]) -> Result<bool, Memory>
    requires { length app.now ≤ 1048576 }
{
    let Ok(service) = read_application(alloc, app) else {
        return Ok(false);
    };
    let Ok(sessions) = sessions_of(alloc, SESSIONS) else {
        return Ok(false);
    };
    let mut link = link_of(alloc, &LINE)?;
    let mut audit = MemorySink::new(alloc, 4096, Calls::empty(alloc))?;
    let served = serves_and_finds::<Brand, Brand>(
        alloc,
        &service,
        &sessions,
        &mut link,
        &mut audit,
        Blank::new(1),
        Blank::new(1),
    )?;
    Ok(served && link.taken() == SENT && audit.taken() == AUDIT)
}

#[test]
fn a_link_is_served_over_a_database(rt: HostRuntime) -> Result<(), Fail> {
    assert!(rt; is_link_served(rt.alloc(), CALENDAR.as_bytes())?);
    Ok(())
}
