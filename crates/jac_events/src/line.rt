ghost use Rattle.std.specs.Prelude.{◌≡◌, Ok, Err, Some, None, IfOk};
ghost use Rattle.std.specs.Option.{option_map};
ghost use Rattle.jac_events.specs.declared.event.Event.TheVariants.{Begin, Finish};
ghost use Rattle.jac_events.specs.declared.event.LineFault.TheVariants.{BadLine};
ghost use Rattle.jac_events.specs.Lines.{conn_of, data_of, event_of, line_of};

use crate::ask::read_ask;
use crate::numbers::conn_number;
use crate::quoted::quoted;
use crate::words::word;
use crate::{Event, LineFault};
use jac_value::Memory;
use std::alloc::Global;

/// The event of a line, without its LF. An empty line has none.
pub fn read_line(alloc: Global, line: &[u8]) -> Result<Option<Event>, LineFault>
    ensures read { IfOk result (λ event. line_of line.now ≡ Some event) }
    ensures bad { result ≡ Err BadLine → line_of line.now ≡ None }
{
    if line.is_empty() {
        return Ok(None);
    }
    match read_event(alloc, line) {
        Ok(Some(event)) => Ok(Some(event)),
        Ok(None) => Err(LineFault::BadLine),
        Err(Memory) => Err(LineFault::Memory),
    }
}

fn read_event(alloc: Global, line: &[u8]) -> Result<Option<Event>, Memory>
    ensures { IfOk result (λ event. event ≡ event_of line.now) }
{
    let Some((verb, rest)) = word(line) else {
        return Ok(None);
    };
    if verb == b"ask".as_slice() {
        return read_ask(alloc, rest);
    }
    if verb == b"open".as_slice() {
        return Ok(begin(rest));
    }
    if verb == b"data".as_slice() {
        return read_data(alloc, rest);
    }
    if verb == b"end".as_slice() {
        return Ok(finish(rest));
    }
    Ok(None)
}

fn begin(word: &[u8]) -> Option<Event>
    ensures { result ≡ option_map Begin (conn_of word.now) }
{
    match conn_number(word) {
        Some(conn) => Some(Event::Begin { conn }),
        None => None,
    }
}

fn finish(word: &[u8]) -> Option<Event>
    ensures { result ≡ option_map Finish (conn_of word.now) }
{
    match conn_number(word) {
        Some(conn) => Some(Event::Finish { conn }),
        None => None,
    }
}

fn read_data(alloc: Global, rest: &[u8]) -> Result<Option<Event>, Memory>
    ensures { IfOk result (λ event. event ≡ data_of rest.now) }
{
    let Some((first, rest)) = word(rest) else {
        return Ok(None);
    };
    let Some((bytes, rest)) = quoted(alloc, rest)? else {
        return Ok(None);
    };
    let Some(conn) = conn_number(first) else {
        return Ok(None);
    };
    if !rest.is_empty() {
        return Ok(None);
    }
    Ok(Some(Event::Piece { conn, bytes }))
}
