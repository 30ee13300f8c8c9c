//! Connections that a door of the host accepts from clients, and the bytes that they bring. Most of
//! the code is in helpers that own little: each exit of a function drops what it owns, and each
//! such drop is proved.
ghost use Rattle.std.specs.Prelude.{◌≡◌, ◌<◌, ◌≤◌};

use jac_host::{HostDoor, HostLink, Unknown};
use jac_io::{Door, Failed, Link};
use std::io::{Read, Write};
use std::net::{SocketAddr, TcpListener, TcpStream};
use std::test::Fail;

const REQUEST: &[u8] = b"GET / HTTP/1.0\r\n\r\n";

const REPLY: &[u8] = b"HTTP/1.1 204 No Content\r\n\r\n";

// An address of the loopback interface on which nobody listens.
fn free_address(rt: &HostRuntime) -> Result<SocketAddr, Fail> {
    let listener = TcpListener::bind(rt, "127.0.0.1:0")?;
    Ok(listener.local_addr()?)
}

fn open_door(rt: &HostRuntime, address: SocketAddr) -> Result<HostDoor<'_, Unknown>, Fail> {
    let mut door = HostDoor::<Unknown>::new(rt);
    door.listen(address.port())?;
    Ok(door)
}

// Whether the next call takes exactly these bytes from the connection.
fn takes(line: &mut HostLink<Unknown>, bytes: &[u8]) -> Result<bool, Failed> {
    let mut into = [0u8; 64];
    let count = line.take(&mut into)?;
    Ok(&into[..count] == bytes)
}

// Whether the client receives exactly these bytes next.
fn is_sent(client: &mut TcpStream, bytes: &[u8]) -> Result<bool, Fail> {
    let mut into = [0u8; 64];
    let count = client.read(&mut into)?;
    Ok(&into[..count] == bytes)
}

// Whether the next connection brings these bytes at once.
fn brings(door: &mut HostDoor<'_, Unknown>, bytes: &[u8]) -> Result<bool, Fail> {
    let Some(line) = door.next()? else {
        return Ok(false);
    };
    let mut line = line;
    let is_brought = takes(&mut line, bytes);
    door.close(line)?;
    Ok(is_brought == Ok(true))
}

// Whether the next connection brings the request. The request is answered.
fn is_answered(door: &mut HostDoor<'_, Unknown>) -> Result<bool, Fail> {
    let Some(line) = door.next()? else {
        return Ok(false);
    };
    let mut line = line;
    let is_brought = takes(&mut line, REQUEST);
    let is_put = line.put(REPLY);
    door.close(line)?;
    Ok(is_brought == Ok(true) && is_put.is_ok())
}

fn is_served(
    rt: &HostRuntime,
    door: &mut HostDoor<'_, Unknown>,
    address: SocketAddr,
) -> Result<bool, Fail> {
    let mut client = TcpStream::connect(rt, address)?;
    client.write_all(REQUEST)?;
    let is_answered = is_answered(door)?;
    let is_whole = is_sent(&mut client, REPLY)?;
    let is_closed = is_sent(&mut client, b"")?;
    Ok(is_answered && is_whole && is_closed)
}

#[test]
fn a_connection_of_the_host_is_read_and_answered(rt: HostRuntime) -> Result<(), Fail> {
    let address = free_address(&rt)?;
    let mut door = open_door(&rt, address)?;
    assert!(rt; is_served(&rt, &mut door, address)?);
    Ok(())
}

// Whether a late request is served after one that came whole.
fn is_late_behind(
    door: &mut HostDoor<'_, Unknown>,
    late: &mut TcpStream,
    whole: &mut TcpStream,
) -> Result<bool, Fail> {
    late.write_all(b"GET /late HT")?;
    whole.write_all(REQUEST)?;
    let is_first = brings(door, REQUEST)?;
    late.write_all(b"TP/1.0\r\n\r\n")?;
    let is_second = brings(door, b"GET /late HTTP/1.0\r\n\r\n")?;
    Ok(is_first && is_second)
}

fn is_idle_last(
    rt: &HostRuntime,
    door: &mut HostDoor<'_, Unknown>,
    address: SocketAddr,
) -> Result<bool, Fail> {
    let idle = TcpStream::connect(rt, address)?;
    let mut late = TcpStream::connect(rt, address)?;
    let mut whole = TcpStream::connect(rt, address)?;
    let is_behind = is_late_behind(door, &mut late, &mut whole)?;
    drop(idle);
    Ok(is_behind && brings(door, b"")?)
}

#[test]
fn whoever_brought_a_request_is_served_first(rt: HostRuntime) -> Result<(), Fail> {
    let address = free_address(&rt)?;
    let mut door = open_door(&rt, address)?;
    assert!(rt; is_idle_last(&rt, &mut door, address)?);
    Ok(())
}

// Whether two calls take a head of 41 bytes and a body of 9000 bytes, the end of which came last.
fn takes_body(line: &mut HostLink<Unknown>) -> Result<bool, Failed> {
    let mut into = [0u8; 64];
    let head = line.take(&mut into)?;
    let mut into = [0u8; 16384];
    let rest = line.take(&mut into)?;
    Ok(head + rest == 41 + 9000 && into[..rest].ends_with(&[b'b'; 5000]))
}

fn brings_body(door: &mut HostDoor<'_, Unknown>) -> Result<bool, Fail> {
    let Some(line) = door.next()? else {
        return Ok(false);
    };
    let mut line = line;
    let is_brought = takes_body(&mut line);
    door.close(line)?;
    Ok(is_brought == Ok(true))
}

fn is_dripping_behind(
    rt: &HostRuntime,
    door: &mut HostDoor<'_, Unknown>,
    address: SocketAddr,
) -> Result<bool, Fail> {
    let mut slow = TcpStream::connect(rt, address)?;
    slow.write_all(b"POST / HTTP/1.1\r\nContent-Length: 9000\r\n\r\n")?;
    slow.write_all(&[b'a'; 4000])?;
    let mut whole = TcpStream::connect(rt, address)?;
    whole.write_all(REQUEST)?;
    let is_first = brings(door, REQUEST)?;
    slow.write_all(&[b'b'; 5000])?;
    Ok(is_first && brings_body(door)?)
}

#[test]
fn a_body_that_drips_holds_nobody_up(rt: HostRuntime) -> Result<(), Fail> {
    let address = free_address(&rt)?;
    let mut door = open_door(&rt, address)?;
    assert!(rt; is_dripping_behind(&rt, &mut door, address)?);
    Ok(())
}

// Whether the next connection brings what came in time, and then its end.
fn is_ended(door: &mut HostDoor<'_, Unknown>) -> Result<bool, Fail> {
    let Some(line) = door.next()? else {
        return Ok(false);
    };
    let mut line = line;
    let is_brought = takes(&mut line, b"GET /never");
    let is_at_its_end = takes(&mut line, b"");
    door.close(line)?;
    Ok(is_brought == Ok(true) && is_at_its_end == Ok(true))
}

fn is_never_whole(
    rt: &HostRuntime,
    door: &mut HostDoor<'_, Unknown>,
    address: SocketAddr,
) -> Result<bool, Fail> {
    let mut never = TcpStream::connect(rt, address)?;
    never.write_all(b"GET /never")?;
    is_ended(door)
}

#[test]
fn what_came_in_time_is_taken_before_the_end(rt: HostRuntime) -> Result<(), Fail> {
    let address = free_address(&rt)?;
    let mut door = open_door(&rt, address)?;
    assert!(rt; is_never_whole(&rt, &mut door, address)?);
    Ok(())
}
