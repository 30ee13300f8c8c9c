ghost use Rattle.std.specs.Prelude.{◌≡◌, ◌<◌, IfOk, IfSome, length};
ghost use Rattle.std.specs.Option.{option_map};
ghost use Rattle.jac_events.specs.Words.{hex_value, read_quoted, read_escape, read_hex, quoted_at};
ghost use Rattle.jac_events.specs.Fronts.{front_read, IsShorter};

use crate::words::behind;
use jac_value::{Bytes, Memory};
use std::alloc::Global;

/// What is at the front of the rest of a quoted text.
#[derive(Clone, Copy)]
enum Front<'a> {
    Byte(u8, &'a [u8]),
    End(&'a [u8]),
    Bad,
}

/// The content of a quoted text at the front, and what follows it.
pub fn quoted(alloc: Global, bytes: &[u8]) -> Result<Option<(Bytes, &[u8])>, Memory>
    ensures { IfOk result (λ read. option_map (λ p. (p.0, p.1.now)) read ≡ quoted_at bytes.now) }
{
    match behind(bytes, b'"') {
        Some(rest) => {
            let read = content(alloc, rest)?;
            Ok(read)
        }
        None => Ok(None),
    }
}

fn content(alloc: Global, bytes: &[u8]) -> Result<Option<(Bytes, &[u8])>, Memory>
    ensures { IfOk result (λ read. option_map (λ p. (p.0, p.1.now)) read ≡ read_quoted bytes.now) }
{
    // What is read is no longer than the text that it is read from.
    let mut made = Vec::with_capacity(alloc, bytes.len())?;
    let mut left = bytes;
    'pieces: loop {
        match front_of(left) {
            Front::Byte(byte, rest) => {
                made.push(byte)?;
                left = rest;
            }
            Front::End(rest) => return Ok(Some((Bytes::from_vec(made), rest))),
            Front::Bad => return Ok(None),
        }
    }
}

fn front_of(bytes: &[u8]) -> Front<'_>
    ensures read { read_quoted bytes.now ≡ front_read result }
    ensures shorter { IsShorter result (length bytes.now) }
{
    match bytes.split_first() {
        None => Front::Bad,
        Some((b'"', rest)) => Front::End(rest),
        Some((b'\\', rest)) => escaped(rest),
        Some((b'\n', _)) => Front::Bad,
        Some((byte, rest)) => Front::Byte(*byte, rest),
    }
}

fn escaped(bytes: &[u8]) -> Front<'_>
    ensures read { read_escape bytes.now ≡ front_read result }
    ensures shorter { IsShorter result (length bytes.now) }
{
    match bytes.split_first() {
        Some((b'n', rest)) => Front::Byte(b'\n', rest),
        Some((b'r', rest)) => Front::Byte(b'\r', rest),
        Some((b'\\', rest)) => Front::Byte(b'\\', rest),
        Some((b'"', rest)) => Front::Byte(b'"', rest),
        Some((b'x', rest)) => hexed(rest),
        _ => Front::Bad,
    }
}

fn hexed(bytes: &[u8]) -> Front<'_>
    ensures read { read_hex bytes.now ≡ front_read result }
    ensures shorter { IsShorter result (length bytes.now) }
{
    match bytes {
        [high, low, rest @ ..] => match (hex(*high), hex(*low)) {
            (Some(high), Some(low)) => Front::Byte(16 * high + low, rest),
            _ => Front::Bad,
        },
        _ => Front::Bad,
    }
}

fn hex(byte: u8) -> Option<u8>
    ensures value { result ≡ hex_value byte }
    ensures small { IfSome result (λ digit. digit < 16) }
{
    match byte {
        b'0'..=b'9' => Some(byte - b'0'),
        b'A'..=b'F' => Some(byte - b'A' + 10),
        b'a'..=b'f' => Some(byte - b'a' + 10),
        _ => None,
    }
}
