//! Bytes in quotes, added to a buffer.
ghost use Rattle.std.specs.Prelude.{◌≡◌, ◌<◌, ◌++◌, length, position, true, IfOk, IfSome, OnOk};
ghost use Rattle.jac_value.specs.Quoted.{quoted_bytes, all_escaped, escaped_byte, hex_escape, hex_digit};
ghost use Rattle.jac_replies.specs.Escapes.{has_escape};

use jac_value::Memory;

/// Adds the bytes in quotes. Bytes that need no escape are copied at once, up to the next byte that
/// needs one.
pub(crate) fn put_quoted(bytes: &[u8], to: &mut Vec<u8>) -> Result<(), Memory>
    ensures { OnOk result (to.new.items ≡ to.old.items ++ quoted_bytes bytes.now) }
{
    to.extend_from_slice(b"\"")?;
    put_escaped(bytes, to)?;
    to.extend_from_slice(b"\"")?;
    Ok(())
}

fn put_escaped(bytes: &[u8], to: &mut Vec<u8>) -> Result<(), Memory>
    ensures { OnOk result (to.new.items ≡ to.old.items ++ all_escaped bytes.now) }
{
    let mut left = bytes;
    'pieces: while !left.is_empty() {
        left = put_piece(left, to)?;
    }
    Ok(())
}

// Adds the bytes up to the first that is escaped, and its escape. Returns the bytes after it.
fn put_piece<'b>(bytes: &'b [u8], to: &mut Vec<u8>) -> Result<&'b [u8], Memory>
    ensures put { IfOk result (λ rest. to.new.items ++ all_escaped rest.now ≡ to.old.items
        ++ all_escaped bytes.now) }
    ensures shorter { 0 < length bytes.now → IfOk result
        (λ rest. length rest.now < length bytes.now) }
{
    match first_escape(bytes) {
        Some(at) => {
            to.extend_from_slice(&bytes[..at])?;
            put_escape(bytes[at], to)?;
            Ok(&bytes[at + 1..])
        }
        None => {
            to.extend_from_slice(bytes)?;
            Ok(&[])
        }
    }
}

fn first_escape(bytes: &[u8]) -> Option<usize>
    ensures place { result ≡ position has_escape bytes.now }
    ensures within { IfSome result (λ at. at < length bytes.now) }
{
    bytes.iter().position(|byte| has_escape(*byte))
}

fn has_escape(byte: u8) -> bool
    ensures { result ≡ has_escape byte }
{
    !(b' ' <= byte && byte <= b'~') || byte == b'"' || byte == b'\\'
}

fn put_escape(byte: u8, to: &mut Vec<u8>) -> Result<(), Memory>
    requires { has_escape byte ≡ true }
    ensures { OnOk result (to.new.items ≡ to.old.items ++ escaped_byte byte) }
{
    match byte {
        b'\n' => to.extend_from_slice(b"\\n")?,
        b'\r' => to.extend_from_slice(b"\\r")?,
        b'\\' => to.extend_from_slice(b"\\\\")?,
        b'"' => to.extend_from_slice(b"\\\"")?,
        _ => put_hex(byte, to)?,
    }
    Ok(())
}

fn put_hex(byte: u8, to: &mut Vec<u8>) -> Result<(), Memory>
    ensures { OnOk result (to.new.items ≡ to.old.items ++ hex_escape byte) }
{
    to.extend_from_slice(&[b'\\', b'x', digit(byte / 16), digit(byte % 16)])?;
    Ok(())
}

fn digit(value: u8) -> u8
    requires { value < 16 }
    ensures { result ≡ hex_digit value }
{
    if value < 10 {
        b'0' + value
    } else {
        b'a' - 10 + value
    }
}
