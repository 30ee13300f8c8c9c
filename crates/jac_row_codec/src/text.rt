ghost use Rattle.std.specs.Prelude.{◌≡◌, ◌<◌, ◌∷◌, ℕ, List, IfOk, IfErr, IfSome, IsNone};
ghost use Rattle.std.specs.Str.{continuation_len};
ghost use Rattle.jac_row_codec.specs.Reading.{StopsBy, TextsOf, IsTextIn, IsTextBefore, IsTextLeft, CanEnd, IsBehindByte, is_lead, least_second, most_second};

use crate::stop::Stop;
use jac_value::{Txt, TxtFault};
use std::alloc::Global;

/// What is still unread of a text.
#[derive(Clone, Copy)]
pub(crate) struct Unread {
    /// How many bytes are unread.
    left: u64,
    /// How many of them belong to a character that has begun.
    inside: u64,
    /// The bounds of the next byte, if a character has begun.
    low: u8,
    high: u8,
}

// A text of so many bytes, and the bytes after it.
pub(crate) fn text_of(alloc: Global, long: u64, bytes: &[u8]) -> Result<(Txt, &[u8]), Stop>
    ensures text { IfOk result (λ r. IsTextIn long bytes.now r.0 r.1.now) }
    ensures stops { IfErr result (StopsBy (TextsOf long) bytes.now) }
{
    let rest = behind_text(long, bytes)?;
    match Txt::from_bytes(alloc, &bytes[..long as usize]) {
        Ok(text) => Ok((text, rest)),
        Err(TxtFault::NotUtf8(_)) => unreachable!(),
        Err(TxtFault::Memory) => Err(Stop::Memory),
    }
}

// The bytes after a text of so many bytes.
fn behind_text(long: u64, bytes: &[u8]) -> Result<&[u8], Stop>
    ensures text { IfOk result (λ r. IsTextBefore long bytes.now r.now) }
    ensures stops { IfErr result (StopsBy (TextsOf long) bytes.now) }
{
    let mut unread = Unread {
        left: long,
        inside: 0,
        low: 0x80,
        high: 0xBF,
    };
    let mut rest = bytes;
    'bytes: while unread.left > 0 {
        let Some((byte, after)) = rest.split_first() else {
            return Err(Stop::Left(0));
        };
        let Some(next) = unread_behind(unread, *byte) else {
            return Err(Stop::Left(rest.len()));
        };
        unread = next;
        rest = after;
    }
    Ok(rest)
}

// What is unread after the byte. None if the text can't go on with it.
fn unread_behind(unread: Unread, byte: u8) -> Option<Unread>
    requires some { 0 < unread.left }
    requires can_end { CanEnd unread }
    ensures next { IfSome result (IsBehindByte unread byte) }
    ensures none { IsNone result → (text : List ℕ) → ¬ (IsTextLeft unread (byte ∷ text)) }
{
    if unread.inside == 0 {
        unread_behind_lead(unread, byte)
    } else {
        unread_behind_later(unread, byte)
    }
}

// The same, inside a character.
fn unread_behind_later(unread: Unread, byte: u8) -> Option<Unread>
    requires inside { 0 < unread.inside }
    requires can_end { CanEnd unread }
    ensures next { IfSome result (IsBehindByte unread byte) }
    ensures none { IsNone result → (text : List ℕ) → ¬ (IsTextLeft unread (byte ∷ text)) }
{
    if byte < unread.low || unread.high < byte {
        return None;
    }
    Some(Unread {
        left: unread.left - 1,
        inside: unread.inside - 1,
        low: 0x80,
        high: 0xBF,
    })
}

// The same, if the byte begins a character.
fn unread_behind_lead(unread: Unread, byte: u8) -> Option<Unread>
    requires some { 0 < unread.left }
    requires closed { unread.inside ≡ 0 }
    ensures next { IfSome result (IsBehindByte unread byte) }
    ensures none { IsNone result → (text : List ℕ) → ¬ (IsTextLeft unread (byte ∷ text)) }
{
    let left = unread.left - 1;
    let inside = continuation_len(byte);
    if !is_lead(byte) || left < inside {
        return None;
    }
    Some(Unread {
        left,
        inside,
        low: least_second(byte),
        high: most_second(byte),
    })
}

fn is_lead(byte: u8) -> bool
    ensures { result ≡ is_lead byte }
{
    byte < 0x80 || (0xC2 <= byte && byte <= 0xF4)
}

// How many bytes a character has after its first one.
fn continuation_len(byte: u8) -> u64
    ensures { result ≡ continuation_len byte }
{
    if byte < 0x80 {
        0
    } else if byte < 0xE0 {
        1
    } else if byte < 0xF0 {
        2
    } else {
        3
    }
}

fn least_second(byte: u8) -> u8
    ensures { result ≡ least_second byte }
{
    match byte {
        0xE0 => 0xA0,
        0xF0 => 0x90,
        _ => 0x80,
    }
}

fn most_second(byte: u8) -> u8
    ensures { result ≡ most_second byte }
{
    match byte {
        0xED => 0x9F,
        0xF4 => 0x8F,
        _ => 0xBF,
    }
}
