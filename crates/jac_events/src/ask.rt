ghost use Rattle.std.specs.Prelude.{◌≡◌, ◌==◌, ◌<◌, true, IfOk, IfSome, take, codes, length, position, slice_index};
ghost use Rattle.std.specs.Char.{is_ascii_uppercase};
ghost use Rattle.std.specs.List.{list_all, before_first, after_first};
ghost use Rattle.std.specs.Str.{IsUtf8, bytes_eq, is_utf8};
ghost use Rattle.jac_events.specs.Lines.{is_method, is_path_target, request_of_parts, ask_of};

use crate::Event;
use crate::quoted::quoted;
use crate::words::{behind, word};
use jac_value::{Bytes, Memory, Txt, TxtFault, read_viewer};
use std::alloc::Global;
use std::str::from_utf8;

/// The request after the word `ask`, or none if the rest has another form.
pub fn read_ask(alloc: Global, rest: &[u8]) -> Result<Option<Event>, Memory>
    ensures { IfOk result (λ event. event ≡ ask_of rest.now) }
{
    let Some((viewer, rest)) = word(rest) else {
        return Ok(None);
    };
    let Some((method, rest)) = word(rest) else {
        return Ok(None);
    };
    let Some((target, rest)) = quoted(alloc, rest)? else {
        return Ok(None);
    };
    let Some(rest) = behind(rest, b' ') else {
        return Ok(None);
    };
    let Some((body, rest)) = quoted(alloc, rest)? else {
        return Ok(None);
    };
    let Some(viewer) = read_viewer(viewer) else {
        return Ok(None);
    };
    if !is_method(method) || !is_target(target.as_slice()) || !rest.is_empty() {
        return Ok(None);
    }
    let event = make_ask(alloc, viewer, method, target.as_slice(), body)?;
    Ok(Some(event))
}

fn is_method(word: &[u8]) -> bool
    ensures { result ≡ is_method word.now }
{
    !word.is_empty() && word.len() <= 15 && is_upper_case(word)
}

fn is_upper_case(word: &[u8]) -> bool
    ensures { result ≡ list_all is_ascii_uppercase word.now }
{
    word.iter().all(|byte| byte.is_ascii_uppercase())
}

fn is_target(bytes: &[u8]) -> bool
    ensures { result ≡ is_path_target bytes.now }
{
    has_slash(bytes) && is_text(bytes)
}

fn has_slash(bytes: &[u8]) -> bool
    ensures { result ≡ bytes_eq (take 1 bytes.now) (codes "/") }
{
    match bytes.first() {
        Some(byte) => *byte == b'/',
        None => false,
    }
}

fn is_text(bytes: &[u8]) -> bool
    ensures { result ≡ is_utf8 bytes.now }
{
    match from_utf8(bytes) {
        Ok(_) => true,
        Err(_) => false,
    }
}

// The request of these parts.
fn make_ask(
    alloc: Global,
    viewer: Option<u128>,
    method: &[u8],
    target: &[u8],
    body: Bytes,
) -> Result<Event, Memory>
    requires method { is_method method.now ≡ true }
    requires target { is_path_target target.now ≡ true }
    ensures { IfOk result (λ event. event ≡ request_of_parts viewer method.now target.now body) }
{
    let (path, query) = path_and_query(target);
    let method = text(alloc, method)?;
    let path = text(alloc, path)?;
    let query = Bytes::from_slice(alloc, query)?;
    Ok(Event::Ask {
        viewer,
        method,
        path,
        query,
        body,
    })
}

// What comes before the first `?`, and what comes after it.
fn path_and_query(target: &[u8]) -> (&[u8], &[u8])
    ensures path { result.0.now ≡ before_first (λ b. b == 63) target.now }
    ensures query { result.1.now ≡ after_first (λ b. b == 63) target.now }
    ensures text { IsUtf8 target.now → IsUtf8 result.0.now }
{
    match question_mark(target) {
        Some(at) => (&target[..at], &target[at + 1..]),
        None => (target, &[]),
    }
}

fn question_mark(bytes: &[u8]) -> Option<usize>
    ensures place { result ≡ position (λ b. b == 63) bytes.now }
    ensures within { IfSome result (λ at. at < length bytes.now) }
    ensures found { IfSome result (λ at. slice_index bytes.now at ≡ 63) }
{
    bytes.iter().position(|byte| *byte == b'?')
}

fn text(alloc: Global, bytes: &[u8]) -> Result<Txt, Memory>
    requires { IsUtf8 bytes.now }
    ensures { IfOk result (λ t. t ≡ bytes.now) }
{
    match Txt::from_bytes(alloc, bytes) {
        Ok(text) => Ok(text),
        Err(TxtFault::Memory) => Err(Memory),
        Err(TxtFault::NotUtf8(_)) => unreachable!(),
    }
}
