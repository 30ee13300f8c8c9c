ghost use Rattle.std.specs.Prelude.{◌≡◌, ◌++◌, [], false, true, None, if◌then◌else◌, IfOk, OnOk, IsSome, codes, decimal, length};
ghost use Rattle.std.specs.Option.{option_copied};
ghost use Rattle.jac_http.specs.Replies.{phrase_of, status_text, field_line, field_line_if, media_type, reply_body, status_line, content_lines, further_lines, reply_bytes, status_of_fixed};

use http::StatusCode;
use itoa::Buffer;
use jac_value::{Bytes, Memory, Txt};
use std::alloc::Global;

// The room that a reply reserves beside its body, in bytes. A longer reply grows.
const HEAD_ROOM: usize = 160;

// The room for the body of a reply without a page, in bytes.
const FIXED_ROOM: usize = 40;

/// A constant reply. It needs no allocation.
#[derive(Clone, Copy, PartialEq, Eq)]
pub enum Fixed {
    /// An allocation failed.
    Memory500,
    /// The keeper had a fault.
    Keeper503,
}

/// The bytes of a reply. Without a page, the body is the status and its phrase, whatever `body` is.
/// The reply to a HEAD request has no body, but states its length.
pub fn write_reply(
    alloc: Global,
    status: u16,
    location: Option<&Txt>,
    allow: Option<&Txt>,
    body: &Bytes,
    page: bool,
    head: bool,
    close: bool,
) -> Result<Bytes, Memory>
    requires { IsSome (phrase_of status) }
    ensures { IfOk result (λ b. b ≡ reply_bytes status (option_copied location.entry)
        (option_copied allow.entry) body.now page head close) }
{
    let body = body.as_slice();
    let mut reply = Vec::with_capacity(alloc, body.len().saturating_add(HEAD_ROOM))?;
    put_status_line(status, &mut reply)?;
    if page {
        put_rest(page, body, location, allow, head, close, &mut reply)?;
        return Ok(Bytes::from_vec(reply));
    }
    let fixed = fixed_body(alloc, status)?;
    put_rest(
        page,
        fixed.as_slice(),
        location,
        allow,
        head,
        close,
        &mut reply,
    )?;
    Ok(Bytes::from_vec(reply))
}

// Appends what follows the status line. `body` is the body of the reply.
fn put_rest(
    page: bool,
    body: &[u8],
    location: Option<&Txt>,
    allow: Option<&Txt>,
    head: bool,
    close: bool,
    to: &mut Vec<u8>,
) -> Result<(), Memory>
    ensures { OnOk result (to.new.items ≡ to.old.items ++ (content_lines page (length body.now)
        ++ further_lines (option_copied location.entry) (option_copied allow.entry) close
        ++ codes "\r\n" ++ (if head then [] else body.now))) }
{
    put_content(page, body.len(), to)?;
    put_further(location, allow, close, to)?;
    to.extend_from_slice(b"\r\n")?;
    put_body(head, body, to)
}

#[tactic(auto, unfolding(crate::specs::Replies::status_line))]
fn put_status_line(status: u16, to: &mut Vec<u8>) -> Result<(), Memory>
    requires { IsSome (phrase_of status) }
    ensures { OnOk result (to.new.items ≡ to.old.items ++ status_line status) }
{
    to.extend_from_slice(b"HTTP/1.1 ")?;
    put_status(status, to)?;
    to.extend_from_slice(b"\r\n")?;
    Ok(())
}

#[tactic(auto, unfolding(crate::specs::Replies::further_lines))]
fn put_further(
    location: Option<&Txt>,
    allow: Option<&Txt>,
    close: bool,
    to: &mut Vec<u8>,
) -> Result<(), Memory>
    ensures { OnOk result (to.new.items ≡ to.old.items ++ further_lines
        (option_copied location.entry) (option_copied allow.entry) close) }
{
    put_field_if(b"Location", location, to)?;
    put_field_if(b"Allow", allow, to)?;
    put_close(close, to)?;
    Ok(())
}

fn put_close(close: bool, to: &mut Vec<u8>) -> Result<(), Memory>
    ensures { OnOk result (to.new.items ≡ to.old.items ++ (if close
        then field_line (codes "Connection") (codes "close") else [])) }
{
    if close {
        put_field(b"Connection", b"close", to)
    } else {
        Ok(())
    }
}

fn put_body(head: bool, body: &[u8], to: &mut Vec<u8>) -> Result<(), Memory>
    ensures { OnOk result (to.new.items ≡ to.old.items ++ (if head then [] else body.now)) }
{
    if head {
        return Ok(());
    }
    to.extend_from_slice(body)?;
    Ok(())
}

fn fixed_body(alloc: Global, status: u16) -> Result<Vec<u8>, Memory>
    requires { IsSome (phrase_of status) }
    ensures { IfOk result (λ b. b.items ≡ status_text status ++ codes "\n") }
{
    let mut body = Vec::with_capacity(alloc, FIXED_ROOM)?;
    put_status(status, &mut body)?;
    body.extend_from_slice(b"\n")?;
    Ok(body)
}

fn put_status(status: u16, to: &mut Vec<u8>) -> Result<(), Memory>
    requires { IsSome (phrase_of status) }
    ensures { OnOk result (to.new.items ≡ to.old.items ++ status_text status) }
{
    let phrase = phrase(status).unwrap();
    to.extend_from_slice(digits(status).as_bytes())?;
    to.extend_from_slice(b" ")?;
    to.extend_from_slice(phrase.as_bytes())?;
    Ok(())
}

// The three digits of a status that has a phrase.
#[tactic(auto, using(crate::proofs::Statuses::has_digits))]
fn digits(status: u16) -> &'static str
    requires { IsSome (phrase_of status) }
    ensures { result.now ≡ decimal status }
{
    match StatusCode::from_u16(status) {
        Ok(code) => code.as_str(),
        Err(_) => unreachable!(),
    }
}

#[tactic(auto, unfolding(crate::specs::Replies::phrase_of))]
fn phrase(status: u16) -> Option<&'static str>
    ensures { option_copied result ≡ phrase_of status }
{
    match status {
        200 => Some("OK"),
        303 => Some("See Other"),
        400 => Some("Bad Request"),
        404 => Some("Not Found"),
        405 => Some("Method Not Allowed"),
        413 => Some("Content Too Large"),
        415 => Some("Unsupported Media Type"),
        431 => Some("Request Header Fields Too Large"),
        500 => Some("Internal Server Error"),
        501 => Some("Not Implemented"),
        503 => Some("Service Unavailable"),
        507 => Some("Insufficient Storage"),
        _ => None,
    }
}

#[tactic(auto, unfolding(crate::specs::Replies::content_lines))]
fn put_content(page: bool, length: usize, to: &mut Vec<u8>) -> Result<(), Memory>
    ensures { OnOk result (to.new.items ≡ to.old.items ++ content_lines page length) }
{
    put_field(b"Content-Type", media_type(page), to)?;
    let mut digits = Buffer::new();
    put_field(b"Content-Length", digits.format(length).as_bytes(), to)
}

fn media_type(page: bool) -> &'static [u8]
    ensures { result.now ≡ media_type page }
{
    if page {
        b"text/html; charset=utf-8"
    } else {
        b"text/plain; charset=utf-8"
    }
}

fn put_field_if(name: &[u8], value: Option<&Txt>, to: &mut Vec<u8>) -> Result<(), Memory>
    ensures { OnOk result (to.new.items ≡ to.old.items ++ field_line_if name.now
        (option_copied value.entry)) }
{
    match value {
        None => Ok(()),
        Some(value) => put_field(name, value.as_bytes(), to),
    }
}

fn put_field(name: &[u8], value: &[u8], to: &mut Vec<u8>) -> Result<(), Memory>
    ensures { OnOk result (to.new.items ≡ to.old.items ++ field_line name.now value.now) }
{
    to.extend_from_slice(name)?;
    to.extend_from_slice(b": ")?;
    to.extend_from_slice(value)?;
    to.extend_from_slice(b"\r\n")?;
    Ok(())
}

/// A whole reply that closes its connection. If it answers a HEAD request, it has no body.
pub fn fixed_reply(status: Fixed, head: bool) -> &'static [u8]
    ensures { result.now ≡ reply_bytes (status_of_fixed status) None None [] false head true }
{
    match (status, head) {
        (Fixed::Memory500, true) => MEMORY_HEAD,
        (Fixed::Memory500, false) => MEMORY,
        (Fixed::Keeper503, true) => KEEPER_HEAD,
        (Fixed::Keeper503, false) => KEEPER,
    }
}

const MEMORY_HEAD: &[u8] =
    b"HTTP/1.1 500 Internal Server Error\r\nContent-Type: text/plain; charset=utf-8\r\nContent-Length: 26\r\nConnection: close\r\n\r\n";

const MEMORY: &[u8] =
    b"HTTP/1.1 500 Internal Server Error\r\nContent-Type: text/plain; charset=utf-8\r\nContent-Length: 26\r\nConnection: close\r\n\r\n500 Internal Server Error\n";

const KEEPER_HEAD: &[u8] =
    b"HTTP/1.1 503 Service Unavailable\r\nContent-Type: text/plain; charset=utf-8\r\nContent-Length: 24\r\nConnection: close\r\n\r\n";

const KEEPER: &[u8] =
    b"HTTP/1.1 503 Service Unavailable\r\nContent-Type: text/plain; charset=utf-8\r\nContent-Length: 24\r\nConnection: close\r\n\r\n503 Service Unavailable\n";
