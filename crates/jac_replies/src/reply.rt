ghost use Rattle.std.specs.Prelude.{◌≡◌, ◌++◌, ◌∷◌, [], true, false, IsSome, is_some, IfOk, OnOk, List, Option, Some, None, codes, decimal};
ghost use Rattle.std.specs.Str.{bytes_eq};
ghost use Rattle.std.specs.String.{string_bytes};
ghost use Rattle.jac_http.specs.Replies.{phrase_of, reply_bytes};
ghost use Rattle.jac_value.specs.Quoted.{quoted_bytes};
ghost use Rattle.jac_replies.specs.Spelled.{reply_text, sent_text, spelled_bytes, audit_rest, consulted_text, location_text, printed_body, viewer_text, labels_text, more_labels, shown_text};

use crate::answer::Answer;
use crate::quotes::put_quoted;
use itoa::Buffer;
use jac_http::write_reply;
use jac_value::{Bytes, Id, Memory, Txt};
use jac_world::{Assignment, Label};
use std::alloc::Global;

// The number of bytes of a line besides those that it quotes, with room for some of their escapes.
pub(crate) const LINE_ROOM: usize = 64;

/// The form in which the bytes of a reply on a connection are written.
#[derive(Clone, Copy, PartialEq, Eq)]
pub enum Spelling {
    /// As a line of text: `sent N "BYTES"`.
    Quoted,
    /// As they are.
    Raw,
}

/// The line of a reply: `reply STATUS "LOCATION" "BODY"`. A reply to HEAD has no body.
pub fn reply_line(alloc: Global, method: &[u8], answer: &Answer) -> Result<Bytes, Memory>
    ensures { IfOk result (λ line. line ≡ reply_text method.now answer.now.status
        answer.now.location answer.now.body) }
{
    let body = printed_body(method, answer);
    let mut line = Vec::with_capacity(alloc, room_for(body))?;
    let mut digits = Buffer::new();
    line.extend_from_slice(b"reply ")?;
    line.extend_from_slice(digits.format(answer.status).as_bytes())?;
    line.extend_from_slice(b" ")?;
    put_quoted(location_bytes(answer), &mut line)?;
    line.extend_from_slice(b" ")?;
    put_quoted(body, &mut line)?;
    line.extend_from_slice(b"\n")?;
    Ok(Bytes::from_vec(line))
}

// The room that a line with these bytes in quotes usually needs. The buffer of a longer line grows.
fn room_for(bytes: &[u8]) -> usize {
    (bytes.len() + bytes.len() / 16).saturating_add(LINE_ROOM)
}

fn location_bytes(answer: &Answer) -> &[u8]
    ensures { result.now ≡ location_text answer.now.location }
{
    match &answer.location {
        Some(location) => location.as_bytes(),
        None => &[],
    }
}

fn printed_body<'a>(method: &[u8], answer: &'a Answer) -> &'a [u8]
    ensures { result.now ≡ printed_body method.now answer.now.body }
{
    if is_head(method) {
        &[]
    } else {
        answer.body.as_slice()
    }
}

/// Whether the method is HEAD. The reply to such a request has no body.
pub fn is_head(method: &[u8]) -> bool
    ensures { result ≡ bytes_eq method.now (codes "HEAD") }
{
    method == b"HEAD".as_slice()
}

/// The reply on a connection.
pub fn sent_reply(
    alloc: Global,
    spelling: Spelling,
    conn: u32,
    answer: &Answer,
    head: bool,
    close: bool,
) -> Result<Bytes, Memory>
    requires { IsSome (phrase_of answer.now.status) }
    ensures { IfOk result (λ reply. reply ≡ spelled_bytes spelling conn
        (reply_bytes answer.now.status
        answer.now.location answer.now.allow answer.now.body (is_some answer.now.shown) head
        close)) }
{
    let bytes = write_reply(
        alloc,
        answer.status,
        answer.location.as_ref(),
        answer.allow.as_ref(),
        &answer.body,
        answer.shown.is_some(),
        head,
        close,
    )?;
    spell(alloc, spelling, conn, bytes)
}

/// The reply to a refused request on a connection.
pub fn refusal_reply(
    alloc: Global,
    spelling: Spelling,
    conn: u32,
    status: u16,
) -> Result<Bytes, Memory>
    requires { IsSome (phrase_of status) }
    ensures { IfOk result (λ reply. reply ≡ spelled_bytes spelling conn
        (reply_bytes status None None []
        false false true)) }
{
    let empty = Bytes::empty(alloc);
    let bytes = write_reply(alloc, status, None, None, &empty, false, false, true)?;
    spell(alloc, spelling, conn, bytes)
}

fn spell(alloc: Global, spelling: Spelling, conn: u32, bytes: Bytes) -> Result<Bytes, Memory>
    ensures { IfOk result (λ reply. reply ≡ spelled_bytes spelling conn bytes) }
{
    match spelling {
        Spelling::Quoted => sent_line(alloc, conn, bytes.as_slice()),
        Spelling::Raw => Ok(bytes),
    }
}

/// The bytes of a text.
pub fn text_bytes(text: Txt) -> Bytes
    ensures { result ≡ text }
{
    Bytes::from_vec(text.into_string().into_bytes())
}

fn sent_line(alloc: Global, conn: u32, bytes: &[u8]) -> Result<Bytes, Memory>
    ensures { IfOk result (λ line. line ≡ sent_text conn bytes.now) }
{
    let mut line = Vec::with_capacity(alloc, room_for(bytes))?;
    let mut digits = Buffer::new();
    line.extend_from_slice(b"sent ")?;
    line.extend_from_slice(digits.format(conn).as_bytes())?;
    line.extend_from_slice(b" ")?;
    put_quoted(bytes, &mut line)?;
    line.extend_from_slice(b"\n")?;
    Ok(Bytes::from_vec(line))
}

/// What follows the number in the audit line of a reply: ` STATUS VIEWER SHOWN`, or ` STATUS VIEWER
/// SHOWN of CONSULTED`.
pub fn audit_rest(
    alloc: Global,
    status: u16,
    viewer: Option<Id>,
    shown: &Option<Assignment>,
    consulted: &Option<Assignment>,
) -> Result<Txt, Memory>
    ensures { IfOk result (λ line. line ≡ audit_rest status viewer shown.now consulted.now) }
{
    let mut line = String::with_capacity(alloc, LINE_ROOM)?;
    put_head(status, viewer, &mut line)?;
    put_shown(shown, &mut line)?;
    put_consulted(consulted, &mut line)?;
    line.push_str("\n")?;
    Ok(Txt::from_string(line))
}

pub(crate) fn put_head(status: u16, viewer: Option<Id>, to: &mut String) -> Result<(), Memory>
    ensures { OnOk result (string_bytes to.new ≡ string_bytes to.old ++ (codes " " ++ decimal status
        ++ codes " " ++ viewer_text viewer ++ codes " ")) }
{
    let mut digits = Buffer::new();
    to.push_str(" ")?;
    to.push_str(digits.format(status))?;
    to.push_str(" ")?;
    put_viewer(viewer, to)?;
    to.push_str(" ")?;
    Ok(())
}

pub(crate) fn put_number(number: u128, to: &mut String) -> Result<(), Memory>
    ensures { OnOk result (string_bytes to.new ≡ string_bytes to.old ++ decimal number) }
{
    let mut digits = Buffer::new();
    to.push_str(digits.format(number))?;
    Ok(())
}

fn put_viewer(viewer: Option<Id>, to: &mut String) -> Result<(), Memory>
    ensures { OnOk result (string_bytes to.new ≡ string_bytes to.old ++ viewer_text viewer) }
{
    match viewer {
        None => to.push_str("-")?,
        Some(id) => put_number(id.0, to)?,
    }
    Ok(())
}

fn put_shown(shown: &Option<Assignment>, to: &mut String) -> Result<(), Memory>
    ensures { OnOk result (string_bytes to.new ≡ string_bytes to.old ++ shown_text shown.now) }
{
    match shown {
        None => to.push_str("nopage")?,
        Some(labels) => put_labels(labels, to)?,
    }
    Ok(())
}

// Adds nothing, or ` of CONSULTED`.
pub(crate) fn put_consulted(consulted: &Option<Assignment>, to: &mut String) -> Result<(), Memory>
    ensures { OnOk result (string_bytes to.new ≡ string_bytes to.old
        ++ consulted_text consulted.now) }
{
    match consulted {
        None => (),
        Some(labels) => {
            to.push_str(" of ")?;
            put_labels(labels, to)?;
        }
    }
    Ok(())
}

// Adds the labels, joined by commas.
fn put_labels(labels: &Assignment, to: &mut String) -> Result<(), Memory>
    ensures { OnOk result (string_bytes to.new ≡ string_bytes to.old ++ labels_text labels.now) }
{
    match labels.as_slice().split_first() {
        None => to.push_str("-")?,
        Some((first, rest)) => {
            put_number(first.0, to)?;
            put_more(rest, to)?;
        }
    }
    Ok(())
}

// Adds each label after a comma.
pub(crate) fn put_more(labels: &[Label], to: &mut String) -> Result<(), Memory>
    ensures { OnOk result (string_bytes to.new ≡ string_bytes to.old ++ more_labels labels.now) }
{
    let mut digits = Buffer::new();
    'labels: for label in labels {
        to.push_str(",")?;
        to.push_str(digits.format(label.0))?;
    }
    Ok(())
}
