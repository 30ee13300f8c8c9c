ghost use Rattle.std.specs.Prelude.{◌≡◌, ◌+◌, ◌^◌, ◌<◌, ◌≤◌, length, take, None, IsUtf8, codes, IfOk};
ghost use Rattle.jac_http.specs.Parts.{values_of, token_of};
ghost use Rattle.jac_http.specs.Requests.{IsTaken, IsAnswered, without_head, answer_to, refusal_status, with_body, body_length, closes, request_of};
ghost use Rattle.jac_http.specs.Shown.{parts_shown};

use crate::blank::head_in;
use crate::head::Head;
use crate::headers::{read_head, values_of};
use crate::refusal::{refusal, stated_length_of};
use crate::target::{path_of, query_of};
use crate::values::{any_closing, token_of};
use crate::{Request, Taken};
use jac_value::{Bytes, Memory, Txt};
use std::alloc::Global;
use std::str::from_utf8;

/// What is at the front of a connection's bytes. A head ends with its first blank line. It is
/// refused if that isn't within the first 8,192 bytes.
pub fn take_request(alloc: Global, bytes: &[u8]) -> Result<Taken, Memory>
    ensures { IfOk result (λ taken. IsTaken bytes.now taken) }
{
    match head_in(window(bytes)) {
        Some(front) => {
            let (_, rest) = bytes.split_at(front.len());
            let taken = take_head(alloc, front, rest)?;
            Ok(taken)
        }
        None => Ok(without_head(bytes.len())),
    }
}

#[tactic(auto, using(crate::proofs::Takes::all_in_window))]
fn window(bytes: &[u8]) -> &[u8]
    ensures start { result.now ≡ take 8192 bytes.now }
    ensures within { length result.now ≤ length bytes.now }
{
    if bytes.len() <= 8_192 {
        bytes
    } else {
        &bytes[..8_192]
    }
}

fn without_head(taken: usize) -> Taken
    ensures { result ≡ without_head taken }
{
    if taken < 8_192 {
        Taken::More
    } else {
        Taken::Refused { status: 431 }
    }
}

fn take_head(alloc: Global, front: &[u8], rest: &[u8]) -> Result<Taken, Memory>
    requires { length front.now + length rest.now < 2 ^ 64 }
    ensures { IfOk result (λ taken. IsAnswered front.now rest.now taken) }
{
    match read_head(alloc, front)? {
        Some(head) => answer_to(alloc, &head, front.len(), rest),
        None => Ok(Taken::Refused { status: 400 }),
    }
}

fn answer_to(alloc: Global, head: &Head, used: usize, rest: &[u8]) -> Result<Taken, Memory>
    requires { used + length rest.now < 2 ^ 64 }
    ensures { IfOk result (λ taken. taken ≡ answer_to (parts_shown head.now) used rest.now) }
{
    let refused = refusal(alloc, head)?;
    match refused {
        Some(status) => Ok(Taken::Refused { status }),
        None => with_body(alloc, head, used, rest),
    }
}

fn with_body(alloc: Global, head: &Head, used: usize, rest: &[u8]) -> Result<Taken, Memory>
    requires unrefused { refusal_status (parts_shown head.now) ≡ None }
    requires room { used + length rest.now < 2 ^ 64 }
    ensures { IfOk result (λ taken. taken ≡ with_body (parts_shown head.now) used rest.now) }
{
    let length = body_length(alloc, head)?;
    if rest.len() < length {
        return Ok(Taken::More);
    }
    let request = request_of(alloc, head, &rest[..length])?;
    Ok(Taken::Whole {
        request,
        used: used + length,
    })
}

fn body_length(alloc: Global, head: &Head) -> Result<usize, Memory>
    requires { refusal_status (parts_shown head.now) ≡ None }
    ensures { IfOk result (λ n. n ≡ body_length (parts_shown head.now)) }
{
    let length = stated_length_of(alloc, head)?;
    Ok(length.unwrap_or(0))
}

fn request_of(alloc: Global, head: &Head, body: &[u8]) -> Result<Request, Memory>
    ensures { IfOk result (λ r. r ≡ request_of (parts_shown head.now) body.now) }
{
    let method = Txt::from_str(alloc, head.method)?;
    let path = path_of(alloc, head.target)?;
    let query = query_of(alloc, head.target)?;
    let body = Bytes::from_slice(alloc, body)?;
    let token = token_in(alloc, head)?;
    let close = closes(alloc, head)?;
    Ok(Request {
        method,
        path,
        query,
        body,
        token,
        close,
    })
}

fn token_in(alloc: Global, head: &Head) -> Result<Option<Txt>, Memory>
    ensures { IfOk result
        (λ t. t ≡ token_of (values_of (codes "cookie") (parts_shown head.now).headers)) }
{
    let cookies = values_of(alloc, head, b"cookie")?;
    match token_of(alloc, cookies.as_slice())? {
        Some(token) => {
            let token = token_text(alloc, token)?;
            Ok(Some(token))
        }
        None => Ok(None),
    }
}

fn token_text(alloc: Global, token: &[u8]) -> Result<Txt, Memory>
    requires { IsUtf8 token.now }
    ensures { IfOk result (λ t. t ≡ token.now) }
{
    let token = from_utf8(token).unwrap();
    let token = Txt::from_str(alloc, token)?;
    Ok(token)
}

fn closes(alloc: Global, head: &Head) -> Result<bool, Memory>
    ensures { IfOk result (λ r. r ≡ closes (parts_shown head.now)) }
{
    if head.minor == 0 {
        return Ok(true);
    }
    let connections = values_of(alloc, head, b"connection")?;
    any_closing(alloc, connections.as_slice())
}
