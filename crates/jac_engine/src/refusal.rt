//! Answers without a page.
ghost use Rattle.std.specs.Prelude.{◌≡◌, Some, IfOk};
ghost use Rattle.jac_engine.specs.Answers.{allow_text};
ghost use Rattle.jac_replies.specs.Refused.{reason, fixed_body};
ghost use Rattle.jac_engine.specs.Viewed.{prepared_refusal};

use crate::Prepared;
use jac_replies::Answer;
use jac_route::Allow;
use jac_value::{Bytes, Memory, Txt};
use std::alloc::Global;

/// The refusal of a method that a path doesn't have.
pub(crate) fn refuse_method(alloc: Global, allow: Allow) -> Result<Prepared, Memory>
    ensures { IfOk result (λ p. p ≡ prepared_refusal 405 (Some (allow_text allow.get allow.post))) }
{
    let methods = Txt::from_str(alloc, methods(allow.get, allow.post))?;
    let prepared = refuse(alloc, 405, Some(methods))?;
    Ok(prepared)
}

/// An answer with this status. Its body is the reason.
pub(crate) fn refuse(alloc: Global, status: u16, allow: Option<Txt>) -> Result<Prepared, Memory>
    ensures { IfOk result (λ p. p ≡ prepared_refusal status allow) }
{
    let body = body_of(alloc, status)?;
    Ok(Prepared {
        answer: Answer {
            status,
            location: None,
            allow,
            body,
            shown: None,
            consulted: None,
        },
        change: None,
    })
}

fn methods(get: bool, post: bool) -> &'static str
    ensures { result.now ≡ allow_text get post }
{
    match (get, post) {
        (true, true) => "GET, HEAD, POST",
        (true, false) => "GET, HEAD",
        (false, _) => "POST",
    }
}

fn body_of(alloc: Global, status: u16) -> Result<Bytes, Memory>
    ensures { IfOk result (λ b. b ≡ fixed_body status) }
{
    let word = reason_of(status);
    let line = format!(in alloc; "{status} {word}\n")?;
    let body = Bytes::from_slice(alloc, line.as_bytes())?;
    Ok(body)
}

fn reason_of(status: u16) -> &'static str
    ensures { result.now ≡ reason status }
{
    match status {
        404 => "Not Found",
        405 => "Method Not Allowed",
        500 => "Internal Server Error",
        503 => "Service Unavailable",
        507 => "Insufficient Storage",
        _ => "",
    }
}
