ghost use Rattle.std.specs.Prelude.{◌≡◌, ◌&&◌, ◌∷◌, [], min, nat_lt, unwrap_or, Some, codes, IfOk};
ghost use Rattle.std.specs.Option.{option_map};
ghost use Rattle.std.specs.Str.{bytes_eq};
ghost use Rattle.jac_http.specs.Parts.{has_no_form, values_of};
ghost use Rattle.jac_http.specs.Requests.{stated_length_of, lacks_host, has_coding, first_status, refusal_status, body_length, posts_no_form};
ghost use Rattle.jac_http.specs.Shown.{parts_shown};

use crate::head::Head;
use crate::headers::values_of;
use crate::target::is_target;
use crate::values::{has_no_form, stated_length};
use jac_value::Memory;
use std::alloc::Global;

/// The status with which a head is refused, if it is.
pub(crate) fn refusal(alloc: Global, head: &Head) -> Result<Option<u16>, Memory>
    ensures { IfOk result (λ r. r ≡ refusal_status (parts_shown head.now)) }
{
    if head.headers.len() > 64 {
        return Ok(Some(431));
    }
    if !is_target(head.target.as_bytes()) {
        return Ok(Some(400));
    }
    let lacks_host = lacks_host(alloc, head)?;
    if lacks_host {
        return Ok(Some(400));
    }
    let has_coding = has_coding(alloc, head)?;
    if has_coding {
        return Ok(Some(501));
    }
    let length = stated_length_of(alloc, head)?;
    match length {
        Some(length) => body_refusal(alloc, head, length),
        None => Ok(Some(400)),
    }
}

fn lacks_host(alloc: Global, head: &Head) -> Result<bool, Memory>
    ensures { IfOk result (λ r. r ≡ lacks_host (parts_shown head.now)) }
{
    let hosts = values_of(alloc, head, b"host")?;
    Ok(head.minor == 1 && hosts.len() != 1)
}

fn has_coding(alloc: Global, head: &Head) -> Result<bool, Memory>
    ensures { IfOk result (λ r. r ≡ has_coding (parts_shown head.now)) }
{
    let codings = values_of(alloc, head, b"transfer-encoding")?;
    Ok(codings.len() > 0)
}

/// The length that the head states, or 65,537 if that is more.
pub(crate) fn stated_length_of(alloc: Global, head: &Head) -> Result<Option<usize>, Memory>
    ensures { IfOk result (λ r. r ≡ option_map (min 65537)
        (stated_length_of (parts_shown head.now))) }
{
    let lengths = values_of(alloc, head, b"content-length")?;
    Ok(stated_length(lengths.as_slice()))
}

fn body_refusal(alloc: Global, head: &Head, length: usize) -> Result<Option<u16>, Memory>
    requires { option_map (min 65537) (stated_length_of (parts_shown head.now)) ≡ Some length }
    ensures { IfOk result
        (λ r. r ≡ first_status ((nat_lt 65536 (body_length (parts_shown head.now)), 413)
        ∷ (posts_no_form (parts_shown head.now), 415) ∷ [])) }
{
    if length > 65_536 {
        return Ok(Some(413));
    }
    let no_form = posts_no_form(alloc, head, length)?;
    Ok(if no_form { Some(415) } else { None })
}

fn posts_no_form(alloc: Global, head: &Head, length: usize) -> Result<bool, Memory>
    requires { option_map (min 65537) (stated_length_of (parts_shown head.now)) ≡ Some length }
    ensures { IfOk result (λ r. r ≡ posts_no_form (parts_shown head.now)) }
{
    let types = values_of(alloc, head, b"content-type")?;
    Ok(head.method == "POST" && length > 0 && has_no_form(types.as_slice()))
}
