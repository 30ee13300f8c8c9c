ghost use Rattle.std.specs.Prelude.{◌≡◌, ◌≤◌, ◌*◌, ◌+◌, All, map, length, IsUtf8, IfOk, IfSome, IfNone};
ghost use Rattle.httparse.specs.Grammar.{RequestHead};
ghost use Rattle.httparse.specs.Spans.{IsHeaderWithin, IsRequestWithin, IsRequestAt, header_bytes, span_bytes};
ghost use Rattle.jac_http.specs.Heads.{parts_of};
ghost use Rattle.jac_http.specs.Parts.{values_of};
ghost use Rattle.jac_http.specs.Requests.{IsHead};
ghost use Rattle.jac_http.specs.Shown.{parts_shown};

use crate::head::Head;
use crate::words::is_same_word;
use httparse::Status;
use httparse::spans::{EMPTY_HEADER_SPAN, HeaderSpan, RequestSpans, parse_request};
use std::alloc::{AllocError, Global};
use std::str::from_utf8;

/// Reads the bytes as a head. There is room for all headers, because each takes at least two bytes.
pub(crate) fn read_head(alloc: Global, bytes: &[u8]) -> Result<Option<Head<'_>>, AllocError>
    ensures some { IfOk result (λ o. IfSome o (λ h. (k : RequestHead) × IsHead bytes.now k
        × (parts_shown h ≡ parts_of k))) }
    ensures none { IfOk result (λ o. IfNone o ((k : RequestHead) → IsHead bytes.now k → ⊥)) }
{
    let mut headers = vec![in alloc; EMPTY_HEADER_SPAN; bytes.len() / 2]?;
    match whole_head(bytes, headers.as_mut_slice()) {
        Some(spans) => Ok(Some(head_at(bytes, &spans, headers))),
        None => Ok(None),
    }
}

fn whole_head(bytes: &[u8], headers: &mut [HeaderSpan]) -> Option<RequestSpans>
    requires room { length bytes.now ≤ 2 * length headers.old + 1 }
    ensures within { IfSome result (IsRequestWithin bytes.now headers.new) }
    ensures texts { IfSome result (λ r. IsUtf8 (span_bytes bytes.now r.method)
        × IsUtf8 (span_bytes bytes.now r.path)) }
    ensures some { IfSome result (λ r. (k : RequestHead) × IsHead bytes.now k
        × IsRequestAt bytes.now headers.new r k) }
    ensures none { IfNone result ((k : RequestHead) → IsHead bytes.now k → ⊥) }
{
    match parse_request(bytes, headers) {
        Ok(Status::Complete(head)) => if head.len == bytes.len() {
            Some(head)
        } else {
            None
        },
        _ => None,
    }
}

fn head_at<'b>(bytes: &'b [u8], spans: &RequestSpans, headers: Vec<HeaderSpan>) -> Head<'b>
    requires within { IsRequestWithin bytes.now headers.items spans.now }
    requires method { IsUtf8 (span_bytes bytes.now spans.now.method) }
    requires target { IsUtf8 (span_bytes bytes.now spans.now.path) }
    ensures { (k : RequestHead) → IsRequestAt bytes.now headers.items spans.now k
        → parts_shown result ≡ parts_of k }
{
    let method = from_utf8(spans.method.of(bytes)).unwrap();
    let target = from_utf8(spans.path.of(bytes)).unwrap();
    let mut headers = headers;
    headers.truncate(spans.headers);
    Head {
        bytes,
        method,
        target,
        minor: spans.version,
        headers,
    }
}

/// The values of the headers with this name, in order.
pub(crate) fn values_of<'b>(
    alloc: Global,
    head: &Head<'b>,
    name: &[u8],
) -> Result<Vec<&'b [u8]>, AllocError>
    ensures { IfOk result (λ vs. map (λ v. v.now) vs.items ≡ values_of name.now
        (parts_shown head.now).headers) }
{
    values_in(alloc, head.bytes, head.headers.as_slice(), name)
}

fn values_in<'b>(
    alloc: Global,
    bytes: &'b [u8],
    headers: &[HeaderSpan],
    name: &[u8],
) -> Result<Vec<&'b [u8]>, AllocError>
    requires { All (IsHeaderWithin (length bytes.now)) headers.now }
    ensures { IfOk result (λ vs. map (λ v. v.now) vs.items ≡ values_of name.now
        (map (header_bytes bytes.now) headers.now)) }
{
    let mut values = Vec::new(alloc);
    'headers: for header in headers {
        if is_same_word(header.name.of(bytes), name) {
            values.push(header.value.of(bytes))?;
        }
    }
    Ok(values)
}
