//! What is sent if a request wasn't answered. It needs no memory.
ghost use Rattle.std.specs.Prelude.{◌≡◌, ◌++◌, ◌∷◌, [], true, false, ℕ, Option, None, List, codes, decimal};
ghost use Rattle.jac_value.specs.Quoted.{quoted_bytes};
ghost use Rattle.jac_http.specs.Replies.{reply_bytes, status_of_fixed};
ghost use Rattle.jac_replies.specs.Refused.{refusal};
ghost use Rattle.jac_replies.specs.Failed.{status_of_stop};
ghost use Rattle.jac_replies.specs.Spelled.{reply_text, viewer_text};

use crate::reply::is_head;
use itoa::Buffer;
use jac_http::Fixed;
use jac_keep::Stop;
use jac_value::Id;

/// The line of such a reply to an `ask` line.
pub fn failed_reply(stop: Stop, method: &[u8]) -> &'static [u8]
    ensures { result.now ≡ reply_text method.now (status_of_stop stop) None
        (refusal (status_of_stop stop) None).body }
{
    match stop {
        Stop::Keeper => {
            if is_head(method) {
                b"reply 503 \"\" \"\"\n"
            } else {
                b"reply 503 \"\" \"503 Service Unavailable\\n\"\n"
            }
        }
        Stop::Memory => {
            if is_head(method) {
                b"reply 500 \"\" \"\"\n"
            } else {
                b"reply 500 \"\" \"500 Internal Server Error\\n\"\n"
            }
        }
    }
}

/// What follows the number of a connection in the line of such a reply.
pub fn still_text(status: Fixed, head: bool) -> &'static [u8]
    ensures { result.now ≡ codes " " ++ quoted_bytes (reply_bytes
        (status_of_fixed status) None None []
        false head true) ++ 10 ∷ [] }
{
    match (status, head) {
        (Fixed::Memory500, true) => MEMORY_HEAD,
        (Fixed::Memory500, false) => MEMORY,
        (Fixed::Keeper503, true) => KEEPER_HEAD,
        (Fixed::Keeper503, false) => KEEPER,
    }
}

/// The status in an audit line, between the number of the reply and the viewer.
pub fn still_status(status: Fixed) -> &'static [u8]
    ensures { result.now ≡ codes " " ++ decimal (status_of_fixed status) ++ codes " " }
{
    match status {
        Fixed::Keeper503 => b" 503 ",
        Fixed::Memory500 => b" 500 ",
    }
}

pub fn fixed_of(stop: Stop) -> Fixed
    ensures { status_of_fixed result ≡ status_of_stop stop }
{
    match stop {
        Stop::Keeper => Fixed::Keeper503,
        Stop::Memory => Fixed::Memory500,
    }
}

pub fn viewer_bytes(buffer: &mut Buffer, viewer: Option<Id>) -> &[u8]
    ensures { result.now ≡ viewer_text viewer }
{
    match viewer {
        None => b"-",
        Some(id) => buffer.format(id.0).as_bytes(),
    }
}

const MEMORY_HEAD: &[u8] =
    b" \"HTTP/1.1 500 Internal Server Error\\r\\nContent-Type: text/plain; charset=utf-8\\r\\nContent-Length: 26\\r\\nConnection: close\\r\\n\\r\\n\"\n";

const MEMORY: &[u8] =
    b" \"HTTP/1.1 500 Internal Server Error\\r\\nContent-Type: text/plain; charset=utf-8\\r\\nContent-Length: 26\\r\\nConnection: close\\r\\n\\r\\n500 Internal Server Error\\n\"\n";

const KEEPER_HEAD: &[u8] =
    b" \"HTTP/1.1 503 Service Unavailable\\r\\nContent-Type: text/plain; charset=utf-8\\r\\nContent-Length: 24\\r\\nConnection: close\\r\\n\\r\\n\"\n";

const KEEPER: &[u8] =
    b" \"HTTP/1.1 503 Service Unavailable\\r\\nContent-Type: text/plain; charset=utf-8\\r\\nContent-Length: 24\\r\\nConnection: close\\r\\n\\r\\n503 Service Unavailable\\n\"\n";
