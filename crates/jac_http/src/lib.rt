//! HTTP: the request at the front of a connection's bytes (RFC 9112), and the bytes of a reply.
#![tactic(auto)]

mod blank;
mod head;
mod headers;
mod laws;
mod refusal;
mod reply;
mod take;
mod taken;
mod target;
mod values;
mod words;

pub use laws::{all_bytes_are_read, any_cutting_is_read, beginnings_are_read, requests_are_read};
pub use reply::{Fixed, fixed_reply, write_reply};
pub use take::take_request;
pub use taken::{Request, Taken};
