//! The fixed replies, as RFC 9112 and RFC 9110 define them.
use jac_http::{Fixed, fixed_reply};

const MEMORY: &[u8] =
    b"HTTP/1.1 500 Internal Server Error\r\nContent-Type: text/plain; charset=utf-8\r\nContent-Length: 26\r\nConnection: close\r\n\r\n500 Internal Server Error\n";

// The reply to a HEAD has the length of the body that it leaves out.
const KEEPER: &[u8] =
    b"HTTP/1.1 503 Service Unavailable\r\nContent-Type: text/plain; charset=utf-8\r\nContent-Length: 24\r\nConnection: close\r\n\r\n";

#[test]
fn replies_stand_ready(rt: HostRuntime) {
    assert!(rt; fixed_reply(Fixed::Memory500, false) == MEMORY);
    assert!(rt; fixed_reply(Fixed::Keeper503, true) == KEEPER);
}
