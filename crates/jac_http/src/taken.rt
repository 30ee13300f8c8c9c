use jac_value::{Bytes, Txt};

/// A request as views see it. The query follows the first `?` of the target, and isn't decoded.
#[derive(Drop)]
pub struct Request {
    pub method: Txt,
    pub path: Txt,
    pub query: Bytes,
    pub body: Bytes,
    /// The token of the session, if a cookie has one.
    pub token: Option<Txt>,
    /// The connection is closed after the reply.
    pub close: bool,
}

/// What is at the front of a connection's bytes.
#[derive(Drop)]
pub enum Taken {
    /// The beginning of a request: more bytes are needed.
    More,
    /// A request, and the number of its bytes.
    Whole { request: Request, used: usize },
    /// Bytes that are no request, or a request that isn't served.
    Refused { status: u16 },
}
