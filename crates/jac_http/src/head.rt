ghost use Rattle.std.specs.Prelude.{All, length};
ghost use Rattle.httparse.specs.Spans.{IsHeaderWithin};

use httparse::spans::HeaderSpan;

/// The head of a request. Its headers are spans of its bytes.
#[derive(Drop)]
pub(crate) struct Head<'b> {
    pub bytes: &'b [u8],
    pub method: &'b str,
    pub target: &'b str,
    pub minor: u8,
    pub headers: Vec<HeaderSpan>,
    ghost within: { All (IsHeaderWithin (length bytes.now)) headers.items },
}
