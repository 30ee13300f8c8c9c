//! The place in a connection's input, between two requests or within one (RFC 9112, section 6). It
//! decides only how long the host waits for more bytes. The crates above parse the requests.

// The name of the field with the body's length, with its colon.
const LENGTH: [u8; 15] = *b"content-length:";

// A request with a longer body is refused after its head.
const LONGEST: u64 = 65_536;

/// The place that the bytes of a connection have reached.
#[derive(Clone, Copy, PartialEq, Eq)]
pub(crate) enum Spot {
    /// After a whole request, or before the first.
    Between,
    /// In a line of a head. The line so far is the first `matched` bytes of `LENGTH`.
    Name { matched: usize, body: u64 },
    /// In the line of a head that gives the body's length.
    Length { body: u64 },
    /// In another line of a head.
    Line { body: u64 },
    /// In a body that has `left` more bytes to come.
    Body { left: u64 },
}

impl Spot {
    /// Whether the head has ended and the body hasn't.
    pub(crate) fn is_in_body(self) -> bool {
        matches!(self, Spot::Body { .. })
    }
}

/// The place after these further bytes.
pub(crate) fn spot_behind(spot: Spot, bytes: &[u8]) -> Spot {
    let mut spot = spot;
    'bytes: for byte in bytes {
        spot = next_spot(spot, *byte);
    }
    spot
}

/// Whether a request ends within these further bytes, or one begins with a body that is too long to
/// be accepted.
pub(crate) fn ends_request(spot: &mut Spot, bytes: &[u8]) -> bool {
    let mut ends = false;
    'bytes: for byte in bytes {
        let next = next_spot(*spot, *byte);
        match next {
            Spot::Between if *spot != Spot::Between => ends = true,
            Spot::Body { left } if left > LONGEST => ends = true,
            _ => {}
        }
        *spot = next;
    }
    ends
}

// The place after one more byte. Empty lines before a request belong to no request.
fn next_spot(spot: Spot, byte: u8) -> Spot {
    match (spot, byte) {
        (Spot::Between, b'\r' | b'\n') => Spot::Between,
        (Spot::Between, _) => Spot::Line { body: 0 },
        (Spot::Name { matched: 0, body }, b'\n') => behind_head(body),
        (Spot::Name { matched: 0, body }, b'\r') => Spot::Name { matched: 0, body },
        (Spot::Name { body, .. } | Spot::Length { body } | Spot::Line { body }, b'\n') => {
            Spot::Name { matched: 0, body }
        }
        (Spot::Name { matched, body }, _) => behind_letter(matched, body, byte),
        (Spot::Length { body }, b'0'..=b'9') => Spot::Length {
            body: body
                .saturating_mul(10)
                .saturating_add(u64::from(byte - b'0')),
        },
        (Spot::Length { body }, _) => Spot::Length { body },
        (Spot::Line { body }, _) => Spot::Line { body },
        (Spot::Body { left }, _) => behind_head(left.saturating_sub(1)),
    }
}

// The place before a body of `left` bytes.
fn behind_head(left: u64) -> Spot {
    if left == 0 {
        Spot::Between
    } else {
        Spot::Body { left }
    }
}

// The place after a letter of a line that matches `LENGTH` so far.
fn behind_letter(matched: usize, body: u64, byte: u8) -> Spot {
    let letter = byte.to_ascii_lowercase();
    match LENGTH.get(matched) {
        Some(wanted) if *wanted == letter => behind_match(matched + 1, body),
        _ => Spot::Line { body },
    }
}

// The place in a line of which `matched` bytes are those of `LENGTH`.
fn behind_match(matched: usize, body: u64) -> Spot {
    if matched == LENGTH.len() {
        Spot::Length { body: 0 }
    } else {
        Spot::Name { matched, body }
    }
}
