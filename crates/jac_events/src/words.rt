ghost use Rattle.std.specs.Prelude.{◌≡◌, ◌==◌, ◌<◌, IfSome, length, position};
ghost use Rattle.std.specs.Option.{option_map};
ghost use Rattle.jac_events.specs.Words.{word_at, after_byte};

/// The word before the first space, and what follows that space.
pub fn word(bytes: &[u8]) -> Option<(&[u8], &[u8])>
    ensures { option_map (λ p. (p.0.now, p.1.now)) result ≡ word_at bytes.now }
{
    match space(bytes) {
        Some(at) => Some((&bytes[..at], &bytes[at + 1..])),
        None => None,
    }
}

fn space(bytes: &[u8]) -> Option<usize>
    ensures place { result ≡ position (λ b. b == 32) bytes.now }
    ensures within { IfSome result (λ at. at < length bytes.now) }
{
    bytes.iter().position(|byte| *byte == b' ')
}

/// What follows this byte, if it comes first.
pub fn behind(bytes: &[u8], byte: u8) -> Option<&[u8]>
    ensures { option_map (λ rest. rest.now) result ≡ after_byte byte bytes.now }
{
    match bytes.split_first() {
        Some((first, rest)) => if *first == byte { Some(rest) } else { None },
        None => None,
    }
}
