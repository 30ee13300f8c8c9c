ghost use Rattle.std.specs.Prelude.{◌≡◌, ◌==◌, ◌||◌, ◌≤◌, length, codes, IfSome};
ghost use Rattle.std.specs.List.{ends_with};
ghost use Rattle.std.specs.Option.{option_copied};
ghost use Rattle.jac_http.specs.Heads.{is_written, head_in};

/// The bytes up to and including their first blank line.
pub(crate) fn head_in(bytes: &[u8]) -> Option<&[u8]>
    ensures head { option_copied result ≡ head_in bytes.now }
    ensures within { IfSome result (λ head. length head.now ≤ length bytes.now) }
{
    let mut written = false;
    'bytes: for at in 0..bytes.len() {
        let front = &bytes[..at + 1];
        written = written || is_written(bytes[at]);
        if written && has_blank_end(front) {
            return Some(front);
        }
    }
    None
}

fn is_written(byte: u8) -> bool
    ensures { result ≡ is_written byte }
{
    !(byte == b'\r' || byte == b'\n')
}

fn has_blank_end(front: &[u8]) -> bool
    ensures { result ≡ (ends_with ◌==◌ front.now (codes "\n\n") || ends_with ◌==◌ front.now
        (codes "\n\r\n")) }
{
    front.ends_with(b"\n\n") || front.ends_with(b"\n\r\n")
}
