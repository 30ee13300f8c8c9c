ghost use Rattle.std.specs.Prelude.{◌≡◌, ◌≤◌, ◌<◌, ◌/◌, ◌^◌, ◌&&◌, nat_le, ℕ, IfOk, IfErr};
ghost use Rattle.jac_row_codec.specs.Reading.{StopsBy, IsStopOfBytes, Numbers, IsNumber, Halfway};

use crate::stop::Stop;

// The number in the next `width` bytes, the most significant first, and the bytes after it. The
// number is from `low` to `high`.
pub(crate) fn number(bytes: &[u8], width: u32, low: u128, high: u128) -> Result<(u128, &[u8]), Stop>
    requires ordered { low ≤ high }
    requires wide { high < 256 ^ width }
    requires narrow { width ≤ 16 }
    ensures number { IfOk result (λ r. IsNumber low high width bytes.now r.0 r.1.now) }
    ensures stops { IfErr result (StopsBy (Numbers low high width) bytes.now) }
    ensures of_bytes { IfErr result IsStopOfBytes }
{
    let mut left = width;
    let mut value = 0u128;
    let mut rest = bytes;
    'bytes: while left > 0 {
        let Some((byte, after)) = rest.split_first() else {
            return Err(Stop::Left(0));
        };
        let next = value * 256 + u128::from(*byte);
        if !leads_between(next, left - 1, low, high) {
            return Err(Stop::Left(rest.len()));
        }
        left -= 1;
        value = next;
        rest = after;
    }
    Ok((value, rest))
}

// Whether a number from `low` to `high` begins with `value` and has `left` more bytes.
fn leads_between(value: u128, left: u32, low: u128, high: u128) -> bool
    requires { left < 16 }
    ensures { result ≡ (nat_le (low / 256 ^ left) value && nat_le value (high / 256 ^ left)) }
{
    without_last(low, left) <= value && value <= without_last(high, left)
}

// The number without its last `left` bytes.
#[tactic(auto, using(crate::proofs::Numbers::by_bytes))]
fn without_last(number: u128, left: u32) -> u128
    requires { left < 16 }
    ensures { result ≡ number / 256 ^ left }
{
    number >> (8 * left)
}
