ghost use Rattle.std.specs.Prelude.{◌≡◌, ◌<◌, ◌^◌, nat_lt, if◌then◌else◌, Some, None};
ghost use Rattle.jac_events.specs.Lines.{conn_of};

use jac_value::number_of_digits;

/// The number of a connection.
pub fn conn_number(word: &[u8]) -> Option<u32>
    ensures { result ≡ conn_of word.now }
{
    match number_of_digits(word, 10) {
        Some(number) => small(number),
        None => None,
    }
}

fn small(number: u128) -> Option<u32>
    ensures { result ≡ (if nat_lt number (2 ^ 32) then Some number else None) }
{
    match u32::try_from(number) {
        Ok(small) => Some(small),
        Err(_) => None,
    }
}
