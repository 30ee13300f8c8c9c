ghost use Rattle.std.specs.Prelude.{◌≡◌, ◌^◌};
ghost use Rattle.jac_value.specs.Visitors.{is_session_token, number_below, viewer_read};

use crate::{are_atom_bytes, are_digits, decimal};

/// Whether the bytes are a session's token: 1 to 128 ASCII letters, digits, `-` and `_`.
pub fn is_session_token(word: &[u8]) -> bool
    ensures { result ≡ is_session_token word.now }
{
    !word.is_empty() && word.len() <= 128 && are_atom_bytes(word)
}

/// The number that 1 to `most` decimal digits write, if it is below 2^128.
pub fn number_of_digits(word: &[u8], most: usize) -> Option<u128>
    ensures { result ≡ number_below most (2 ^ 128) word.now }
{
    if word.is_empty() || word.len() > most || !are_digits(word) {
        None
    } else {
        decimal(word)
    }
}

/// The viewer that the bytes write: `-` for nobody, or a number below 2^128 in 1 to 39 decimal
/// digits.
pub fn read_viewer(word: &[u8]) -> Option<Option<u128>>
    ensures { result ≡ viewer_read word.now }
{
    if word == b"-".as_slice() {
        Some(None)
    } else {
        number_of_digits(word, 39).map(Some)
    }
}
