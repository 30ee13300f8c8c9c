ghost use Rattle.std.specs.Prelude.{◌≡◌, ◌<◌, ◌^◌, nat_lt, true, if◌then◌else◌, Some, None, length};
ghost use Rattle.std.specs.Char.{is_ascii_digit};
ghost use Rattle.std.specs.List.{list_all};
ghost use Rattle.std.specs.Str.Parse.{digits_value};

use std::str::from_utf8;

/// Whether all bytes are decimal digits.
pub fn are_digits(word: &[u8]) -> bool
    ensures { result ≡ list_all is_ascii_digit word.now }
{
    word.iter().all(|byte| byte.is_ascii_digit())
}

/// The number that decimal digits write, if it is below 2^128.
pub fn decimal(word: &[u8]) -> Option<u128>
    requires some { 0 < length word.now }
    requires digits { list_all is_ascii_digit word.now ≡ true }
    ensures { result ≡ (if nat_lt (digits_value 10 word.now) (2 ^ 128)
        then Some (digits_value 10 word.now) else None) }
{
    match from_utf8(word) {
        Ok(text) => match text.parse::<u128>() {
            Ok(number) => Some(number),
            Err(_) => None,
        },
        Err(_) => unreachable!(),
    }
}
