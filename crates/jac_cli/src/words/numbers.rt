ghost use Rattle.std.specs.Prelude.{◌≡◌, ◌<◌, ◌&&◌, true, Some, None};
ghost use Rattle.jac_cli.specs.Words.{number_between, has_leading_zero, is_number_word, number_within};

use jac_value::{are_digits, decimal};

/// The number that decimal digits write, if it is neither below `least` nor above `most`.
pub(super) fn number_within(word: &[u8], least: u128, most: u128) -> Option<u128>
    ensures { result ≡ number_within least most word.now }
{
    if !is_number(word) {
        return None;
    }
    match decimal(word) {
        Some(number) => between(least, most, number),
        None => None,
    }
}

fn between(least: u128, most: u128, number: u128) -> Option<u128>
    ensures { result ≡ number_between least most number }
{
    if least <= number && number <= most {
        Some(number)
    } else {
        None
    }
}

fn is_number(word: &[u8]) -> bool
    ensures { result ≡ is_number_word word.now }
{
    !word.is_empty() && are_digits(word) && !has_leading_zero(word)
}

fn has_leading_zero(word: &[u8]) -> bool
    ensures { result ≡ has_leading_zero word.now }
{
    match word {
        [b'0', _, ..] => true,
        _ => false,
    }
}
