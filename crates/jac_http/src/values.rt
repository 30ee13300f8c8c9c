ghost use Rattle.std.specs.Prelude.{◌≡◌, ◌==◌, ◌+◌, ◌*◌, ◌≤◌, min, map, if◌then◌else◌, Some, None, IfOk, IsTrue, codes};
ghost use Rattle.std.specs.Char.{is_ascii_digit, digit_value};
ghost use Rattle.std.specs.List.{list_any, list_all, before_first};
ghost use Rattle.std.specs.Str.{str_eq_ignore_ascii_case};
ghost use Rattle.std.specs.Option.{option_map, option_copied};
ghost use Rattle.std.specs.Str.Parse.{digits_value};
ghost use Rattle.jac_value.specs.Visitors.{is_session_token};
ghost use Rattle.jac_http.specs.Parts.{is_number, stated_length, is_no_form, has_no_form, is_closing, session_value, session_in, first_some, token_of, stripped_of_blanks};

use crate::words::{is_same_word, parts, place_of, trimmed};
use jac_value::{Memory, is_session_token};
use std::alloc::Global;

/// The length that the Content-Length headers state, or 65,537 if that is more. It is 0 if there is
/// no such header, and none if there are two or more, or if the value isn't a number.
pub(crate) fn stated_length(values: &[&[u8]]) -> Option<usize>
    ensures { result ≡ option_map (min 65537) (stated_length (map (λ v. v.now) values.now)) }
{
    match values {
        [] => Some(0),
        [value] => if is_number(value) {
            Some(number_in(value))
        } else {
            None
        },
        _ => None,
    }
}

fn is_number(value: &[u8]) -> bool
    ensures { result ≡ is_number value.now }
{
    !value.is_empty() && all_digits(value)
}

fn all_digits(value: &[u8]) -> bool
    ensures { result ≡ list_all is_ascii_digit value.now }
{
    value.iter().all(|byte| byte.is_ascii_digit())
}

// The number that the digits write, or 65,537 if that is more.
fn number_in(digits: &[u8]) -> usize
    requires { IsTrue (is_number digits.now) }
    ensures { result ≡ min 65537 (digits_value 10 digits.now) }
{
    let mut number = 0;
    'digits: for digit in digits {
        number = with_digit(number, *digit);
    }
    number
}

fn with_digit(number: usize, digit: u8) -> usize
    requires small { number ≤ 65537 }
    requires digit { IsTrue (is_ascii_digit digit) }
    ensures { result ≡ min 65537 (number * 10 + digit_value digit) }
{
    (number * 10 + (digit - b'0') as usize).min(65_537)
}

/// Whether the first Content-Type isn't that of a form.
pub(crate) fn has_no_form(values: &[&[u8]]) -> bool
    ensures { result ≡ has_no_form (map (λ v. v.now) values.now) }
{
    match values {
        [] => false,
        [value, ..] => is_no_form(value),
    }
}

fn is_no_form(value: &[u8]) -> bool
    ensures { result ≡ is_no_form value.now }
{
    !is_same_word(
        trimmed(before_parameters(value)),
        b"application/x-www-form-urlencoded",
    )
}

fn before_parameters(value: &[u8]) -> &[u8]
    ensures { result.now ≡ before_first (λ b. b == 59) value.now }
{
    match place_of(value, b';') {
        Some(at) => &value[..at],
        None => value,
    }
}

/// Whether a Connection header has the item `close`.
pub(crate) fn any_closing(alloc: Global, values: &[&[u8]]) -> Result<bool, Memory>
    ensures { IfOk result (λ r. r ≡ list_any is_closing (map (λ v. v.now) values.now)) }
{
    'values: for value in values {
        let closing = is_closing(alloc, value)?;
        if closing {
            return Ok(true);
        }
    }
    Ok(false)
}

fn is_closing(alloc: Global, value: &[u8]) -> Result<bool, Memory>
    ensures { IfOk result (λ r. r ≡ is_closing value.now) }
{
    let items = parts(alloc, value, b',')?;
    Ok(has_close(items.as_slice()))
}

fn has_close(items: &[&[u8]]) -> bool
    ensures { result ≡ list_any (λ item. str_eq_ignore_ascii_case (stripped_of_blanks item)
        (codes "close"))
        (map (λ v. v.now) items.now) }
{
    'items: for item in items {
        if is_same_word(trimmed(item), b"close") {
            return true;
        }
    }
    false
}

/// The token of the Cookie headers: the value of their first pair that is named `session`.
pub(crate) fn token_of<'v>(alloc: Global, cookies: &[&'v [u8]]) -> Result<Option<&'v [u8]>, Memory>
    ensures { IfOk result (λ o. option_copied o ≡ token_of (map (λ v. v.now) cookies.now)) }
{
    match first_session(alloc, cookies)? {
        Some(value) => Ok(token_in(value)),
        None => Ok(None),
    }
}

fn token_in(value: &[u8]) -> Option<&[u8]>
    ensures { option_copied result ≡ (if is_session_token value.now
        then Some value.now else None) }
{
    if is_session_token(value) {
        Some(value)
    } else {
        None
    }
}

fn first_session<'v>(alloc: Global, cookies: &[&'v [u8]]) -> Result<Option<&'v [u8]>, Memory>
    ensures { IfOk result (λ o. option_copied o ≡ first_some session_in
        (map (λ v. v.now) cookies.now)) }
{
    'cookies: for cookie in cookies {
        let session = session_in(alloc, cookie)?;
        if session.is_some() {
            return Ok(session);
        }
    }
    Ok(None)
}

fn session_in(alloc: Global, cookie: &[u8]) -> Result<Option<&[u8]>, Memory>
    ensures { IfOk result (λ o. option_copied o ≡ session_in cookie.now) }
{
    let pieces = parts(alloc, cookie, b';')?;
    Ok(session_among(pieces.as_slice()))
}

fn session_among<'v>(pieces: &[&'v [u8]]) -> Option<&'v [u8]>
    ensures { option_copied result ≡ first_some (λ piece. session_value (stripped_of_blanks piece))
        (map (λ v. v.now) pieces.now) }
{
    'pieces: for piece in pieces {
        let session = session_value(trimmed(piece));
        if session.is_some() {
            return session;
        }
    }
    None
}

fn session_value(piece: &[u8]) -> Option<&[u8]>
    ensures { option_copied result ≡ session_value piece.now }
{
    match place_of(piece, b'=') {
        Some(at) => if &piece[..at] == b"session".as_slice() {
            Some(&piece[at + 1..])
        } else {
            None
        },
        None => None,
    }
}
