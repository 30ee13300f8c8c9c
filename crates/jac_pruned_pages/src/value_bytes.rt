//! The bytes of a value on a page. Numbers are written without allocating memory for them.
ghost use Rattle.std.specs.Fmt.{decimal, signed_decimal};
ghost use Rattle.std.specs.Prelude.{◌≡◌, ◌∷◌, [], ◌++◌, true, OnOk};
ghost use Rattle.jac_value.specs.Html.{html, html_byte};
ghost use Rattle.jac_value.specs.Values.{value_text};

use itoa::Buffer;
use jac_value::{Memory, Value, add_html};
use std::alloc::Global;

/// Adds the text of the value.
pub(crate) fn add_text(alloc: Global, body: &mut Vec<u8>, value: &Value) -> Result<(), Memory>
    ensures { OnOk result (body.new.items ≡ body.old.items ++ value_text value.now) }
{
    match value {
        Value::Text(text) => body.extend_from_slice(text.as_bytes())?,
        Value::Int(number) => add_int(body, *number)?,
        Value::Ref(Some(id)) => add_number(body, id.0)?,
        _ => jac_plain::add_text(alloc, body, value)?,
    }
    Ok(())
}

/// Adds the text of the value, escaped for HTML.
pub(crate) fn add_escaped(alloc: Global, body: &mut Vec<u8>, value: &Value) -> Result<(), Memory>
    ensures { OnOk result (body.new.items ≡ body.old.items ++ html (value_text value.now)) }
{
    match value {
        Value::Text(text) => add_shown(body, text.as_bytes()),
        Value::Int(number) => escape_int(body, *number),
        Value::Ref(Some(id)) => escape_number(body, id.0),
        _ => jac_plain::add_escaped(alloc, body, value),
    }
}

fn add_int(body: &mut Vec<u8>, number: i64) -> Result<(), Memory>
    ensures { OnOk result (body.new.items ≡ body.old.items ++ signed_decimal number) }
{
    let mut digits = Buffer::new();
    body.extend_from_slice(digits.format(number).as_bytes())?;
    Ok(())
}

fn add_number(body: &mut Vec<u8>, number: u128) -> Result<(), Memory>
    ensures { OnOk result (body.new.items ≡ body.old.items ++ decimal number) }
{
    let mut digits = Buffer::new();
    body.extend_from_slice(digits.format(number).as_bytes())?;
    Ok(())
}

fn escape_int(body: &mut Vec<u8>, number: i64) -> Result<(), Memory>
    ensures { OnOk result (body.new.items ≡ body.old.items ++ html (signed_decimal number)) }
{
    let mut digits = Buffer::new();
    add_shown(body, digits.format(number).as_bytes())
}

fn escape_number(body: &mut Vec<u8>, number: u128) -> Result<(), Memory>
    ensures { OnOk result (body.new.items ≡ body.old.items ++ html (decimal number)) }
{
    let mut digits = Buffer::new();
    add_shown(body, digits.format(number).as_bytes())
}

// Adds the bytes, escaped for HTML. If no byte needs an escape, they are added all at once.
fn add_shown(body: &mut Vec<u8>, text: &[u8]) -> Result<(), Memory>
    ensures { OnOk result (body.new.items ≡ body.old.items ++ html text.now) }
{
    if are_plain(text) {
        body.extend_from_slice(text)?;
        return Ok(());
    }
    add_html(body, text)
}

// Whether no byte needs an escape in HTML.
fn are_plain(text: &[u8]) -> bool
    ensures { result ≡ true → html text.now ≡ text.now }
{
    'bytes: for byte in text {
        if !is_plain(*byte) {
            return false;
        }
    }
    true
}

fn is_plain(byte: u8) -> bool
    ensures { result ≡ true → html_byte byte ≡ byte ∷ [] }
{
    match byte {
        b'&' => false,
        b'<' => false,
        b'>' => false,
        b'"' => false,
        b'\'' => false,
        _ => true,
    }
}
