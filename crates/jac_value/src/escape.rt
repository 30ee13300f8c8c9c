ghost use Rattle.std.specs.Prelude.{◌≡◌, ◌<◌, IfOk, OnOk, ◌++◌, ◌∷◌, []};
ghost use Rattle.std.specs.String.{string_bytes};
ghost use Rattle.jac_value.specs.Quoted.{quoted_bytes, escaped_byte, hex_escape, hex_digit};

use crate::{Memory, Txt};
use std::alloc::Global;

/// The bytes in quotes, escaped for a line of output. LF, CR, backslash and quote have short
/// escapes. Every other byte below 0x20 or above 0x7E is `\xHH`, in lower case.
pub fn escape_line(alloc: Global, bytes: &[u8]) -> Result<Txt, Memory>
    ensures { IfOk result (λ t. t ≡ quoted_bytes bytes.now) }
{
    let mut text = String::new(alloc);
    text.push('"')?;
    'bytes: for byte in bytes {
        push_escaped(&mut text, *byte)?;
    }
    text.push('"')?;
    Ok(Txt::from_string(text))
}

fn push_escaped(text: &mut String, byte: u8) -> Result<(), Memory>
    ensures { OnOk result (string_bytes text.new ≡ string_bytes text.old ++ escaped_byte byte) }
{
    match byte {
        b'\n' => text.push_str("\\n")?,
        b'\r' => text.push_str("\\r")?,
        b'\\' => text.push_str("\\\\")?,
        b'"' => text.push_str("\\\"")?,
        0x20..=0x7E => text.push(char::from(byte))?,
        _ => push_hex(text, byte)?,
    }
    Ok(())
}

fn push_hex(text: &mut String, byte: u8) -> Result<(), Memory>
    ensures { OnOk result (string_bytes text.new ≡ string_bytes text.old ++ hex_escape byte) }
{
    text.push_str("\\x")?;
    push_digit(text, byte / 16)?;
    push_digit(text, byte % 16)?;
    Ok(())
}

fn push_digit(text: &mut String, digit: u8) -> Result<(), Memory>
    requires { digit < 16 }
    ensures { OnOk result (string_bytes text.new ≡ string_bytes text.old ++ hex_digit digit ∷ []) }
{
    let code = if digit < 10 {
        b'0' + digit
    } else {
        b'a' - 10 + digit
    };
    text.push(char::from(code))?;
    Ok(())
}
