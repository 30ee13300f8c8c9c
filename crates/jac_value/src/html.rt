ghost use Rattle.std.specs.Prelude.{◌≡◌, ◌++◌, IfOk, OnOk};
ghost use Rattle.jac_value.specs.Html.{html_byte, html};

use crate::{Bytes, Memory};
use std::alloc::Global;

/// The text, escaped for HTML: `&`, `<`, `>` and the quotes `"` and `'` are escaped, and every
/// other byte stays as it is.
pub fn escape_html(alloc: Global, text: &[u8]) -> Result<Bytes, Memory>
    ensures { IfOk result (λ b. b ≡ html text.now) }
{
    let mut escaped = Vec::new(alloc);
    add_html(&mut escaped, text)?;
    Ok(Bytes::from_vec(escaped))
}

/// Appends the text, escaped for HTML, to the bytes of a page.
pub fn add_html(page: &mut Vec<u8>, text: &[u8]) -> Result<(), Memory>
    ensures { OnOk result (page.new.items ≡ page.old.items ++ html text.now) }
{
    'bytes: for byte in text {
        add_escaped(page, *byte)?;
    }
    Ok(())
}

fn add_escaped(page: &mut Vec<u8>, byte: u8) -> Result<(), Memory>
    ensures { OnOk result (page.new.items ≡ page.old.items ++ html_byte byte) }
{
    match byte {
        b'&' => page.extend_from_slice(b"&amp;")?,
        b'<' => page.extend_from_slice(b"&lt;")?,
        b'>' => page.extend_from_slice(b"&gt;")?,
        b'"' => page.extend_from_slice(b"&quot;")?,
        b'\'' => page.extend_from_slice(b"&#39;")?,
        _ => page.push(byte)?,
    }
    Ok(())
}
