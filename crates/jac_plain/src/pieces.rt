//! Pieces of a page, in one world.
ghost use Rattle.std.specs.Prelude.{◌≡◌, ◌++◌, IfOk, OnOk};
ghost use Rattle.jac_value.specs.Html.{html};
ghost use Rattle.jac_value.specs.Values.{value_text};
ghost use Rattle.jac_plain.specs.Expressions.{bytes_of};
ghost use Rattle.jac_plain.specs.Pieces.{piece_of};

use crate::Piece;
use jac_value::{Bytes, Memory, Txt, Value, add_html, text_of};
use std::alloc::Global;

/// The form in which a value is added to a page.
#[derive(Clone, Copy)]
pub enum Form {
    Text,
    /// Escaped for HTML.
    Escaped,
    /// The location that the page redirects to.
    Location,
}

/// The piece that the value adds to a page.
pub fn make_piece(alloc: Global, value: &Value, form: Form) -> Result<Piece, Memory>
    ensures { IfOk result (λ p. p ≡ piece_of form value.now) }
{
    let mut body = Vec::new(alloc);
    match form {
        Form::Text => {
            add_text(alloc, &mut body, value)?;
            Ok(Piece::Added(Bytes::from_vec(body)))
        }
        Form::Escaped => {
            add_escaped(alloc, &mut body, value)?;
            Ok(Piece::Added(Bytes::from_vec(body)))
        }
        Form::Location => {
            let to = location_of(alloc, value)?;
            Ok(Piece::Redirect(to))
        }
    }
}

/// Adds the text of the value to the bytes of a page.
pub fn add_text(alloc: Global, body: &mut Vec<u8>, value: &Value) -> Result<(), Memory>
    ensures { OnOk result (body.new.items ≡ body.old.items ++ value_text value.now) }
{
    match value {
        Value::Text(text) => body.extend_from_slice(text.as_bytes())?,
        _ => {
            let text = text_of(alloc, value)?;
            body.extend_from_slice(text.as_bytes())?;
        }
    }
    Ok(())
}

/// Adds the text of the value, escaped for HTML, to the bytes of a page.
pub fn add_escaped(alloc: Global, body: &mut Vec<u8>, value: &Value) -> Result<(), Memory>
    ensures { OnOk result (body.new.items ≡ body.old.items ++ html (value_text value.now)) }
{
    match value {
        Value::Text(text) => add_html(body, text.as_bytes()),
        _ => {
            let text = text_of(alloc, value)?;
            add_html(body, text.as_bytes())
        }
    }
}

// The text. A value of another kind gives an empty one.
fn location_of(alloc: Global, value: &Value) -> Result<Txt, Memory>
    ensures { IfOk result (λ t. t ≡ bytes_of value.now) }
{
    match value {
        Value::Text(text) => {
            let to = text.copy(alloc)?;
            Ok(to)
        }
        _ => Ok(Txt::empty(alloc)),
    }
}
