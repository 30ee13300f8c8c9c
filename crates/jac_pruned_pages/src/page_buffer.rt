//! The page of a run so far, in place of its pieces.
ghost use Rattle.std.specs.Prelude.{◌≡◌, [], IfOk, OnOk};
ghost use Rattle.jac_value.specs.Values.{value_text};
ghost use Rattle.jac_plain.specs.declared.page.Piece.TheVariants as piece;
ghost use Rattle.jac_plain.specs.Expressions.{bytes_of};
ghost use Rattle.jac_plain.specs.Pieces.{piece_of};
ghost use Rattle.jac_value.specs.Html.{html};
ghost use Rattle.jac_pruned_pages.specs.Buffers.{buffer_for, buffer_of, page_in, buffer_with};

use crate::value_bytes::{add_escaped, add_text};
use jac_plain::{Form, Page, make_page};
use jac_value::{Bytes, Memory, Txt, Value};
use std::alloc::Global;

/// The bytes of a page, whether the page is missing, and where it redirects to.
#[derive(Drop)]
pub(crate) struct PageBuffer {
    pub body: Vec<u8>,
    pub is_missing: bool,
    pub to: Option<Txt>,
}

impl PageBuffer {
    pub fn empty(alloc: Global) -> PageBuffer
        ensures { buffer_of result ≡ buffer_for [] }
    {
        PageBuffer {
            body: Vec::new(alloc),
            is_missing: false,
            to: None,
        }
    }

    /// Adds bytes as they are.
    pub fn add_bytes(&mut self, bytes: &[u8]) -> Result<(), Memory>
        ensures { OnOk result (buffer_of self.new ≡ buffer_with (piece.Added bytes.now)
            (buffer_of self.old)) }
    {
        self.body.extend_from_slice(bytes)?;
        Ok(())
    }

    /// Adds the text of the value.
    pub fn add_text(&mut self, alloc: Global, value: &Value) -> Result<(), Memory>
        ensures { OnOk result (buffer_of self.new ≡ buffer_with
            (piece.Added (value_text value.now)) (buffer_of self.old)) }
    {
        add_text(alloc, &mut self.body, value)
    }

    /// Adds the text of the value, escaped for HTML.
    pub fn add_escaped(&mut self, alloc: Global, value: &Value) -> Result<(), Memory>
        ensures { OnOk result (buffer_of self.new ≡ buffer_with
            (piece.Added (html (value_text value.now))) (buffer_of self.old)) }
    {
        add_escaped(alloc, &mut self.body, value)
    }

    /// Adds the value in this form.
    pub fn add(&mut self, alloc: Global, form: Form, value: &Value) -> Result<(), Memory>
        ensures { OnOk result (buffer_of self.new ≡ buffer_with (piece_of form value.now)
            (buffer_of self.old)) }
    {
        match form {
            Form::Text => self.add_text(alloc, value),
            Form::Escaped => self.add_escaped(alloc, value),
            Form::Location => {
                let value = value.copy(alloc)?;
                self.lead_to(alloc, value);
                Ok(())
            }
        }
    }

    /// Marks the page as missing.
    pub fn set_missing(&mut self)
        ensures { buffer_of self.new ≡ buffer_with piece.Missing (buffer_of self.old) }
    {
        self.is_missing = true;
    }

    /// Redirects to the value's text. A value that isn't a text gives the empty text.
    pub fn lead_to(&mut self, alloc: Global, value: Value)
        ensures { buffer_of self.new ≡ buffer_with (piece.Redirect (bytes_of value))
            (buffer_of self.old) }
    {
        self.to = Some(text_in(alloc, value));
    }

    pub fn into_page(self, alloc: Global) -> Result<Page, Memory>
        ensures { IfOk result (λ p. p ≡ page_in (buffer_of self)) }
    {
        let PageBuffer {
            body,
            is_missing,
            to,
        } = self;
        let page = make_page(alloc, is_missing, to.as_ref(), Bytes::from_vec(body))?;
        Ok(page)
    }
}

fn text_in(alloc: Global, value: Value) -> Txt
    ensures { result ≡ bytes_of value }
{
    match value {
        Value::Text(text) => text,
        _ => Txt::empty(alloc),
    }
}
