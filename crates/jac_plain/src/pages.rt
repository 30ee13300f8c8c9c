//! The page that the pieces of a run make.
ghost use Rattle.std.specs.Prelude.{◌≡◌, ◌++◌, ◌∷◌, [], None, IfOk, OnOk};
ghost use Rattle.std.specs.Option.{option_copied, option_map};
ghost use Rattle.jac_plain.specs.Requests.{location, body_of, is_missing, redirect_of, found_page, page_by, page_of as page_made};

use crate::{Page, Piece};
use jac_value::{Bytes, Memory, Txt};
use percent_encoding::{AsciiSet, CONTROLS, ascii_set, percent_encode};
use std::alloc::Global;

// The ASCII characters that are escaped in a location.
const ESCAPED: AsciiSet = ascii_set!(CONTROLS.add(b' '));

/// The page of the pieces.
pub fn page_of(alloc: Global, pieces: &[Piece]) -> Result<Page, Memory>
    ensures { IfOk result (λ p. p ≡ page_made pieces.now) }
{
    let body = join_body(alloc, pieces)?;
    let page = make_page(alloc, has_missing(pieces), last_redirect(pieces), body)?;
    Ok(page)
}

/// The page with this body. Its status is 404 if `is_missing`. Otherwise it is 303 if there is a
/// redirect, and 200 if there is none.
pub fn make_page(
    alloc: Global,
    is_missing: bool,
    to: Option<&Txt>,
    body: Bytes,
) -> Result<Page, Memory>
    ensures { IfOk result (λ p. p ≡ page_by is_missing (option_map location
        (option_copied to.entry)) body) }
{
    if is_missing {
        return Ok(Page {
            status: 404,
            location: None,
            body,
        });
    }
    let page = found(alloc, to, body)?;
    Ok(page)
}

fn found(alloc: Global, to: Option<&Txt>, body: Bytes) -> Result<Page, Memory>
    ensures { IfOk result (λ p. p ≡ found_page (option_map location (option_copied to.entry))
        body) }
{
    match to {
        None => Ok(Page {
            status: 200,
            location: None,
            body,
        }),
        Some(to) => {
            let to = escape(alloc, to.as_bytes())?;
            Ok(Page {
                status: 303,
                location: Some(to),
                body,
            })
        }
    }
}

fn join_body(alloc: Global, pieces: &[Piece]) -> Result<Bytes, Memory>
    ensures { IfOk result (λ b. b ≡ body_of pieces.now) }
{
    let mut body = Vec::new(alloc);
    'pieces: for piece in pieces {
        add_bytes(&mut body, piece)?;
    }
    Ok(Bytes::from_vec(body))
}

fn add_bytes(body: &mut Vec<u8>, piece: &Piece) -> Result<(), Memory>
    ensures { OnOk result (body.new.items ≡ body.old.items ++ body_of (piece.now ∷ [])) }
{
    if let Piece::Added(bytes) = piece {
        body.extend_from_slice(bytes.as_slice())?;
    }
    Ok(())
}

fn has_missing(pieces: &[Piece]) -> bool
    ensures { result ≡ is_missing pieces.now }
{
    'pieces: for piece in pieces {
        if says_missing(piece) {
            return true;
        }
    }
    false
}

fn says_missing(piece: &Piece) -> bool
    ensures { result ≡ is_missing (piece.now ∷ []) }
{
    matches!(piece, Piece::Missing)
}

fn last_redirect(pieces: &[Piece]) -> Option<&Txt>
    ensures { option_map location (option_copied result) ≡ redirect_of None pieces.now }
{
    let mut last = None;
    'pieces: for piece in pieces {
        last = redirect_after(last, piece);
    }
    last
}

// The redirect of this piece, or the last one before it.
fn redirect_after<'p>(last: Option<&'p Txt>, piece: &'p Piece) -> Option<&'p Txt>
    ensures { option_map location (option_copied result) ≡ redirect_of
        (option_map location (option_copied last.entry)) (piece.now ∷ []) }
{
    match piece {
        Piece::Redirect(to) => Some(to),
        _ => last,
    }
}

fn escape(alloc: Global, to: &[u8]) -> Result<Txt, Memory>
    ensures { IfOk result (λ t. t ≡ location to.now) }
{
    let mut text = String::new(alloc);
    percent_encode(to, ESCAPED).append_to(&mut text)?;
    Ok(Txt::from_string(text))
}
