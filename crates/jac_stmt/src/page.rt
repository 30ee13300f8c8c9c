//! The page that the pieces of a run make.
ghost use Rattle.std.specs.Prelude.{◌≡◌, ◌++◌, ◌∷◌, [], if◌then◌else◌, IfOk, OnOk};
ghost use Rattle.jac_facet.specs.Leaves.{leaves_seen};
ghost use Rattle.jac_plain.specs.Requests.{page_of as page_made};
ghost use Rattle.jac_world.specs.World.{holds, shown_by};

use crate::Out;
use jac_plain::{Page, Piece};
use jac_value::Memory;
use jac_world::{Assignment, Guard};
use std::alloc::Global;

/// The page of the pieces that the assignment shows.
pub fn page_of(alloc: Global, out: Out, assignment: &Assignment) -> Result<Page, Memory>
    ensures { IfOk result (λ p. p ≡ page_made (leaves_seen (shown_by assignment.now) out)) }
{
    let pieces = shown_pieces(alloc, out, assignment)?;
    let page = jac_plain::page_of(alloc, pieces.as_slice())?;
    Ok(page)
}

fn shown_pieces(alloc: Global, out: Out, assignment: &Assignment) -> Result<Vec<Piece>, Memory>
    ensures { IfOk result (λ ps. ps.items ≡ leaves_seen (shown_by assignment.now) out) }
{
    let mut pieces = Vec::new(alloc);
    'pieces: for (guard, piece) in out.into_vec() {
        push_shown(&mut pieces, &guard, piece, assignment)?;
    }
    Ok(pieces)
}

fn push_shown(
    pieces: &mut Vec<Piece>,
    guard: &Guard,
    piece: Piece,
    assignment: &Assignment,
) -> Result<(), Memory>
    ensures { OnOk result (pieces.new.items ≡ pieces.old.items
        ++ (if holds (shown_by assignment.now) guard.now then piece ∷ [] else [])) }
{
    if guard.holds(assignment) {
        pieces.push(piece)?;
    }
    Ok(())
}
