//! Pieces of a page, under the guards of the values that they show.
ghost use Rattle.std.specs.Prelude.{◌≡◌, [], ◌∷◌, ◌++◌, ℕ, Bool, if◌then◌else◌, map, IfOk, OnOk};
ghost use Rattle.jac_facet.specs.Leaves.{leaves_seen};
ghost use Rattle.jac_facet.specs.Shape.{at};
ghost use Rattle.jac_plain.specs.declared.page.Piece.TheVariants as piece;
ghost use Rattle.jac_world.specs.World.{holds};
ghost use Rattle.jac_plain.specs.Pieces.{piece_of};

use crate::Out;
use jac_facet::Facet;
use jac_plain::{Form, Piece, make_piece};
use jac_value::{Memory, Value};
use jac_world::Guard;
use std::alloc::Global;

/// Adds what the value shows, wherever the path condition holds.
pub(crate) fn add_value(
    alloc: Global,
    out: &mut Out,
    pc: &Guard,
    value: &Facet<Value>,
    form: Form,
) -> Result<(), Memory>
    ensures { OnOk result ((w : ℕ → Bool) → leaves_seen w out.new ≡ leaves_seen w out.old
        ++ (if holds w pc.now
        then piece_of form (at w value.now) ∷ [] else [])) }
{
    let leaves = value.leaves_under(alloc, pc)?;
    add_leaves(alloc, out, leaves.into_vec(), form)?;
    Ok(())
}

fn add_leaves(
    alloc: Global,
    out: &mut Out,
    leaves: Vec<(Guard, Value)>,
    form: Form,
) -> Result<(), Memory>
    ensures { OnOk result ((w : ℕ → Bool) → leaves_seen w out.new ≡ leaves_seen w out.old ++ map
        (piece_of form)
        (leaves_seen w leaves.items)) }
{
    'leaves: for (guard, value) in leaves {
        add_leaf(alloc, out, guard, &value, form)?;
    }
    Ok(())
}

fn add_leaf(
    alloc: Global,
    out: &mut Out,
    guard: Guard,
    value: &Value,
    form: Form,
) -> Result<(), Memory>
    ensures { OnOk result ((w : ℕ → Bool) → leaves_seen w out.new ≡ leaves_seen w out.old
        ++ (if holds w guard
        then piece_of form value.now ∷ [] else [])) }
{
    let piece = make_piece(alloc, value, form)?;
    out.push(guard, piece)?;
    Ok(())
}

/// Makes the page a missing one, wherever the path condition holds.
pub(crate) fn add_missing(alloc: Global, out: &mut Out, pc: &Guard) -> Result<(), Memory>
    ensures { OnOk result ((w : ℕ → Bool) → leaves_seen w out.new ≡ leaves_seen w out.old
        ++ (if holds w pc.now
        then piece.Missing ∷ [] else [])) }
{
    let guard = pc.copy(alloc)?;
    out.push(guard, Piece::Missing)?;
    Ok(())
}
