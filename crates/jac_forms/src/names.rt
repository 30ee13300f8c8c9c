ghost use Rattle.std.specs.Prelude.{◌≡◌, ◌+◌, ◌<◌, ◌^◌, IfOk, IfErr, IsTrue};
ghost use Rattle.jac_tree.specs.Mirror.{plain, plain_all};
ghost use Rattle.jac_forms.specs.Names.{name_in_tree};
ghost use Rattle.jac_forms.specs.Places.{path_of};
ghost use Rattle.jac_forms.specs.Reads.{got, refused};
ghost use Rattle.jac_forms.specs.Refusal.{refuses};
ghost use Rattle.jac_tree.specs.Plain.{count};

use crate::place::Place;
use crate::{FormFault, Want};
use jac_tree::{Tree, Trees};
use jac_value::{Memory, Txt, is_name};
use std::alloc::Global;

/// The number of trees, for the message of a fault.
pub fn count(trees: &Trees) -> Result<u64, Memory>
    ensures { IfOk result (λ number. number ≡ count (plain_all trees.now)) }
{
    let mut number: u64 = 0;
    let mut left = trees;
    'trees: while let Trees::More(_, rest) = left {
        number = next_count(number)?;
        left = rest;
    }
    Ok(number)
}

/// The number of the next child. If it doesn't fit into 32 bits, the result is `Memory`.
pub fn next_number(number: u32) -> Result<u32, Memory>
    ensures { IfOk result (λ next. (next ≡ number + 1) × (next < 2 ^ 32)) }
{
    match number.checked_add(1) {
        Some(next) => Ok(next),
        None => Err(Memory),
    }
}

/// The count plus one. If it doesn't fit into 64 bits, the result is `Memory`. This never happens
/// in practice.
pub fn next_count(number: u64) -> Result<u64, Memory>
    ensures { IfOk result (λ next. next ≡ number + 1) }
{
    match number.checked_add(1) {
        Some(next) => Ok(next),
        None => Err(Memory),
    }
}

pub fn read_name(alloc: Global, place: &Place<'_>, tree: &Tree) -> Result<Txt, FormFault>
    ensures value { IfOk result (λ name. name_in_tree (path_of place.now) (plain tree.now)
        ≡ got name) }
    ensures fault { IfErr result (λ f. IsTrue (refuses f) → name_in_tree (path_of place.now)
        (plain tree.now) ≡ refused f) }
{
    match tree {
        Tree::Atom(word) => {
            if is_name(word.as_bytes()) {
                let name = word.copy(alloc)?;
                Ok(name)
            } else {
                Err(place.form(alloc, Want::Name))
            }
        }
        _ => Err(place.form(alloc, Want::Name)),
    }
}
