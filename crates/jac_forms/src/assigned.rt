ghost use Rattle.std.specs.Prelude.{◌≡◌, IfOk, IfErr, IsTrue};
ghost use Rattle.jac_lang.specs.Mirror.{assigned_of, one_assigned_of};
ghost use Rattle.jac_tree.specs.Mirror.{plain, plain_all};
ghost use Rattle.jac_forms.specs.Statements.{assigned_in_tree, set_in_tree};
ghost use Rattle.jac_forms.specs.Names.{each_in_trees};
ghost use Rattle.jac_forms.specs.Places.{path_of};
ghost use Rattle.jac_forms.specs.Reads.{got, refused};
ghost use Rattle.jac_forms.specs.Refusal.{refuses};

use crate::expressions::read_expr;
use crate::names::{next_number, read_name};
use crate::place::Place;
use crate::{FormFault, Want};
use jac_lang::{Public, Publics};
use jac_tree::{Tree, Trees, tail_of};
use std::alloc::Global;

pub fn read_set(alloc: Global, place: &Place<'_>, tree: &Tree) -> Result<Publics, FormFault>
    ensures value { IfOk result (λ cells. set_in_tree (path_of place.now) (plain tree.now)
        ≡ got (assigned_of cells)) }
    ensures fault { IfErr result (λ f. IsTrue (refuses f)
        → set_in_tree (path_of place.now) (plain tree.now) ≡ refused f) }
{
    match tail_of(tree, b"set") {
        Some(cells) => {
            let cells = read_assigned(alloc, place, Want::Cell, cells)?;
            Ok(cells)
        }
        None => Err(place.form(alloc, Want::Set)),
    }
}

/// Reads fields with their expressions, after the head of their list. Anything else is a fault with
/// `want`.
pub fn read_assigned(
    alloc: Global,
    place: &Place<'_>,
    want: Want,
    trees: &Trees,
) -> Result<Publics, FormFault>
    ensures value { IfOk result (λ ps. each_in_trees (assigned_in_tree want) (path_of place.now) 1
        (plain_all trees.now) ≡ got (assigned_of ps)) }
    ensures fault { IfErr result (λ f. IsTrue (refuses f) → each_in_trees (assigned_in_tree want)
        (path_of place.now) 1 (plain_all trees.now) ≡ refused f) }
{
    let mut back = Publics::End;
    let mut number: u32 = 1;
    let mut left = trees;
    'fields: while let Trees::More(first, rest) = left {
        let first = read_one_assigned(alloc, &place.child(number), want, first)?;
        back = Publics::More(first, Box::new(alloc, back)?);
        number = next_number(number)?;
        left = rest;
    }
    let assigned = back.before(Publics::End);
    Ok(assigned)
}

fn read_one_assigned(
    alloc: Global,
    place: &Place<'_>,
    want: Want,
    tree: &Tree,
) -> Result<Public, FormFault>
    ensures value { IfOk result (λ p. assigned_in_tree want (path_of place.now) (plain tree.now)
        ≡ got (one_assigned_of p)) }
    ensures fault { IfErr result (λ f. IsTrue (refuses f)
        → assigned_in_tree want (path_of place.now) (plain tree.now) ≡ refused f) }
{
    let Tree::List(Trees::More(field, rest)) = tree else {
        return Err(place.form(alloc, want));
    };
    let Trees::More(value, rest) = &**rest else {
        return Err(place.form(alloc, want));
    };
    let Trees::End = &**rest else {
        return Err(place.form(alloc, want));
    };
    let field = read_name(alloc, &place.child(0), field)?;
    let value = read_expr(alloc, &place.child(1), value)?;
    Ok(Public { field, value })
}
